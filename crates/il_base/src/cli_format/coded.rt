ghost use Rattle.std.specs.Prelude.{◌≡◌};
ghost use Rattle.il_base.specs.cli_format.Coded.{tag_bits_of, first_tag_of, targets_of};

use crate::cli_format::column::CodedIndex;
use crate::table;

/// The tables that the tags of a coded index name, in order of the tags (II.24.2.6).
pub fn targets(index: CodedIndex) -> &'static [u8]
    ensures { result.now ≡ targets_of index }
{
    match index {
        CodedIndex::TypeDefOrRef => &[table::TYPE_DEF, table::TYPE_REF, table::TYPE_SPEC],
        CodedIndex::HasConstant => &[table::FIELD, table::PARAM, table::PROPERTY],
        CodedIndex::HasCustomAttribute => &[
            table::METHOD_DEF,
            table::FIELD,
            table::TYPE_REF,
            table::TYPE_DEF,
            table::PARAM,
            table::INTERFACE_IMPL,
            table::MEMBER_REF,
            table::MODULE,
            table::DECL_SECURITY,
            table::PROPERTY,
            table::EVENT,
            table::STAND_ALONE_SIG,
            table::MODULE_REF,
            table::TYPE_SPEC,
            table::ASSEMBLY,
            table::ASSEMBLY_REF,
            table::FILE,
            table::EXPORTED_TYPE,
            table::MANIFEST_RESOURCE,
            table::GENERIC_PARAM,
            table::GENERIC_PARAM_CONSTRAINT,
            table::METHOD_SPEC,
        ],
        CodedIndex::HasFieldMarshal => &[table::FIELD, table::PARAM],
        CodedIndex::HasDeclSecurity => &[table::TYPE_DEF, table::METHOD_DEF, table::ASSEMBLY],
        CodedIndex::MemberRefParent => &[
            table::TYPE_DEF,
            table::TYPE_REF,
            table::MODULE_REF,
            table::METHOD_DEF,
            table::TYPE_SPEC,
        ],
        CodedIndex::HasSemantics => &[table::EVENT, table::PROPERTY],
        CodedIndex::MethodDefOrRef => &[table::METHOD_DEF, table::MEMBER_REF],
        CodedIndex::MemberForwarded => &[table::FIELD, table::METHOD_DEF],
        CodedIndex::Implementation => &[table::FILE, table::ASSEMBLY_REF, table::EXPORTED_TYPE],
        CodedIndex::CustomAttributeType => &[table::METHOD_DEF, table::MEMBER_REF],
        CodedIndex::ResolutionScope => &[
            table::MODULE,
            table::MODULE_REF,
            table::ASSEMBLY_REF,
            table::TYPE_REF,
        ],
        CodedIndex::TypeOrMethodDef => &[table::TYPE_DEF, table::METHOD_DEF],
    }
}

/// How many of the low bits of a coded index are its tag.
pub fn tag_bits(index: CodedIndex) -> u8
    ensures { result ≡ tag_bits_of index }
{
    match index {
        CodedIndex::HasFieldMarshal
        | CodedIndex::HasSemantics
        | CodedIndex::MethodDefOrRef
        | CodedIndex::MemberForwarded
        | CodedIndex::TypeOrMethodDef => 1,
        CodedIndex::TypeDefOrRef
        | CodedIndex::HasConstant
        | CodedIndex::HasDeclSecurity
        | CodedIndex::Implementation
        | CodedIndex::ResolutionScope => 2,
        CodedIndex::MemberRefParent | CodedIndex::CustomAttributeType => 3,
        CodedIndex::HasCustomAttribute => 5,
    }
}

/// The tag of the first target: `CustomAttributeType` has none for its tags 0 and 1.
pub fn first_tag(index: CodedIndex) -> u8
    ensures { result ≡ first_tag_of index }
{
    match index {
        CodedIndex::CustomAttributeType => 2,
        _ => 0,
    }
}
