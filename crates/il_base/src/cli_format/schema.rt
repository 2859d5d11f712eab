//! The columns of the tables of II.22, as data, under the tables' names.

ghost use Rattle.std.specs.Prelude.{◌≡◌, ◌≤◌, length};
ghost use Rattle.il_base.specs.cli_format.Columns.{columns_of};

use crate::cli_format::column::CodedIndex::{
    CustomAttributeType, HasConstant, HasCustomAttribute, HasDeclSecurity, HasFieldMarshal,
    HasSemantics, Implementation, MemberForwarded, MemberRefParent, MethodDefOrRef,
    ResolutionScope, TypeDefOrRef, TypeOrMethodDef,
};
use crate::cli_format::column::Column;
use crate::cli_format::column::Column::{
    Blob, Coded, CodedOrNone, Guid, Index, IndexOrNone, Run, Text, U8, U16, U32,
};
use crate::table;

/// Module (II.22.30): Generation, Name, Mvid, EncId, EncBaseId.
pub const MODULE: [Column; 5] = [U16, Text, Guid, Guid, Guid];

/// TypeRef (II.22.38): ResolutionScope, TypeName, TypeNamespace.
pub const TYPE_REF: [Column; 3] = [CodedOrNone(ResolutionScope), Text, Text];

/// TypeDef (II.22.37): Flags, TypeName, TypeNamespace, Extends, FieldList, MethodList.
pub const TYPE_DEF: [Column; 6] = [
    U32,
    Text,
    Text,
    CodedOrNone(TypeDefOrRef),
    Run(table::FIELD),
    Run(table::METHOD_DEF),
];

/// Field (II.22.15): Flags, Name, Signature.
pub const FIELD: [Column; 3] = [U16, Text, Blob];

/// MethodDef (II.22.26): RVA, ImplFlags, Flags, Name, Signature, ParamList.
pub const METHOD_DEF: [Column; 6] = [U32, U16, U16, Text, Blob, Run(table::PARAM)];

/// Param (II.22.33): Flags, Sequence, Name.
pub const PARAM: [Column; 3] = [U16, U16, Text];

/// InterfaceImpl (II.22.23): Class, Interface.
pub const INTERFACE_IMPL: [Column; 2] = [Index(table::TYPE_DEF), Coded(TypeDefOrRef)];

/// MemberRef (II.22.25): Class, Name, Signature.
pub const MEMBER_REF: [Column; 3] = [Coded(MemberRefParent), Text, Blob];

/// Constant (II.22.9): Type, padding, Parent, Value.
pub const CONSTANT: [Column; 4] = [U8, U8, Coded(HasConstant), Blob];

/// CustomAttribute (II.22.10): Parent, Type, Value.
pub const CUSTOM_ATTRIBUTE: [Column; 3] = [
    Coded(HasCustomAttribute),
    Coded(CustomAttributeType),
    Blob,
];

/// FieldMarshal (II.22.17): Parent, NativeType.
pub const FIELD_MARSHAL: [Column; 2] = [Coded(HasFieldMarshal), Blob];

/// DeclSecurity (II.22.11): Action, Parent, PermissionSet.
pub const DECL_SECURITY: [Column; 3] = [U16, Coded(HasDeclSecurity), Blob];

/// ClassLayout (II.22.8): PackingSize, ClassSize, Parent.
pub const CLASS_LAYOUT: [Column; 3] = [U16, U32, Index(table::TYPE_DEF)];

/// FieldLayout (II.22.16): Offset, Field.
pub const FIELD_LAYOUT: [Column; 2] = [U32, Index(table::FIELD)];

/// StandAloneSig (II.22.36): Signature.
pub const STAND_ALONE_SIG: [Column; 1] = [Blob];

/// EventMap (II.22.12): Parent, EventList.
pub const EVENT_MAP: [Column; 2] = [Index(table::TYPE_DEF), Run(table::EVENT)];

/// Event (II.22.13): EventFlags, Name, EventType.
pub const EVENT: [Column; 3] = [U16, Text, Coded(TypeDefOrRef)];

/// PropertyMap (II.22.35): Parent, PropertyList.
pub const PROPERTY_MAP: [Column; 2] = [Index(table::TYPE_DEF), Run(table::PROPERTY)];

/// Property (II.22.34): Flags, Name, Type.
pub const PROPERTY: [Column; 3] = [U16, Text, Blob];

/// MethodSemantics (II.22.28): Semantics, Method, Association.
pub const METHOD_SEMANTICS: [Column; 3] = [U16, Index(table::METHOD_DEF), Coded(HasSemantics)];

/// MethodImpl (II.22.27): Class, MethodBody, MethodDeclaration.
pub const METHOD_IMPL: [Column; 3] = [
    Index(table::TYPE_DEF),
    Coded(MethodDefOrRef),
    Coded(MethodDefOrRef),
];

/// ModuleRef (II.22.31): Name.
pub const MODULE_REF: [Column; 1] = [Text];

/// TypeSpec (II.22.39): Signature.
pub const TYPE_SPEC: [Column; 1] = [Blob];

/// ImplMap (II.22.22): MappingFlags, MemberForwarded, ImportName, ImportScope.
pub const IMPL_MAP: [Column; 4] = [
    U16,
    Coded(MemberForwarded),
    Text,
    IndexOrNone(table::MODULE_REF),
];

/// FieldRVA (II.22.18): RVA, Field.
pub const FIELD_RVA: [Column; 2] = [U32, Index(table::FIELD)];

/// Assembly (II.22.2): HashAlgId, four version numbers, Flags, PublicKey, Name, Culture.
pub const ASSEMBLY: [Column; 9] = [U32, U16, U16, U16, U16, U32, Blob, Text, Text];

/// AssemblyProcessor (II.22.4): Processor.
pub const ASSEMBLY_PROCESSOR: [Column; 1] = [U32];

/// AssemblyOS (II.22.3): OSPlatformID, OSMajorVersion, OSMinorVersion.
pub const ASSEMBLY_OS: [Column; 3] = [U32, U32, U32];

/// AssemblyRef (II.22.5): four version numbers, Flags, PublicKeyOrToken, Name, Culture, HashValue.
pub const ASSEMBLY_REF: [Column; 9] = [U16, U16, U16, U16, U32, Blob, Text, Text, Blob];

/// AssemblyRefProcessor (II.22.7): Processor, AssemblyRef.
pub const ASSEMBLY_REF_PROCESSOR: [Column; 2] = [U32, Index(table::ASSEMBLY_REF)];

/// AssemblyRefOS (II.22.6): OSPlatformID, OSMajorVersion, OSMinorVersion, AssemblyRef.
pub const ASSEMBLY_REF_OS: [Column; 4] = [U32, U32, U32, Index(table::ASSEMBLY_REF)];

/// File (II.22.19): Flags, Name, HashValue.
pub const FILE: [Column; 3] = [U32, Text, Blob];

/// ExportedType (II.22.14): Flags, TypeDefId, TypeName, TypeNamespace, Implementation.
pub const EXPORTED_TYPE: [Column; 5] = [U32, U32, Text, Text, CodedOrNone(Implementation)];

/// ManifestResource (II.22.24): Offset, Flags, Name, Implementation.
pub const MANIFEST_RESOURCE: [Column; 4] = [U32, U32, Text, CodedOrNone(Implementation)];

/// NestedClass (II.22.32): NestedClass, EnclosingClass.
pub const NESTED_CLASS: [Column; 2] = [Index(table::TYPE_DEF), Index(table::TYPE_DEF)];

/// GenericParam (II.22.20): Number, Flags, Owner, Name.
pub const GENERIC_PARAM: [Column; 4] = [U16, U16, Coded(TypeOrMethodDef), Text];

/// MethodSpec (II.22.29): Method, Instantiation.
pub const METHOD_SPEC: [Column; 2] = [Coded(MethodDefOrRef), Blob];

/// GenericParamConstraint (II.22.21): Owner, Constraint.
pub const GENERIC_PARAM_CONSTRAINT: [Column; 2] = [
    Index(table::GENERIC_PARAM),
    Coded(TypeDefOrRef),
];

/// The columns of a table, by its number (II.22). There are none where II.22 has no such table.
#[tactic(auto, unfolding(crate::specs::cli_format::Columns::columns_of))]
pub fn columns(table: u8) -> &'static [Column]
    ensures value { result.now ≡ columns_of table }
    ensures within { length result.now ≤ 9 }
{
    match table {
        table::MODULE => &MODULE,
        table::TYPE_REF => &TYPE_REF,
        table::TYPE_DEF => &TYPE_DEF,
        0x03 => &[],
        table::FIELD => &FIELD,
        0x05 => &[],
        table::METHOD_DEF => &METHOD_DEF,
        0x07 => &[],
        table::PARAM => &PARAM,
        table::INTERFACE_IMPL => &INTERFACE_IMPL,
        table::MEMBER_REF => &MEMBER_REF,
        table::CONSTANT => &CONSTANT,
        table::CUSTOM_ATTRIBUTE => &CUSTOM_ATTRIBUTE,
        table::FIELD_MARSHAL => &FIELD_MARSHAL,
        table::DECL_SECURITY => &DECL_SECURITY,
        table::CLASS_LAYOUT => &CLASS_LAYOUT,
        table::FIELD_LAYOUT => &FIELD_LAYOUT,
        table::STAND_ALONE_SIG => &STAND_ALONE_SIG,
        table::EVENT_MAP => &EVENT_MAP,
        0x13 => &[],
        table::EVENT => &EVENT,
        table::PROPERTY_MAP => &PROPERTY_MAP,
        0x16 => &[],
        table::PROPERTY => &PROPERTY,
        table::METHOD_SEMANTICS => &METHOD_SEMANTICS,
        table::METHOD_IMPL => &METHOD_IMPL,
        table::MODULE_REF => &MODULE_REF,
        table::TYPE_SPEC => &TYPE_SPEC,
        table::IMPL_MAP => &IMPL_MAP,
        table::FIELD_RVA => &FIELD_RVA,
        0x1e => &[],
        0x1f => &[],
        table::ASSEMBLY => &ASSEMBLY,
        table::ASSEMBLY_PROCESSOR => &ASSEMBLY_PROCESSOR,
        table::ASSEMBLY_OS => &ASSEMBLY_OS,
        table::ASSEMBLY_REF => &ASSEMBLY_REF,
        table::ASSEMBLY_REF_PROCESSOR => &ASSEMBLY_REF_PROCESSOR,
        table::ASSEMBLY_REF_OS => &ASSEMBLY_REF_OS,
        table::FILE => &FILE,
        table::EXPORTED_TYPE => &EXPORTED_TYPE,
        table::MANIFEST_RESOURCE => &MANIFEST_RESOURCE,
        table::NESTED_CLASS => &NESTED_CLASS,
        table::GENERIC_PARAM => &GENERIC_PARAM,
        table::METHOD_SPEC => &METHOD_SPEC,
        table::GENERIC_PARAM_CONSTRAINT => &GENERIC_PARAM_CONSTRAINT,
        0x2d.. => &[],
    }
}
