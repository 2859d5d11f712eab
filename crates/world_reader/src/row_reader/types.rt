//! Rows on types.
#![tactic(auto, unfolding(il_base::specs::cli_format::Tables::column_of, il_base::specs::cli_format::Columns::columns_of, il_base::specs::cli_format::Columns::schema, rules::specs::record_format::Types::type_ref_row, rules::specs::record_format::Types::type_def_row, rules::specs::record_format::Types::interface_impl_row, rules::specs::record_format::Types::class_layout_row, rules::specs::record_format::Types::type_spec_row, rules::specs::record_format::Types::nested_class_row, rules::specs::record_format::Types::generic_param_row, rules::specs::record_format::Types::generic_param_constraint_row))]

ghost use Rattle.il_base.specs.declared.table.TheConstants.{CLASS_LAYOUT, GENERIC_PARAM, GENERIC_PARAM_CONSTRAINT, INTERFACE_IMPL, NESTED_CLASS, TYPE_DEF, TYPE_REF, TYPE_SPEC};
ghost use Rattle.il_base.specs.cli_format.Image.{metadata_of};
ghost use Rattle.il_base.specs.blob_grammar.Reading.{type_of_blob};
ghost use Rattle.rules.specs.record_format.Parts.{known_of};
ghost use Rattle.rules.specs.record_format.Types.{type_ref_row, type_def_row, interface_impl_row, class_layout_row, type_spec_row, nested_class_row, generic_param_row, generic_param_constraint_row};

use crate::cell_reader::Assembly;
use crate::row_reader::faults::Met;
use crate::row_reader::parts::known;
use crate::row_reader::row::Row;
use crate::row_reader::signatures::{HasSignature, SignatureRow, signature_of};
use il_base::world_model::{
    ClassLayoutRow, GenericParamConstraintRow, GenericParamRow, InterfaceImplRow, Known,
    NestedClassRow, TypeDefRow, TypeRefRow, TypeSpecRow,
};
use il_base::{NoMemory, Sig, table};
use sig_blobs::read_type;
use std::alloc::Global;

/// TypeRef (II.22.38).
impl Row for TypeRefRow {
    const TABLE: u8 = table::TYPE_REF;

    ghost TABLE = { TYPE_REF };

    ghost row_of = { λ bs r. type_ref_row (metadata_of bs) r };

    fn read(alloc: Global, file: &Assembly, row: u32) -> Result<TypeRefRow, NoMemory> {
        let resolution_scope = file.token(table::TYPE_REF, 0, row);
        let name = file.text(alloc, table::TYPE_REF, 1, row)?;
        let namespace = file.text(alloc, table::TYPE_REF, 2, row)?;
        Ok(TypeRefRow {
            resolution_scope,
            name,
            namespace,
        })
    }
}

/// TypeDef (II.22.37).
impl Row for TypeDefRow {
    const TABLE: u8 = table::TYPE_DEF;

    ghost TABLE = { TYPE_DEF };

    ghost row_of = { λ bs r. type_def_row (metadata_of bs) r };

    fn read(alloc: Global, file: &Assembly, row: u32) -> Result<TypeDefRow, NoMemory> {
        let flags = file.word(table::TYPE_DEF, 0, row);
        let name = file.text(alloc, table::TYPE_DEF, 1, row)?;
        let namespace = file.text(alloc, table::TYPE_DEF, 2, row)?;
        let extends = file.token(table::TYPE_DEF, 3, row);
        let field_list_first = file.word(table::TYPE_DEF, 4, row);
        let field_list_end = file.run_end(table::TYPE_DEF, 4, table::FIELD, row);
        let method_list_first = file.word(table::TYPE_DEF, 5, row);
        let method_list_end = file.run_end(table::TYPE_DEF, 5, table::METHOD_DEF, row);
        Ok(TypeDefRow {
            flags,
            name,
            namespace,
            extends,
            field_list_first,
            field_list_end,
            method_list_first,
            method_list_end,
        })
    }
}

/// InterfaceImpl (II.22.23).
impl Row for InterfaceImplRow {
    const TABLE: u8 = table::INTERFACE_IMPL;

    ghost TABLE = { INTERFACE_IMPL };

    ghost row_of = { λ bs r. interface_impl_row (metadata_of bs) r };

    fn read(_alloc: Global, file: &Assembly, row: u32) -> Result<InterfaceImplRow, NoMemory> {
        let class = file.token(table::INTERFACE_IMPL, 0, row);
        let interface = file.token(table::INTERFACE_IMPL, 1, row);
        Ok(InterfaceImplRow { class, interface })
    }
}

/// ClassLayout (II.22.8).
impl Row for ClassLayoutRow {
    const TABLE: u8 = table::CLASS_LAYOUT;

    ghost TABLE = { CLASS_LAYOUT };

    ghost row_of = { λ bs r. class_layout_row (metadata_of bs) r };

    fn read(_alloc: Global, file: &Assembly, row: u32) -> Result<ClassLayoutRow, NoMemory> {
        let packing_size = file.half(table::CLASS_LAYOUT, 0, row);
        let class_size = file.word(table::CLASS_LAYOUT, 1, row);
        let parent = file.token(table::CLASS_LAYOUT, 2, row);
        Ok(ClassLayoutRow {
            packing_size,
            class_size,
            parent,
        })
    }
}

/// TypeSpec (II.22.39).
impl HasSignature for TypeSpecRow {
    const TABLE: u8 = table::TYPE_SPEC;

    const COLUMN: usize = 0;

    type Signature = Sig;

    ghost TABLE = { TYPE_SPEC };

    ghost COLUMN = { 0 };

    ghost of_blob = { λ b. known_of (type_of_blob b) };

    fn read_signature(alloc: Global, blob: &[u8]) -> Result<Known<Sig>, NoMemory> {
        known(read_type(alloc, blob))
    }
}

impl SignatureRow for TypeSpecRow {
    ghost row_of = { λ bs r. type_spec_row (metadata_of bs) r };

    fn read(
        alloc: Global,
        file: &Assembly,
        met: &mut Met,
        row: u32,
    ) -> Result<TypeSpecRow, NoMemory> {
        let signature = signature_of::<TypeSpecRow>(alloc, file, &mut met.signatures, row)?;
        Ok(TypeSpecRow { signature })
    }
}

/// NestedClass (II.22.32).
impl Row for NestedClassRow {
    const TABLE: u8 = table::NESTED_CLASS;

    ghost TABLE = { NESTED_CLASS };

    ghost row_of = { λ bs r. nested_class_row (metadata_of bs) r };

    fn read(_alloc: Global, file: &Assembly, row: u32) -> Result<NestedClassRow, NoMemory> {
        let nested_class = file.token(table::NESTED_CLASS, 0, row);
        let enclosing_class = file.token(table::NESTED_CLASS, 1, row);
        Ok(NestedClassRow {
            nested_class,
            enclosing_class,
        })
    }
}

/// GenericParam (II.22.20).
impl Row for GenericParamRow {
    const TABLE: u8 = table::GENERIC_PARAM;

    ghost TABLE = { GENERIC_PARAM };

    ghost row_of = { λ bs r. generic_param_row (metadata_of bs) r };

    fn read(alloc: Global, file: &Assembly, row: u32) -> Result<GenericParamRow, NoMemory> {
        let number = file.half(table::GENERIC_PARAM, 0, row);
        let flags = file.half(table::GENERIC_PARAM, 1, row);
        let owner = file.token(table::GENERIC_PARAM, 2, row);
        let name = file.text(alloc, table::GENERIC_PARAM, 3, row)?;
        Ok(GenericParamRow {
            number,
            flags,
            owner,
            name,
        })
    }
}

/// GenericParamConstraint (II.22.21).
impl Row for GenericParamConstraintRow {
    const TABLE: u8 = table::GENERIC_PARAM_CONSTRAINT;

    ghost TABLE = { GENERIC_PARAM_CONSTRAINT };

    ghost row_of = { λ bs r. generic_param_constraint_row (metadata_of bs) r };

    fn read(
        _alloc: Global,
        file: &Assembly,
        row: u32,
    ) -> Result<GenericParamConstraintRow, NoMemory> {
        let owner = file.token(table::GENERIC_PARAM_CONSTRAINT, 0, row);
        let constraint = file.token(table::GENERIC_PARAM_CONSTRAINT, 1, row);
        Ok(GenericParamConstraintRow { owner, constraint })
    }
}
