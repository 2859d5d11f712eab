//! Rows that belong to members.
#![tactic(auto, unfolding(il_base::specs::cli_format::Tables::column_of, il_base::specs::cli_format::Columns::columns_of, il_base::specs::cli_format::Columns::schema, rules::specs::record_format::Others::constant_row, rules::specs::record_format::Others::custom_attribute_row, rules::specs::record_format::Others::field_marshal_row, rules::specs::record_format::Others::decl_security_row, rules::specs::record_format::Others::field_layout_row, rules::specs::record_format::Others::impl_map_row))]

ghost use Rattle.il_base.specs.declared.table.TheConstants.{CONSTANT, CUSTOM_ATTRIBUTE, DECL_SECURITY, FIELD_LAYOUT, FIELD_MARSHAL, IMPL_MAP};
ghost use Rattle.il_base.specs.cli_format.Image.{metadata_of};
ghost use Rattle.rules.specs.record_format.Others.{constant_row, custom_attribute_row, field_marshal_row, decl_security_row, field_layout_row, impl_map_row};

use crate::cell_reader::Assembly;
use crate::row_reader::row::Row;
use il_base::world_model::{
    ConstantRow, CustomAttributeRow, DeclSecurityRow, FieldLayoutRow, FieldMarshalRow, ImplMapRow,
};
use il_base::{NoMemory, table};
use std::alloc::Global;

/// Constant (II.22.9).
impl Row for ConstantRow {
    const TABLE: u8 = table::CONSTANT;

    ghost TABLE = { CONSTANT };

    ghost row_of = { λ bs r. constant_row (metadata_of bs) r };

    fn read(alloc: Global, file: &Assembly, row: u32) -> Result<ConstantRow, NoMemory> {
        let kind = file.byte(table::CONSTANT, 0, row);
        let parent = file.token(table::CONSTANT, 2, row);
        let value = file.blob_copy(alloc, table::CONSTANT, 3, row)?;
        Ok(ConstantRow {
            kind,
            parent,
            value,
        })
    }
}

/// CustomAttribute (II.22.10).
impl Row for CustomAttributeRow {
    const TABLE: u8 = table::CUSTOM_ATTRIBUTE;

    ghost TABLE = { CUSTOM_ATTRIBUTE };

    ghost row_of = { λ bs r. custom_attribute_row (metadata_of bs) r };

    fn read(alloc: Global, file: &Assembly, row: u32) -> Result<CustomAttributeRow, NoMemory> {
        let parent = file.token(table::CUSTOM_ATTRIBUTE, 0, row);
        let ctor = file.token(table::CUSTOM_ATTRIBUTE, 1, row);
        let value = file.blob_copy(alloc, table::CUSTOM_ATTRIBUTE, 2, row)?;
        Ok(CustomAttributeRow {
            parent,
            ctor,
            value,
        })
    }
}

/// FieldMarshal (II.22.17).
impl Row for FieldMarshalRow {
    const TABLE: u8 = table::FIELD_MARSHAL;

    ghost TABLE = { FIELD_MARSHAL };

    ghost row_of = { λ bs r. field_marshal_row (metadata_of bs) r };

    fn read(alloc: Global, file: &Assembly, row: u32) -> Result<FieldMarshalRow, NoMemory> {
        let parent = file.token(table::FIELD_MARSHAL, 0, row);
        let native_type = file.blob_copy(alloc, table::FIELD_MARSHAL, 1, row)?;
        Ok(FieldMarshalRow {
            parent,
            native_type,
        })
    }
}

/// DeclSecurity (II.22.11).
impl Row for DeclSecurityRow {
    const TABLE: u8 = table::DECL_SECURITY;

    ghost TABLE = { DECL_SECURITY };

    ghost row_of = { λ bs r. decl_security_row (metadata_of bs) r };

    fn read(alloc: Global, file: &Assembly, row: u32) -> Result<DeclSecurityRow, NoMemory> {
        let action = file.half(table::DECL_SECURITY, 0, row);
        let parent = file.token(table::DECL_SECURITY, 1, row);
        let permission_set = file.blob_copy(alloc, table::DECL_SECURITY, 2, row)?;
        Ok(DeclSecurityRow {
            action,
            parent,
            permission_set,
        })
    }
}

/// FieldLayout (II.22.16).
impl Row for FieldLayoutRow {
    const TABLE: u8 = table::FIELD_LAYOUT;

    ghost TABLE = { FIELD_LAYOUT };

    ghost row_of = { λ bs r. field_layout_row (metadata_of bs) r };

    fn read(_alloc: Global, file: &Assembly, row: u32) -> Result<FieldLayoutRow, NoMemory> {
        let offset = file.word(table::FIELD_LAYOUT, 0, row);
        let field = file.token(table::FIELD_LAYOUT, 1, row);
        Ok(FieldLayoutRow { offset, field })
    }
}

/// ImplMap (II.22.22).
impl Row for ImplMapRow {
    const TABLE: u8 = table::IMPL_MAP;

    ghost TABLE = { IMPL_MAP };

    ghost row_of = { λ bs r. impl_map_row (metadata_of bs) r };

    fn read(alloc: Global, file: &Assembly, row: u32) -> Result<ImplMapRow, NoMemory> {
        let mapping_flags = file.half(table::IMPL_MAP, 0, row);
        let member_forwarded = file.token(table::IMPL_MAP, 1, row);
        let import_name = file.text(alloc, table::IMPL_MAP, 2, row)?;
        let import_scope = file.token(table::IMPL_MAP, 3, row);
        Ok(ImplMapRow {
            mapping_flags,
            member_forwarded,
            import_name,
            import_scope,
        })
    }
}
