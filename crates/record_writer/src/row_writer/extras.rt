//! Rows that belong to members.

ghost use Rattle.il_base.specs.declared.table.TheConstants.{CONSTANT, CUSTOM_ATTRIBUTE, FIELD_MARSHAL, DECL_SECURITY, FIELD_LAYOUT, IMPL_MAP, FIELD_RVA, FILE, MANIFEST_RESOURCE};
ghost use Rattle.rules.specs.record_layout.Rows as layout;

use crate::row_writer::placed::Placed;
use crate::row_writer::row::{Row, blob, listed, text};
use il_base::world_model::{
    ConstantRow, CustomAttributeRow, DeclSecurityRow, FieldLayoutRow, FieldMarshalRow, FieldRvaRow,
    FileRow, ImplMapRow, ManifestResourceRow,
};
use il_base::{NoMemory, Seq, table};
use rules::record_layout::Value;
use std::alloc::Global;

/// Constant (II.22.9).
impl Row for ConstantRow {
    const TABLE: u8 = table::CONSTANT;

    ghost TABLE = { CONSTANT };

    ghost values_of = { layout.constant_values };

    ghost CanWrite = { λ _. Unit {0} };

    fn values(&self, alloc: Global) -> Result<Seq<Value>, NoMemory> {
        let value = blob(alloc, &self.value)?;
        listed(
            alloc,
            [
                Value::Number(u32::from(self.kind)),
                Value::Number(0),
                Value::Token(self.parent),
                value,
            ],
        )
    }
}

/// CustomAttribute (II.22.10).
impl Row for CustomAttributeRow {
    const TABLE: u8 = table::CUSTOM_ATTRIBUTE;

    ghost TABLE = { CUSTOM_ATTRIBUTE };

    ghost values_of = { layout.custom_attribute_values };

    ghost CanWrite = { λ _. Unit {0} };

    fn values(&self, alloc: Global) -> Result<Seq<Value>, NoMemory> {
        let value = blob(alloc, &self.value)?;
        listed(
            alloc,
            [Value::Token(self.parent), Value::Token(self.ctor), value],
        )
    }
}

/// FieldMarshal (II.22.17).
impl Row for FieldMarshalRow {
    const TABLE: u8 = table::FIELD_MARSHAL;

    ghost TABLE = { FIELD_MARSHAL };

    ghost values_of = { layout.field_marshal_values };

    ghost CanWrite = { λ _. Unit {0} };

    fn values(&self, alloc: Global) -> Result<Seq<Value>, NoMemory> {
        let native_type = blob(alloc, &self.native_type)?;
        listed(alloc, [Value::Token(self.parent), native_type])
    }
}

/// DeclSecurity (II.22.11).
impl Row for DeclSecurityRow {
    const TABLE: u8 = table::DECL_SECURITY;

    ghost TABLE = { DECL_SECURITY };

    ghost values_of = { layout.decl_security_values };

    ghost CanWrite = { λ _. Unit {0} };

    fn values(&self, alloc: Global) -> Result<Seq<Value>, NoMemory> {
        let permission_set = blob(alloc, &self.permission_set)?;
        listed(
            alloc,
            [
                Value::Number(u32::from(self.action)),
                Value::Token(self.parent),
                permission_set,
            ],
        )
    }
}

/// FieldLayout (II.22.16).
impl Row for FieldLayoutRow {
    const TABLE: u8 = table::FIELD_LAYOUT;

    ghost TABLE = { FIELD_LAYOUT };

    ghost values_of = { layout.field_layout_values };

    ghost CanWrite = { λ _. Unit {0} };

    fn values(&self, alloc: Global) -> Result<Seq<Value>, NoMemory> {
        listed(
            alloc,
            [Value::Number(self.offset), Value::Token(self.field)],
        )
    }
}

/// ImplMap (II.22.22).
impl Row for ImplMapRow {
    const TABLE: u8 = table::IMPL_MAP;

    ghost TABLE = { IMPL_MAP };

    ghost values_of = { layout.impl_map_values };

    ghost CanWrite = { λ _. Unit {0} };

    fn values(&self, alloc: Global) -> Result<Seq<Value>, NoMemory> {
        let import_name = text(alloc, &self.import_name)?;
        listed(
            alloc,
            [
                Value::Number(u32::from(self.mapping_flags)),
                Value::Token(self.member_forwarded),
                import_name,
                Value::Token(self.import_scope),
            ],
        )
    }
}

/// FieldRVA (II.22.18).
impl Placed for FieldRvaRow {
    const TABLE: u8 = table::FIELD_RVA;

    ghost TABLE = { FIELD_RVA };

    ghost values_of = { layout.field_rva_values };

    ghost CanWrite = { λ _. Unit {0} };

    fn values(&self, alloc: Global, rva: u32) -> Result<Seq<Value>, NoMemory> {
        listed(alloc, [Value::Number(rva), Value::Token(self.field)])
    }
}

/// File (II.22.19).
impl Row for FileRow {
    const TABLE: u8 = table::FILE;

    ghost TABLE = { FILE };

    ghost values_of = { layout.file_values };

    ghost CanWrite = { λ _. Unit {0} };

    fn values(&self, alloc: Global) -> Result<Seq<Value>, NoMemory> {
        let name = text(alloc, &self.name)?;
        let hash_value = blob(alloc, &self.hash_value)?;
        listed(alloc, [Value::Number(self.flags), name, hash_value])
    }
}

/// ManifestResource (II.22.24).
impl Row for ManifestResourceRow {
    const TABLE: u8 = table::MANIFEST_RESOURCE;

    ghost TABLE = { MANIFEST_RESOURCE };

    ghost values_of = { layout.manifest_resource_values };

    ghost CanWrite = { λ _. Unit {0} };

    fn values(&self, alloc: Global) -> Result<Seq<Value>, NoMemory> {
        let name = text(alloc, &self.name)?;
        listed(
            alloc,
            [
                Value::Number(self.offset),
                Value::Number(self.flags),
                name,
                Value::Token(self.implementation),
            ],
        )
    }
}
