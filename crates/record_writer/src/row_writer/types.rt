//! Rows on types.

ghost use Rattle.il_base.specs.declared.table.TheConstants.{MODULE, TYPE_REF, TYPE_DEF, INTERFACE_IMPL, CLASS_LAYOUT, TYPE_SPEC, EXPORTED_TYPE, NESTED_CLASS, GENERIC_PARAM, GENERIC_PARAM_CONSTRAINT};
ghost use Rattle.il_base.specs.blob_grammar.Signatures.{levels, IsType};
ghost use Rattle.record_writer.specs.row_writer.CanWrite.{HasSpelling};
ghost use Rattle.rules.specs.record_layout.Rows as layout;

use crate::row_writer::row::{Row, guid, listed, text};
use crate::row_writer::signatures;
use il_base::world_model::{
    ClassLayoutRow, ExportedTypeRow, GenericParamConstraintRow, GenericParamRow, InterfaceImplRow,
    ModuleRow, NestedClassRow, TypeDefRow, TypeRefRow, TypeSpecRow,
};
use il_base::{NoMemory, Seq, table};
use rules::record_layout::Value;
use std::alloc::Global;

/// Module (II.22.30).
impl Row for ModuleRow {
    const TABLE: u8 = table::MODULE;

    ghost TABLE = { MODULE };

    ghost values_of = { layout.module_values };

    ghost CanWrite = { λ _. Unit {0} };

    fn values(&self, alloc: Global) -> Result<Seq<Value>, NoMemory> {
        let name = text(alloc, &self.name)?;
        let mvid = guid(alloc, &self.mvid)?;
        let enc_id = guid(alloc, &self.enc_id)?;
        let enc_base_id = guid(alloc, &self.enc_base_id)?;
        listed(
            alloc,
            [
                Value::Number(u32::from(self.generation)),
                name,
                mvid,
                enc_id,
                enc_base_id,
            ],
        )
    }
}

/// TypeRef (II.22.38).
impl Row for TypeRefRow {
    const TABLE: u8 = table::TYPE_REF;

    ghost TABLE = { TYPE_REF };

    ghost values_of = { layout.type_ref_values };

    ghost CanWrite = { λ _. Unit {0} };

    fn values(&self, alloc: Global) -> Result<Seq<Value>, NoMemory> {
        let name = text(alloc, &self.name)?;
        let namespace = text(alloc, &self.namespace)?;
        listed(
            alloc,
            [Value::Token(self.resolution_scope), name, namespace],
        )
    }
}

/// TypeDef (II.22.37).
impl Row for TypeDefRow {
    const TABLE: u8 = table::TYPE_DEF;

    ghost TABLE = { TYPE_DEF };

    ghost values_of = { layout.type_def_values };

    ghost CanWrite = { λ _. Unit {0} };

    fn values(&self, alloc: Global) -> Result<Seq<Value>, NoMemory> {
        let name = text(alloc, &self.name)?;
        let namespace = text(alloc, &self.namespace)?;
        listed(
            alloc,
            [
                Value::Number(self.flags),
                name,
                namespace,
                Value::Token(self.extends),
                Value::Number(self.field_list_first),
                Value::Number(self.method_list_first),
            ],
        )
    }
}

/// InterfaceImpl (II.22.23).
impl Row for InterfaceImplRow {
    const TABLE: u8 = table::INTERFACE_IMPL;

    ghost TABLE = { INTERFACE_IMPL };

    ghost values_of = { layout.interface_impl_values };

    ghost CanWrite = { λ _. Unit {0} };

    fn values(&self, alloc: Global) -> Result<Seq<Value>, NoMemory> {
        listed(
            alloc,
            [Value::Token(self.class), Value::Token(self.interface)],
        )
    }
}

/// ClassLayout (II.22.8).
impl Row for ClassLayoutRow {
    const TABLE: u8 = table::CLASS_LAYOUT;

    ghost TABLE = { CLASS_LAYOUT };

    ghost values_of = { layout.class_layout_values };

    ghost CanWrite = { λ _. Unit {0} };

    fn values(&self, alloc: Global) -> Result<Seq<Value>, NoMemory> {
        listed(
            alloc,
            [
                Value::Number(u32::from(self.packing_size)),
                Value::Number(self.class_size),
                Value::Token(self.parent),
            ],
        )
    }
}

/// TypeSpec (II.22.39).
impl Row for TypeSpecRow {
    const TABLE: u8 = table::TYPE_SPEC;

    ghost TABLE = { TYPE_SPEC };

    ghost values_of = { layout.type_spec_values };

    ghost CanWrite = { λ row. HasSpelling (IsType levels) row.signature };

    fn values(&self, alloc: Global) -> Result<Seq<Value>, NoMemory> {
        let signature = signatures::type_spec(alloc, &self.signature)?;
        listed(alloc, [signature])
    }
}

/// ExportedType (II.22.14).
impl Row for ExportedTypeRow {
    const TABLE: u8 = table::EXPORTED_TYPE;

    ghost TABLE = { EXPORTED_TYPE };

    ghost values_of = { layout.exported_type_values };

    ghost CanWrite = { λ _. Unit {0} };

    fn values(&self, alloc: Global) -> Result<Seq<Value>, NoMemory> {
        let name = text(alloc, &self.name)?;
        let namespace = text(alloc, &self.namespace)?;
        listed(
            alloc,
            [
                Value::Number(self.flags),
                Value::Number(self.type_def_id),
                name,
                namespace,
                Value::Token(self.implementation),
            ],
        )
    }
}

/// NestedClass (II.22.32).
impl Row for NestedClassRow {
    const TABLE: u8 = table::NESTED_CLASS;

    ghost TABLE = { NESTED_CLASS };

    ghost values_of = { layout.nested_class_values };

    ghost CanWrite = { λ _. Unit {0} };

    fn values(&self, alloc: Global) -> Result<Seq<Value>, NoMemory> {
        listed(
            alloc,
            [
                Value::Token(self.nested_class),
                Value::Token(self.enclosing_class),
            ],
        )
    }
}

/// GenericParam (II.22.20).
impl Row for GenericParamRow {
    const TABLE: u8 = table::GENERIC_PARAM;

    ghost TABLE = { GENERIC_PARAM };

    ghost values_of = { layout.generic_param_values };

    ghost CanWrite = { λ _. Unit {0} };

    fn values(&self, alloc: Global) -> Result<Seq<Value>, NoMemory> {
        let name = text(alloc, &self.name)?;
        listed(
            alloc,
            [
                Value::Number(u32::from(self.number)),
                Value::Number(u32::from(self.flags)),
                Value::Token(self.owner),
                name,
            ],
        )
    }
}

/// GenericParamConstraint (II.22.21).
impl Row for GenericParamConstraintRow {
    const TABLE: u8 = table::GENERIC_PARAM_CONSTRAINT;

    ghost TABLE = { GENERIC_PARAM_CONSTRAINT };

    ghost values_of = { layout.generic_param_constraint_values };

    ghost CanWrite = { λ _. Unit {0} };

    fn values(&self, alloc: Global) -> Result<Seq<Value>, NoMemory> {
        listed(
            alloc,
            [Value::Token(self.owner), Value::Token(self.constraint)],
        )
    }
}
