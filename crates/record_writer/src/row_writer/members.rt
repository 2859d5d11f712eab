//! Rows on members.

ghost use Rattle.il_base.specs.declared.table.TheConstants.{FIELD, METHOD_DEF, PARAM, MEMBER_REF, STAND_ALONE_SIG, EVENT_MAP, EVENT, PROPERTY_MAP, PROPERTY, METHOD_SEMANTICS, METHOD_IMPL, METHOD_SPEC};
ghost use Rattle.il_base.specs.blob_grammar.Signatures.{AreLocals, IsField, IsInstance, IsMethod, IsProperty};
ghost use Rattle.record_writer.specs.row_writer.CanWrite.{HasSpelling, HasMemberSpelling};
ghost use Rattle.rules.specs.record_layout.Rows as layout;

use crate::row_writer::placed::Placed;
use crate::row_writer::row::{Row, listed, text};
use crate::row_writer::signatures;
use il_base::world_model::{
    EventMapRow, EventRow, FieldRow, MemberRefRow, MethodDefRow, MethodImplRow, MethodSemanticsRow,
    MethodSpecRow, ParamRow, PropertyMapRow, PropertyRow, StandAloneSigRow,
};
use il_base::{NoMemory, Seq, table};
use rules::record_layout::Value;
use std::alloc::Global;

/// Field (II.22.15).
impl Row for FieldRow {
    const TABLE: u8 = table::FIELD;

    ghost TABLE = { FIELD };

    ghost values_of = { layout.field_values };

    ghost CanWrite = { λ row. HasSpelling IsField row.signature };

    fn values(&self, alloc: Global) -> Result<Seq<Value>, NoMemory> {
        let name = text(alloc, &self.name)?;
        let signature = signatures::field(alloc, &self.signature)?;
        listed(
            alloc,
            [Value::Number(u32::from(self.flags)), name, signature],
        )
    }
}

/// MethodDef (II.22.26).
impl Placed for MethodDefRow {
    const TABLE: u8 = table::METHOD_DEF;

    ghost TABLE = { METHOD_DEF };

    ghost values_of = { layout.method_def_values };

    ghost CanWrite = { λ row. HasSpelling IsMethod row.signature };

    fn values(&self, alloc: Global, rva: u32) -> Result<Seq<Value>, NoMemory> {
        let name = text(alloc, &self.name)?;
        let signature = signatures::method(alloc, &self.signature)?;
        listed(
            alloc,
            [
                Value::Number(rva),
                Value::Number(u32::from(self.impl_flags)),
                Value::Number(u32::from(self.flags)),
                name,
                signature,
                Value::Number(self.param_list_first),
            ],
        )
    }
}

/// Param (II.22.33).
impl Row for ParamRow {
    const TABLE: u8 = table::PARAM;

    ghost TABLE = { PARAM };

    ghost values_of = { layout.param_values };

    ghost CanWrite = { λ _. Unit {0} };

    fn values(&self, alloc: Global) -> Result<Seq<Value>, NoMemory> {
        let name = text(alloc, &self.name)?;
        listed(
            alloc,
            [
                Value::Number(u32::from(self.flags)),
                Value::Number(u32::from(self.sequence)),
                name,
            ],
        )
    }
}

/// MemberRef (II.22.25).
impl Row for MemberRefRow {
    const TABLE: u8 = table::MEMBER_REF;

    ghost TABLE = { MEMBER_REF };

    ghost values_of = { layout.member_ref_values };

    ghost CanWrite = { λ row. HasMemberSpelling row.signature };

    fn values(&self, alloc: Global) -> Result<Seq<Value>, NoMemory> {
        let name = text(alloc, &self.name)?;
        let signature = signatures::member(alloc, &self.signature)?;
        listed(alloc, [Value::Token(self.class), name, signature])
    }
}

/// StandAloneSig (II.22.36).
impl Row for StandAloneSigRow {
    const TABLE: u8 = table::STAND_ALONE_SIG;

    ghost TABLE = { STAND_ALONE_SIG };

    ghost values_of = { layout.stand_alone_sig_values };

    ghost CanWrite = { λ row. HasSpelling AreLocals row.signature };

    fn values(&self, alloc: Global) -> Result<Seq<Value>, NoMemory> {
        let signature = signatures::locals(alloc, &self.signature)?;
        listed(alloc, [signature])
    }
}

/// EventMap (II.22.12).
impl Row for EventMapRow {
    const TABLE: u8 = table::EVENT_MAP;

    ghost TABLE = { EVENT_MAP };

    ghost values_of = { layout.event_map_values };

    ghost CanWrite = { λ _. Unit {0} };

    fn values(&self, alloc: Global) -> Result<Seq<Value>, NoMemory> {
        listed(
            alloc,
            [
                Value::Token(self.parent),
                Value::Number(self.event_list_first),
            ],
        )
    }
}

/// Event (II.22.13).
impl Row for EventRow {
    const TABLE: u8 = table::EVENT;

    ghost TABLE = { EVENT };

    ghost values_of = { layout.event_values };

    ghost CanWrite = { λ _. Unit {0} };

    fn values(&self, alloc: Global) -> Result<Seq<Value>, NoMemory> {
        let name = text(alloc, &self.name)?;
        listed(
            alloc,
            [
                Value::Number(u32::from(self.event_flags)),
                name,
                Value::Token(self.event_type),
            ],
        )
    }
}

/// PropertyMap (II.22.35).
impl Row for PropertyMapRow {
    const TABLE: u8 = table::PROPERTY_MAP;

    ghost TABLE = { PROPERTY_MAP };

    ghost values_of = { layout.property_map_values };

    ghost CanWrite = { λ _. Unit {0} };

    fn values(&self, alloc: Global) -> Result<Seq<Value>, NoMemory> {
        listed(
            alloc,
            [
                Value::Token(self.parent),
                Value::Number(self.property_list_first),
            ],
        )
    }
}

/// Property (II.22.34).
impl Row for PropertyRow {
    const TABLE: u8 = table::PROPERTY;

    ghost TABLE = { PROPERTY };

    ghost values_of = { layout.property_values };

    ghost CanWrite = { λ row. HasSpelling IsProperty row.signature };

    fn values(&self, alloc: Global) -> Result<Seq<Value>, NoMemory> {
        let name = text(alloc, &self.name)?;
        let signature = signatures::property(alloc, &self.signature)?;
        listed(
            alloc,
            [Value::Number(u32::from(self.flags)), name, signature],
        )
    }
}

/// MethodSemantics (II.22.28).
impl Row for MethodSemanticsRow {
    const TABLE: u8 = table::METHOD_SEMANTICS;

    ghost TABLE = { METHOD_SEMANTICS };

    ghost values_of = { layout.method_semantics_values };

    ghost CanWrite = { λ _. Unit {0} };

    fn values(&self, alloc: Global) -> Result<Seq<Value>, NoMemory> {
        listed(
            alloc,
            [
                Value::Number(u32::from(self.semantics)),
                Value::Token(self.method),
                Value::Token(self.association),
            ],
        )
    }
}

/// MethodImpl (II.22.27).
impl Row for MethodImplRow {
    const TABLE: u8 = table::METHOD_IMPL;

    ghost TABLE = { METHOD_IMPL };

    ghost values_of = { layout.method_impl_values };

    ghost CanWrite = { λ _. Unit {0} };

    fn values(&self, alloc: Global) -> Result<Seq<Value>, NoMemory> {
        listed(
            alloc,
            [
                Value::Token(self.class),
                Value::Token(self.body),
                Value::Token(self.declaration),
            ],
        )
    }
}

/// MethodSpec (II.22.29).
impl Row for MethodSpecRow {
    const TABLE: u8 = table::METHOD_SPEC;

    ghost TABLE = { METHOD_SPEC };

    ghost values_of = { layout.method_spec_values };

    ghost CanWrite = { λ row. HasSpelling IsInstance row.instantiation };

    fn values(&self, alloc: Global) -> Result<Seq<Value>, NoMemory> {
        let instantiation = signatures::instance(alloc, &self.instantiation)?;
        listed(alloc, [Value::Token(self.method), instantiation])
    }
}
