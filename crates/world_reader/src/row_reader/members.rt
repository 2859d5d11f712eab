//! Rows on members.
#![tactic(auto, unfolding(il_base::specs::cli_format::Tables::column_of, il_base::specs::cli_format::Columns::columns_of, il_base::specs::cli_format::Columns::schema, rules::specs::record_format::Members::field_row, rules::specs::record_format::Members::method_def_row, rules::specs::record_format::Members::param_row, rules::specs::record_format::Members::member_ref_row, rules::specs::record_format::Members::stand_alone_sig_row, rules::specs::record_format::Members::event_map_row, rules::specs::record_format::Members::event_row, rules::specs::record_format::Members::property_map_row, rules::specs::record_format::Members::property_row, rules::specs::record_format::Members::method_semantics_row, rules::specs::record_format::Members::method_impl_row, rules::specs::record_format::Members::method_spec_row))]

ghost use Rattle.il_base.specs.declared.table.TheConstants.{EVENT, EVENT_MAP, FIELD, MEMBER_REF, METHOD_DEF, METHOD_IMPL, METHOD_SEMANTICS, METHOD_SPEC, PARAM, PROPERTY, PROPERTY_MAP, STAND_ALONE_SIG};
ghost use Rattle.il_base.specs.cli_format.Image.{metadata_of};
ghost use Rattle.il_base.specs.blob_grammar.Reading.{field_of_blob, method_of_blob, property_of_blob, locals_of_blob, instance_of_blob};
ghost use Rattle.rules.specs.record_format.Parts.{known_of, member_of_blob};
ghost use Rattle.rules.specs.record_format.Members.{field_row, method_def_row, param_row, member_ref_row, stand_alone_sig_row, event_map_row, event_row, property_map_row, property_row, method_semantics_row, method_impl_row, method_spec_row};

use crate::cell_reader::Assembly;
use crate::row_reader::bodies::{FoundBody, body_of};
use crate::row_reader::faults::Met;
use crate::row_reader::parts::{known, member_signature};
use crate::row_reader::row::Row;
use crate::row_reader::signatures::{HasSignature, SignatureRow, signature_of};
use il_base::world_model::{
    EventMapRow, EventRow, FieldRow, Known, MemberRefRow, MemberSig, MethodDefRow, MethodImplRow,
    MethodSemanticsRow, MethodSpecRow, ParamRow, PropertyMapRow, PropertyRow, StandAloneSigRow,
};
use il_base::{MethodSig, NoMemory, Seq, Sig, table};
use sig_blobs::{read_field, read_instance, read_locals, read_method, read_property};
use std::alloc::Global;

/// Field (II.22.15).
impl HasSignature for FieldRow {
    const TABLE: u8 = table::FIELD;

    const COLUMN: usize = 2;

    type Signature = Sig;

    ghost TABLE = { FIELD };

    ghost COLUMN = { 2 };

    ghost of_blob = { λ b. known_of (field_of_blob b) };

    fn read_signature(alloc: Global, blob: &[u8]) -> Result<Known<Sig>, NoMemory> {
        known(read_field(alloc, blob))
    }
}

impl SignatureRow for FieldRow {
    ghost row_of = { λ bs r. field_row (metadata_of bs) r };

    fn read(alloc: Global, file: &Assembly, met: &mut Met, row: u32) -> Result<FieldRow, NoMemory> {
        let flags = file.half(table::FIELD, 0, row);
        let name = file.text(alloc, table::FIELD, 1, row)?;
        let signature = signature_of::<FieldRow>(alloc, file, &mut met.signatures, row)?;
        Ok(FieldRow {
            flags,
            name,
            signature,
        })
    }
}

/// MethodDef (II.22.26).
impl HasSignature for MethodDefRow {
    const TABLE: u8 = table::METHOD_DEF;

    const COLUMN: usize = 4;

    type Signature = MethodSig;

    ghost TABLE = { METHOD_DEF };

    ghost COLUMN = { 4 };

    ghost of_blob = { λ b. known_of (method_of_blob b) };

    fn read_signature(alloc: Global, blob: &[u8]) -> Result<Known<MethodSig>, NoMemory> {
        known(read_method(alloc, blob))
    }
}

impl SignatureRow for MethodDefRow {
    ghost row_of = { λ bs r. method_def_row bs (metadata_of bs) r };

    fn read(
        alloc: Global,
        file: &Assembly,
        met: &mut Met,
        row: u32,
    ) -> Result<MethodDefRow, NoMemory> {
        let rva = file.word(table::METHOD_DEF, 0, row);
        let impl_flags = file.half(table::METHOD_DEF, 1, row);
        let flags = file.half(table::METHOD_DEF, 2, row);
        let name = file.text(alloc, table::METHOD_DEF, 3, row)?;
        let signature = signature_of::<MethodDefRow>(alloc, file, &mut met.signatures, row)?;
        let param_list_first = file.word(table::METHOD_DEF, 5, row);
        let param_list_end = file.run_end(table::METHOD_DEF, 5, table::PARAM, row);
        let FoundBody { body, bad_at } = body_of(alloc, file, &mut met.bodies, rva)?;
        Ok(MethodDefRow {
            rva,
            impl_flags,
            flags,
            name,
            signature,
            param_list_first,
            param_list_end,
            body,
            bad_at,
        })
    }
}

/// Param (II.22.33).
impl Row for ParamRow {
    const TABLE: u8 = table::PARAM;

    ghost TABLE = { PARAM };

    ghost row_of = { λ bs r. param_row (metadata_of bs) r };

    fn read(alloc: Global, file: &Assembly, row: u32) -> Result<ParamRow, NoMemory> {
        let flags = file.half(table::PARAM, 0, row);
        let sequence = file.half(table::PARAM, 1, row);
        let name = file.text(alloc, table::PARAM, 2, row)?;
        Ok(ParamRow {
            flags,
            sequence,
            name,
        })
    }
}

/// MemberRef (II.22.25).
impl HasSignature for MemberRefRow {
    const TABLE: u8 = table::MEMBER_REF;

    const COLUMN: usize = 2;

    type Signature = MemberSig;

    ghost TABLE = { MEMBER_REF };

    ghost COLUMN = { 2 };

    ghost of_blob = { member_of_blob };

    fn read_signature(alloc: Global, blob: &[u8]) -> Result<Known<MemberSig>, NoMemory> {
        member_signature(alloc, blob)
    }
}

impl SignatureRow for MemberRefRow {
    ghost row_of = { λ bs r. member_ref_row (metadata_of bs) r };

    fn read(
        alloc: Global,
        file: &Assembly,
        met: &mut Met,
        row: u32,
    ) -> Result<MemberRefRow, NoMemory> {
        let class = file.token(table::MEMBER_REF, 0, row);
        let name = file.text(alloc, table::MEMBER_REF, 1, row)?;
        let signature = signature_of::<MemberRefRow>(alloc, file, &mut met.signatures, row)?;
        Ok(MemberRefRow {
            class,
            name,
            signature,
        })
    }
}

/// StandAloneSig (II.22.36).
impl HasSignature for StandAloneSigRow {
    const TABLE: u8 = table::STAND_ALONE_SIG;

    const COLUMN: usize = 0;

    type Signature = Seq<Sig>;

    ghost TABLE = { STAND_ALONE_SIG };

    ghost COLUMN = { 0 };

    ghost of_blob = { λ b. known_of (locals_of_blob b) };

    fn read_signature(alloc: Global, blob: &[u8]) -> Result<Known<Seq<Sig>>, NoMemory> {
        known(read_locals(alloc, blob))
    }
}

impl SignatureRow for StandAloneSigRow {
    ghost row_of = { λ bs r. stand_alone_sig_row (metadata_of bs) r };

    fn read(
        alloc: Global,
        file: &Assembly,
        met: &mut Met,
        row: u32,
    ) -> Result<StandAloneSigRow, NoMemory> {
        let signature = signature_of::<StandAloneSigRow>(alloc, file, &mut met.signatures, row)?;
        Ok(StandAloneSigRow { signature })
    }
}

/// EventMap (II.22.12).
impl Row for EventMapRow {
    const TABLE: u8 = table::EVENT_MAP;

    ghost TABLE = { EVENT_MAP };

    ghost row_of = { λ bs r. event_map_row (metadata_of bs) r };

    fn read(_alloc: Global, file: &Assembly, row: u32) -> Result<EventMapRow, NoMemory> {
        let parent = file.token(table::EVENT_MAP, 0, row);
        let event_list_first = file.word(table::EVENT_MAP, 1, row);
        let event_list_end = file.run_end(table::EVENT_MAP, 1, table::EVENT, row);
        Ok(EventMapRow {
            parent,
            event_list_first,
            event_list_end,
        })
    }
}

/// Event (II.22.13).
impl Row for EventRow {
    const TABLE: u8 = table::EVENT;

    ghost TABLE = { EVENT };

    ghost row_of = { λ bs r. event_row (metadata_of bs) r };

    fn read(alloc: Global, file: &Assembly, row: u32) -> Result<EventRow, NoMemory> {
        let event_flags = file.half(table::EVENT, 0, row);
        let name = file.text(alloc, table::EVENT, 1, row)?;
        let event_type = file.token(table::EVENT, 2, row);
        Ok(EventRow {
            event_flags,
            name,
            event_type,
        })
    }
}

/// PropertyMap (II.22.35).
impl Row for PropertyMapRow {
    const TABLE: u8 = table::PROPERTY_MAP;

    ghost TABLE = { PROPERTY_MAP };

    ghost row_of = { λ bs r. property_map_row (metadata_of bs) r };

    fn read(_alloc: Global, file: &Assembly, row: u32) -> Result<PropertyMapRow, NoMemory> {
        let parent = file.token(table::PROPERTY_MAP, 0, row);
        let property_list_first = file.word(table::PROPERTY_MAP, 1, row);
        let property_list_end = file.run_end(table::PROPERTY_MAP, 1, table::PROPERTY, row);
        Ok(PropertyMapRow {
            parent,
            property_list_first,
            property_list_end,
        })
    }
}

/// Property (II.22.34).
impl HasSignature for PropertyRow {
    const TABLE: u8 = table::PROPERTY;

    const COLUMN: usize = 2;

    type Signature = MethodSig;

    ghost TABLE = { PROPERTY };

    ghost COLUMN = { 2 };

    ghost of_blob = { λ b. known_of (property_of_blob b) };

    fn read_signature(alloc: Global, blob: &[u8]) -> Result<Known<MethodSig>, NoMemory> {
        known(read_property(alloc, blob))
    }
}

impl SignatureRow for PropertyRow {
    ghost row_of = { λ bs r. property_row (metadata_of bs) r };

    fn read(
        alloc: Global,
        file: &Assembly,
        met: &mut Met,
        row: u32,
    ) -> Result<PropertyRow, NoMemory> {
        let flags = file.half(table::PROPERTY, 0, row);
        let name = file.text(alloc, table::PROPERTY, 1, row)?;
        let signature = signature_of::<PropertyRow>(alloc, file, &mut met.signatures, row)?;
        Ok(PropertyRow {
            flags,
            name,
            signature,
        })
    }
}

/// MethodSemantics (II.22.28).
impl Row for MethodSemanticsRow {
    const TABLE: u8 = table::METHOD_SEMANTICS;

    ghost TABLE = { METHOD_SEMANTICS };

    ghost row_of = { λ bs r. method_semantics_row (metadata_of bs) r };

    fn read(_alloc: Global, file: &Assembly, row: u32) -> Result<MethodSemanticsRow, NoMemory> {
        let semantics = file.half(table::METHOD_SEMANTICS, 0, row);
        let method = file.token(table::METHOD_SEMANTICS, 1, row);
        let association = file.token(table::METHOD_SEMANTICS, 2, row);
        Ok(MethodSemanticsRow {
            semantics,
            method,
            association,
        })
    }
}

/// MethodImpl (II.22.27).
impl Row for MethodImplRow {
    const TABLE: u8 = table::METHOD_IMPL;

    ghost TABLE = { METHOD_IMPL };

    ghost row_of = { λ bs r. method_impl_row (metadata_of bs) r };

    fn read(_alloc: Global, file: &Assembly, row: u32) -> Result<MethodImplRow, NoMemory> {
        let class = file.token(table::METHOD_IMPL, 0, row);
        let body = file.token(table::METHOD_IMPL, 1, row);
        let declaration = file.token(table::METHOD_IMPL, 2, row);
        Ok(MethodImplRow {
            class,
            body,
            declaration,
        })
    }
}

/// MethodSpec (II.22.29).
impl HasSignature for MethodSpecRow {
    const TABLE: u8 = table::METHOD_SPEC;

    const COLUMN: usize = 1;

    type Signature = Seq<Sig>;

    ghost TABLE = { METHOD_SPEC };

    ghost COLUMN = { 1 };

    ghost of_blob = { λ b. known_of (instance_of_blob b) };

    fn read_signature(alloc: Global, blob: &[u8]) -> Result<Known<Seq<Sig>>, NoMemory> {
        known(read_instance(alloc, blob))
    }
}

impl SignatureRow for MethodSpecRow {
    ghost row_of = { λ bs r. method_spec_row (metadata_of bs) r };

    fn read(
        alloc: Global,
        file: &Assembly,
        met: &mut Met,
        row: u32,
    ) -> Result<MethodSpecRow, NoMemory> {
        let method = file.token(table::METHOD_SPEC, 0, row);
        let instantiation = signature_of::<MethodSpecRow>(alloc, file, &mut met.signatures, row)?;
        Ok(MethodSpecRow {
            method,
            instantiation,
        })
    }
}
