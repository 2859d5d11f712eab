ghost use Rattle.std.specs.Prelude.{◌≡◌, ◌<◌, ◌^◌, [], length, IfOk};
ghost use Rattle.il_base.specs.cli_format.Metadata.{Read};
ghost use Rattle.rules.specs.record_format.Record.{record_demands, record_at, HasRecord, place_of_row};
ghost use Rattle.il_base.specs.declared.world_model.record.AsmRec.{AsmRec};
ghost use Rattle.world_reader.specs.Tables.{all_tables};

use crate::cell_reader::Assembly;
use crate::tables::{AllTables, all_tables};
use il_base::NoMemory;
use il_base::cli_format::TablesError;
use il_base::world_model::AsmRec;
use std::alloc::Global;

/// The record of these tables.
#[tactic(auto, unfolding(rules::specs::record_format::Record::record_at, crate::specs::Tables::assembly_tables, crate::specs::Tables::file_tables, crate::specs::Tables::type_tables, crate::specs::Tables::field_tables, crate::specs::Tables::method_tables, crate::specs::Tables::property_tables, crate::specs::Tables::extra_tables, crate::specs::Tables::all_tables))]
fn assembled(file: &Assembly, tables: AllTables) -> AsmRec
    requires { tables ≡ all_tables file.now }
    ensures { result ≡ record_at file.now }
{
    let AllTables {
        assemblies,
        files,
        types,
        fields,
        methods,
        properties,
        extras,
    } = tables;
    AsmRec {
        bits: file.image().cli_flags(),
        subsystem: file.image().subsystem(),
        entry: file.image().entry_token(),
        descriptor: files.descriptor,
        module: assemblies.module,
        type_ref: types.type_ref,
        type_def: types.type_def,
        field: fields.field,
        method_def: methods.method_def,
        param: methods.param,
        interface_impl: types.interface_impl,
        member_ref: extras.member_ref,
        constant: extras.constant,
        custom_attribute: extras.custom_attribute,
        field_marshal: fields.field_marshal,
        decl_security: extras.decl_security,
        class_layout: fields.class_layout,
        field_layout: fields.field_layout,
        stand_alone_sig: methods.stand_alone_sig,
        event_map: properties.event_map,
        event: properties.event,
        property_map: properties.property_map,
        property: properties.property,
        method_semantics: properties.method_semantics,
        method_impl: methods.method_impl,
        module_ref: assemblies.module_ref,
        type_spec: types.type_spec,
        impl_map: extras.impl_map,
        field_rva: fields.field_rva,
        assembly: assemblies.assembly,
        assembly_processor: assemblies.assembly_processor,
        assembly_os: assemblies.assembly_os,
        assembly_ref: assemblies.assembly_ref,
        assembly_ref_processor: assemblies.assembly_ref_processor,
        assembly_ref_os: assemblies.assembly_ref_os,
        file: files.file,
        exported_type: files.exported_type,
        manifest_resource: files.manifest_resource,
        nested_class: types.nested_class,
        generic_param: types.generic_param,
        method_spec: methods.method_spec,
        generic_param_constraint: types.generic_param_constraint,
        user: methods.user,
    }
}

/// The record of a file (II.22 to II.25), or the refusal of the first demand that the file doesn't meet. A signature, a body
/// or the bytes of a field without a reading stand as Bad in their places, and refuse nothing.
#[tactic(auto, using(il_base::proofs::lemmas::cli_format::Faults::refusals))]
pub fn read_record(alloc: Global, bytes: &[u8]) -> Result<AsmRec, TablesError>
    requires { length bytes.now < 2 ^ 32 }
    // The record, or the refusal of the first demand that fails.
    ensures exact { Read result (record_demands bytes.now) (record_at bytes.now) }
    // A record that is answered is one that the file has.
    ensures found { IfOk result (λ r. HasRecord bytes.now r) }
    // A file that has a record is answered with it, unless memory runs out.
    ensures only { (r : AsmRec) → HasRecord bytes.now r → Read result [] r }
{
    let file = Assembly::open(alloc, bytes)?;
    let tables = all_tables(alloc, &file)?;
    Ok(assembled(&file, tables))
}

/// The place in the file of the row that a token names (II.22). None exactly where the file has no record, or its record has
/// no such row.
#[tactic(auto, unfolding(rules::specs::record_format::Record::place_of_row, il_base::specs::cli_format::Metadata::Refused))]
pub fn row_place(alloc: Global, bytes: &[u8], token: u32) -> Result<Option<u32>, NoMemory>
    requires { length bytes.now < 2 ^ 32 }
    ensures { IfOk result (λ at. at ≡ place_of_row bytes.now token) }
{
    match Assembly::open(alloc, bytes) {
        Ok(file) => Ok(file.row_place(token)),
        Err(TablesError::Bad(_)) => Ok(None),
        Err(TablesError::Rows { found: _ }) => Ok(None),
        Err(TablesError::NoMemory) => Err(NoMemory),
    }
}
