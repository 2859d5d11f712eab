//! The output's record, made of its rows.

ghost use Rattle.std.specs.Prelude.{◌≡◌, IfOk};
ghost use Rattle.restrict.specs.Made.{made, AreFirstRows};

use crate::rows::OutputRows;
use il_base::world_model::{AsmRec, AssemblyRow, ModuleRow};
use il_base::{NoMemory, Seq};
use merge_plan::first_input_rows::assemblies::assembly_rows;
use merge_plan::first_input_rows::header::kept_bits;
use merge_plan::first_input_rows::modules::module_rows;
use std::alloc::Global;

/// The first assembly's own rows in the output: Module and Assembly.
#[derive(Drop)]
pub(crate) struct FirstRows {
    modules: Seq<ModuleRow>,
    assemblies: Seq<AssemblyRow>,
}

/// The first assembly's own rows, as the output has them.
pub(crate) fn first_rows(alloc: Global, first: &AsmRec) -> Result<FirstRows, NoMemory>
    ensures { IfOk result (AreFirstRows first.now) }
{
    let modules = module_rows(alloc, first.module.as_slice())?;
    let assemblies = assembly_rows(alloc, first.assembly.as_slice())?;
    Ok(FirstRows {
        modules,
        assemblies,
    })
}

/// The record of these rows. `first` is the first assembly.
pub(crate) fn made(alloc: Global, first: &AsmRec, own: FirstRows, rows: OutputRows) -> AsmRec
    ensures { result ≡ made first.now own rows }
{
    let tables = rows.tables;
    let items = tables.items;
    let placed = tables.placed;
    let owned = tables.owned;
    let belonging = tables.belonging;
    let maps = tables.maps;
    let references = rows.references;
    AsmRec {
        bits: kept_bits(first.bits),
        subsystem: first.subsystem,
        entry: rows.entry,
        descriptor: None,
        module: own.modules,
        type_ref: references.types,
        type_def: items.types,
        field: items.fields,
        method_def: placed.methods,
        param: items.params,
        interface_impl: owned.interfaces,
        member_ref: references.members,
        constant: belonging.constants,
        custom_attribute: rows.attributes,
        field_marshal: Seq::new(alloc),
        decl_security: Seq::new(alloc),
        class_layout: belonging.layouts,
        field_layout: Seq::new(alloc),
        stand_alone_sig: references.locals,
        event_map: maps.events,
        event: items.events,
        property_map: maps.properties,
        property: items.properties,
        method_semantics: belonging.semantics,
        method_impl: maps.impls,
        module_ref: Seq::new(alloc),
        type_spec: references.specs,
        impl_map: Seq::new(alloc),
        field_rva: placed.field_rvas,
        assembly: own.assemblies,
        assembly_processor: Seq::new(alloc),
        assembly_os: Seq::new(alloc),
        assembly_ref: references.assemblies,
        assembly_ref_processor: Seq::new(alloc),
        assembly_ref_os: Seq::new(alloc),
        file: Seq::new(alloc),
        exported_type: Seq::new(alloc),
        manifest_resource: Seq::new(alloc),
        nested_class: belonging.nested,
        generic_param: owned.generic_params,
        method_spec: references.instances,
        generic_param_constraint: owned.constraints,
        user: rows.user,
    }
}
