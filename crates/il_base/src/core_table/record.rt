ghost use Rattle.std.specs.Prelude.{◌≡◌, [], ◌∷◌, IfOk};
ghost use Rattle.il_base.specs.core_table.Record.{core_record, module_row, assembly_row, record_with};

use crate::core_table::rows::{all_fields, all_methods};
use crate::core_table::type_rows::type_rows;
use crate::core_table::types::TYPES;
use crate::world_model::{AsmRec, AssemblyRow, FieldRow, MethodDefRow, ModuleRow, TypeDefRow};
use crate::{NoMemory, Seq};
use std::alloc::Global;

/// The row of the one module (II.22.30). It has no GUID, since it is of no file.
#[tactic(auto, unfolding(crate::specs::core_table::Record::module_row))]
fn module_row(alloc: Global) -> Result<ModuleRow, NoMemory>
    ensures { IfOk result (λ row. row ≡ module_row) }
{
    let name = Seq::from_slice(alloc, b"System.Private.CoreLib.dll")?;
    Ok(ModuleRow {
        generation: 0,
        name,
        mvid: Seq::new(alloc),
        enc_id: Seq::new(alloc),
        enc_base_id: Seq::new(alloc),
    })
}

/// The row of the assembly (II.22.2): `System.Private.CoreLib`, version 0.0.0.0, without key and culture.
#[tactic(auto, unfolding(crate::specs::core_table::Record::assembly_row))]
fn assembly_row(alloc: Global) -> Result<AssemblyRow, NoMemory>
    ensures { IfOk result (λ row. row ≡ assembly_row) }
{
    let name = Seq::from_slice(alloc, b"System.Private.CoreLib")?;
    Ok(AssemblyRow {
        hash_alg_id: 0,
        major_version: 0,
        minor_version: 0,
        build_number: 0,
        revision_number: 0,
        flags: 0,
        public_key: Seq::new(alloc),
        name,
        culture: Seq::new(alloc),
    })
}

fn module_rows(alloc: Global) -> Result<Seq<ModuleRow>, NoMemory>
    ensures { IfOk result (λ rows. rows ≡ module_row ∷ []) }
{
    let row = module_row(alloc)?;
    Ok(Seq::from_vec(vec![in alloc; row]?))
}

fn assembly_rows(alloc: Global) -> Result<Seq<AssemblyRow>, NoMemory>
    ensures { IfOk result (λ rows. rows ≡ assembly_row ∷ []) }
{
    let row = assembly_row(alloc)?;
    Ok(Seq::from_vec(vec![in alloc; row]?))
}

/// The record of these rows, whose other tables have none.
#[tactic(auto, unfolding(crate::specs::core_table::Record::record_with))]
fn record_with(
    alloc: Global,
    modules: Seq<ModuleRow>,
    types: Seq<TypeDefRow>,
    fields: Seq<FieldRow>,
    methods: Seq<MethodDefRow>,
    assemblies: Seq<AssemblyRow>,
) -> AsmRec
    ensures { result ≡ record_with modules types fields methods assemblies }
{
    AsmRec {
        bits: 0,
        subsystem: 0,
        entry: 0,
        descriptor: None,
        module: modules,
        type_ref: Seq::new(alloc),
        type_def: types,
        field: fields,
        method_def: methods,
        param: Seq::new(alloc),
        interface_impl: Seq::new(alloc),
        member_ref: Seq::new(alloc),
        constant: Seq::new(alloc),
        custom_attribute: Seq::new(alloc),
        field_marshal: Seq::new(alloc),
        decl_security: Seq::new(alloc),
        class_layout: Seq::new(alloc),
        field_layout: Seq::new(alloc),
        stand_alone_sig: Seq::new(alloc),
        event_map: Seq::new(alloc),
        event: Seq::new(alloc),
        property_map: Seq::new(alloc),
        property: Seq::new(alloc),
        method_semantics: Seq::new(alloc),
        method_impl: Seq::new(alloc),
        module_ref: Seq::new(alloc),
        type_spec: Seq::new(alloc),
        impl_map: Seq::new(alloc),
        field_rva: Seq::new(alloc),
        assembly: assemblies,
        assembly_processor: Seq::new(alloc),
        assembly_os: Seq::new(alloc),
        assembly_ref: Seq::new(alloc),
        assembly_ref_processor: Seq::new(alloc),
        assembly_ref_os: Seq::new(alloc),
        file: Seq::new(alloc),
        exported_type: Seq::new(alloc),
        manifest_resource: Seq::new(alloc),
        nested_class: Seq::new(alloc),
        generic_param: Seq::new(alloc),
        method_spec: Seq::new(alloc),
        generic_param_constraint: Seq::new(alloc),
        user: Seq::new(alloc),
    }
}

/// The core library: the types and members that references to it can name, in the order of the core table.
pub fn core(alloc: Global) -> Result<AsmRec, NoMemory>
    ensures { IfOk result (λ rec. rec ≡ core_record) }
{
    let modules = module_rows(alloc)?;
    let types = type_rows(alloc, &TYPES)?;
    let fields = all_fields(alloc, &TYPES)?;
    let methods = all_methods(alloc, &TYPES)?;
    let assemblies = assembly_rows(alloc)?;
    Ok(record_with(alloc, modules, types, fields, methods, assemblies))
}
