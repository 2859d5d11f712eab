//! The tables of a record as cells (II.22).

ghost use Rattle.std.specs.Prelude.{◌≡◌, ℕ, List, [], ◌∷◌, ◌++◌, length, map, All, IfOk, OnOk};
ghost use Rattle.il_base.specs.cli_format.Columns.{columns_of};
ghost use Rattle.rules.specs.record_layout.Rows as layout;
ghost use Rattle.rules.specs.record_layout.Values.{row_cells, tables_cells};
ghost use Rattle.rules.specs.record_layout.Tables.{with_rvas, method_rvas, field_rvas, cells_of};
ghost use Rattle.record_writer.specs.row_writer.CanWrite.{CanWriteRows};

use crate::row_writer::placed::{Placed, placed_table};
use crate::row_writer::row::{Row, table};
use il_base::world_model::AsmRec;
use il_base::{NoMemory, Seq};
use rules::file_layout::Cell;
use std::alloc::Global;

/// Puts a table after the others.
fn put<R: Row>(alloc: Global, tables: &mut Seq<Seq<Seq<Cell>>>, rows: &[R]) -> Result<(), NoMemory>
    requires { All R.CanWrite rows.now }
    ensures { OnOk result (tables.new ≡ tables.old ++ map (row_cells (columns_of R.TABLE)) (map R.values_of rows.now) ∷ []) }
{
    tables.push(table(alloc, rows)?)
}

/// Puts a table whose rows have addresses after the others.
fn put_placed<R: Placed>(
    alloc: Global,
    tables: &mut Seq<Seq<Seq<Cell>>>,
    rvas: &[u32],
    rows: &[R],
) -> Result<(), NoMemory>
    requires { All R.CanWrite rows.now }
    ensures { OnOk result (tables.new ≡ tables.old ++ map (row_cells (columns_of R.TABLE)) (with_rvas R.values_of rvas.now rows.now) ∷ []) }
{
    tables.push(placed_table(alloc, rvas, rows)?)
}

/// Puts a table without rows after the others.
fn put_none(alloc: Global, tables: &mut Seq<Seq<Seq<Cell>>>) -> Result<(), NoMemory>
    ensures { OnOk result (tables.new ≡ tables.old ++ [] ∷ []) }
{
    tables.push(Seq::new(alloc))
}

/// The tables 00 to 05: Module to Field.
#[tactic(auto, unfolding(rules::specs::record_layout::Values::tables_cells))]
fn put_types(alloc: Global, tables: &mut Seq<Seq<Seq<Cell>>>, rec: &AsmRec) -> Result<(), NoMemory>
    requires { CanWriteRows rec.now }
    ensures { OnOk result (tables.new ≡ tables.old ++ tables_cells 0x00 (map layout.module_values rec.now.«module» ∷ map layout.type_ref_values rec.now.type_ref ∷ map layout.type_def_values rec.now.type_def ∷ [] ∷ map layout.field_values rec.now.field ∷ [] ∷ [])) }
{
    put(alloc, tables, rec.module.as_slice())?;
    put(alloc, tables, rec.type_ref.as_slice())?;
    put(alloc, tables, rec.type_def.as_slice())?;
    put_none(alloc, tables)?;
    put(alloc, tables, rec.field.as_slice())?;
    put_none(alloc, tables)
}

/// The tables 06 to 0b: MethodDef to Constant.
#[tactic(auto, unfolding(rules::specs::record_layout::Values::tables_cells))]
fn put_methods(
    alloc: Global,
    tables: &mut Seq<Seq<Seq<Cell>>>,
    rec: &AsmRec,
    rvas: &[u32],
) -> Result<(), NoMemory>
    requires { CanWriteRows rec.now }
    ensures { OnOk result (tables.new ≡ tables.old ++ tables_cells 0x06 (with_rvas layout.method_def_values rvas.now rec.now.method_def ∷ [] ∷ map layout.param_values rec.now.param ∷ map layout.interface_impl_values rec.now.interface_impl ∷ map layout.member_ref_values rec.now.member_ref ∷ map layout.constant_values rec.now.constant ∷ [])) }
{
    put_placed(alloc, tables, rvas, rec.method_def.as_slice())?;
    put_none(alloc, tables)?;
    put(alloc, tables, rec.param.as_slice())?;
    put(alloc, tables, rec.interface_impl.as_slice())?;
    put(alloc, tables, rec.member_ref.as_slice())?;
    put(alloc, tables, rec.constant.as_slice())
}

/// The tables 0c to 11: CustomAttribute to StandAloneSig.
#[tactic(auto, unfolding(rules::specs::record_layout::Values::tables_cells))]
fn put_attributes(
    alloc: Global,
    tables: &mut Seq<Seq<Seq<Cell>>>,
    rec: &AsmRec,
) -> Result<(), NoMemory>
    requires { CanWriteRows rec.now }
    ensures { OnOk result (tables.new ≡ tables.old ++ tables_cells 0x0c (map layout.custom_attribute_values rec.now.custom_attribute ∷ map layout.field_marshal_values rec.now.field_marshal ∷ map layout.decl_security_values rec.now.decl_security ∷ map layout.class_layout_values rec.now.class_layout ∷ map layout.field_layout_values rec.now.field_layout ∷ map layout.stand_alone_sig_values rec.now.stand_alone_sig ∷ [])) }
{
    put(alloc, tables, rec.custom_attribute.as_slice())?;
    put(alloc, tables, rec.field_marshal.as_slice())?;
    put(alloc, tables, rec.decl_security.as_slice())?;
    put(alloc, tables, rec.class_layout.as_slice())?;
    put(alloc, tables, rec.field_layout.as_slice())?;
    put(alloc, tables, rec.stand_alone_sig.as_slice())
}

/// The tables 12 to 17: EventMap to Property.
#[tactic(auto, unfolding(rules::specs::record_layout::Values::tables_cells))]
fn put_properties(
    alloc: Global,
    tables: &mut Seq<Seq<Seq<Cell>>>,
    rec: &AsmRec,
) -> Result<(), NoMemory>
    requires { CanWriteRows rec.now }
    ensures { OnOk result (tables.new ≡ tables.old ++ tables_cells 0x12 (map layout.event_map_values rec.now.event_map ∷ [] ∷ map layout.event_values rec.now.event ∷ map layout.property_map_values rec.now.property_map ∷ [] ∷ map layout.property_values rec.now.property ∷ [])) }
{
    put(alloc, tables, rec.event_map.as_slice())?;
    put_none(alloc, tables)?;
    put(alloc, tables, rec.event.as_slice())?;
    put(alloc, tables, rec.property_map.as_slice())?;
    put_none(alloc, tables)?;
    put(alloc, tables, rec.property.as_slice())
}

/// The tables 18 to 1d: MethodSemantics to FieldRVA.
#[tactic(auto, unfolding(rules::specs::record_layout::Values::tables_cells))]
fn put_links(
    alloc: Global,
    tables: &mut Seq<Seq<Seq<Cell>>>,
    rec: &AsmRec,
    rvas: &[u32],
) -> Result<(), NoMemory>
    requires { CanWriteRows rec.now }
    ensures { OnOk result (tables.new ≡ tables.old ++ tables_cells 0x18 (map layout.method_semantics_values rec.now.method_semantics ∷ map layout.method_impl_values rec.now.method_impl ∷ map layout.module_ref_values rec.now.module_ref ∷ map layout.type_spec_values rec.now.type_spec ∷ map layout.impl_map_values rec.now.impl_map ∷ with_rvas layout.field_rva_values rvas.now rec.now.field_rva ∷ [])) }
{
    put(alloc, tables, rec.method_semantics.as_slice())?;
    put(alloc, tables, rec.method_impl.as_slice())?;
    put(alloc, tables, rec.module_ref.as_slice())?;
    put(alloc, tables, rec.type_spec.as_slice())?;
    put(alloc, tables, rec.impl_map.as_slice())?;
    put_placed(alloc, tables, rvas, rec.field_rva.as_slice())
}

/// The tables 1e to 23: Assembly to AssemblyRef.
#[tactic(auto, unfolding(rules::specs::record_layout::Values::tables_cells))]
fn put_assemblies(
    alloc: Global,
    tables: &mut Seq<Seq<Seq<Cell>>>,
    rec: &AsmRec,
) -> Result<(), NoMemory>
    ensures { OnOk result (tables.new ≡ tables.old ++ tables_cells 0x1e ([] ∷ [] ∷ map layout.assembly_values rec.now.assembly ∷ map layout.assembly_processor_values rec.now.assembly_processor ∷ map layout.assembly_os_values rec.now.assembly_os ∷ map layout.assembly_ref_values rec.now.assembly_ref ∷ [])) }
{
    put_none(alloc, tables)?;
    put_none(alloc, tables)?;
    put(alloc, tables, rec.assembly.as_slice())?;
    put(alloc, tables, rec.assembly_processor.as_slice())?;
    put(alloc, tables, rec.assembly_os.as_slice())?;
    put(alloc, tables, rec.assembly_ref.as_slice())
}

/// The tables 24 to 29: AssemblyRefProcessor to NestedClass.
#[tactic(auto, unfolding(rules::specs::record_layout::Values::tables_cells))]
fn put_files(alloc: Global, tables: &mut Seq<Seq<Seq<Cell>>>, rec: &AsmRec) -> Result<(), NoMemory>
    ensures { OnOk result (tables.new ≡ tables.old ++ tables_cells 0x24 (map layout.assembly_ref_processor_values rec.now.assembly_ref_processor ∷ map layout.assembly_ref_os_values rec.now.assembly_ref_os ∷ map layout.file_values rec.now.file ∷ map layout.exported_type_values rec.now.exported_type ∷ map layout.manifest_resource_values rec.now.manifest_resource ∷ map layout.nested_class_values rec.now.nested_class ∷ [])) }
{
    put(alloc, tables, rec.assembly_ref_processor.as_slice())?;
    put(alloc, tables, rec.assembly_ref_os.as_slice())?;
    put(alloc, tables, rec.file.as_slice())?;
    put(alloc, tables, rec.exported_type.as_slice())?;
    put(alloc, tables, rec.manifest_resource.as_slice())?;
    put(alloc, tables, rec.nested_class.as_slice())
}

/// The tables 2a to 2c: GenericParam to GenericParamConstraint.
#[tactic(auto, unfolding(rules::specs::record_layout::Values::tables_cells))]
fn put_generics(
    alloc: Global,
    tables: &mut Seq<Seq<Seq<Cell>>>,
    rec: &AsmRec,
) -> Result<(), NoMemory>
    requires { CanWriteRows rec.now }
    ensures { OnOk result (tables.new ≡ tables.old ++ tables_cells 0x2a (map layout.generic_param_values rec.now.generic_param ∷ map layout.method_spec_values rec.now.method_spec ∷ map layout.generic_param_constraint_values rec.now.generic_param_constraint ∷ [])) }
{
    put(alloc, tables, rec.generic_param.as_slice())?;
    put(alloc, tables, rec.method_spec.as_slice())?;
    put(alloc, tables, rec.generic_param_constraint.as_slice())
}

/// The tables of a record, 00 to 2c, with the addresses of bodies and of the bytes of fields.
#[tactic(auto, unfolding(rules::specs::record_layout::Values::tables_cells, rules::specs::record_layout::Tables::cells_of, rules::specs::record_layout::Tables::values_of))]
pub fn tables_of(
    alloc: Global,
    rec: &AsmRec,
    bodies: &[u32],
    field_bytes: &[u32],
) -> Result<Seq<Seq<Seq<Cell>>>, NoMemory>
    requires can { CanWriteRows rec.now }
    requires bodies { bodies.now ≡ method_rvas rec.now }
    requires field_bytes { field_bytes.now ≡ field_rvas rec.now }
    ensures value { IfOk result (λ tables. tables ≡ cells_of rec.now) }
    ensures count { IfOk result (λ tables. length tables ≡ 45) }
{
    let mut tables = Seq::new(alloc);
    put_types(alloc, &mut tables, rec)?;
    put_methods(alloc, &mut tables, rec, bodies)?;
    put_attributes(alloc, &mut tables, rec)?;
    put_properties(alloc, &mut tables, rec)?;
    put_links(alloc, &mut tables, rec, field_bytes)?;
    put_assemblies(alloc, &mut tables, rec)?;
    put_files(alloc, &mut tables, rec)?;
    put_generics(alloc, &mut tables, rec)?;
    Ok(tables)
}
