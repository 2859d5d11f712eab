//! What the flaws of items are found by, made once of a world.

ghost use Rattle.std.specs.Prelude.{◌≡◌, ◌<◌, Some, length, slice_get, IfOk};
ghost use Rattle.type_tables.specs.Groups.{AreGroups};
ghost use Rattle.mark_parts.specs.mark_tables.Assemblies.{all_of, IsMarker};
ghost use Rattle.bad_items.specs.mark_flaws.Rows.{rva_fields};
ghost use Rattle.bad_items.specs.mark_flaws.Tables.{AreFlawRows, AreEach, AreFlawTables};

use crate::mark_flaws::globals::module_initializer;
use il_base::NoMemory;
use il_base::world_model::AsmRec;
use mark_parts::mark_tables::marker::Marker;
use std::alloc::Global;
use type_tables::groups::Groups;
use type_tables::member_search::counted::row_of;

/// What the flaws of an assembly's items are found by.
#[derive(Drop)]
pub struct FlawRows {
    /// Whether the assembly's `<Module>` has an initializer.
    pub initializer: bool,
    /// The rows of FieldRVA by their fields.
    pub rvas: Groups,
}

/// What the flaws of items are found by, for each assembly of a world, in order.
#[derive(Drop)]
pub struct FlawTables {
    pub rows: Vec<FlawRows>,
}

/// The Field of each row of FieldRVA (II.22.18).
fn rva_fields(alloc: Global, rec: &AsmRec) -> Result<Vec<u32>, NoMemory>
    ensures { IfOk result (λ keys. keys.items ≡ rva_fields rec.now) }
{
    let mut keys = Vec::new(alloc);
    for row in rec.field_rva.as_slice() {
        keys.push(row.field)?;
    }
    Ok(keys)
}

/// FieldRVA by Field.
fn by_field(alloc: Global, rec: &AsmRec) -> Result<Groups, NoMemory>
    ensures { IfOk result (AreGroups (rva_fields rec.now)) }
{
    let keys = rva_fields(alloc, rec)?;
    Groups::of(alloc, keys.as_slice())
}

/// What the flaws of the items of an assembly, which has this place, from 0, are found by.
fn rows_of(alloc: Global, marker: &Marker<'_>, asm: u32, rec: &AsmRec) -> Result<FlawRows, NoMemory>
    requires { IsMarker marker.now }
    ensures { IfOk result (AreFlawRows (all_of marker.now) asm rec.now) }
{
    let initializer = module_initializer(alloc, marker, asm)?;
    let rvas = by_field(alloc, rec)?;
    Ok(FlawRows { initializer, rvas })
}

/// What the flaws of each assembly's items are found by.
fn rows_of_each(
    alloc: Global,
    marker: &Marker<'_>,
    all: &[AsmRec],
) -> Result<Vec<FlawRows>, NoMemory>
    requires marker { IsMarker marker.now }
    requires all { all.now ≡ all_of marker.now }
    ensures count { IfOk result (λ rows. length rows.items ≡ length all.now) }
    ensures each { IfOk result (λ rows. AreEach all.now rows.items) }
{
    let mut rows = Vec::new(alloc);
    for (a, rec) in all.iter().enumerate() {
        let asm = row_of(a)?;
        let of_asm = rows_of(alloc, marker, asm, rec)?;
        rows.push(of_asm)?;
    }
    Ok(rows)
}

impl FlawTables {
    /// What is made once of a world.
    pub fn of(alloc: Global, marker: &Marker<'_>) -> Result<FlawTables, NoMemory>
        requires { IsMarker marker.now }
        ensures { IfOk result (AreFlawTables (all_of marker.now)) }
    {
        let rows = rows_of_each(alloc, marker, marker.tables.world.recs.as_slice())?;
        Ok(FlawTables { rows })
    }

    /// What the flaws of the items of an assembly, by its place from 0, are found by.
    pub fn rows_at(&self, asm: u32) -> &FlawRows
        requires { asm < length self.now.rows.items }
        ensures { slice_get self.now.rows.items asm ≡ Some result.now }
    {
        let rows = self.rows.as_slice();
        &rows[asm as usize]
    }
}
