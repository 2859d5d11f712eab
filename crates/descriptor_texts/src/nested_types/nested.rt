ghost use Rattle.std.specs.Prelude.{◌≡◌, ◌++◌, Some, length, slice_get, map, IfOk, OnOk};
ghost use Rattle.std.specs.List.{flat_map, range_with_len};
ghost use Rattle.il_base.specs.declared.world_model.record.AsmRec.{AsmRec};
ghost use Rattle.rules.specs.link_rules.Types.{encloser, same_place};
ghost use Rattle.rules.specs.mark_rules.Members.{nested_in};
ghost use Rattle.mark_parts.specs.mark_tables.Assemblies.{rec_of, all_of, IsAssembly, IsMarker};
ghost use Rattle.descriptor_texts.specs.nested_types.Nested.{key_of, nested_at, AreNestedIn, AreNested};

use il_base::NoMemory;
use mark_parts::mark_tables::assembly::Assembly;
use mark_parts::mark_tables::marker::Marker;
use rules::link_rules::RowAt;
use std::alloc::Global;
use type_tables::groups::Groups;
use type_tables::member_search::counted::row_of;

/// Of each assembly of a world its types by their enclosers.
#[derive(Drop)]
pub struct NestedTypes {
    groups: Vec<Groups>,
}

/// By what a type is grouped: the row, from 0, of its encloser, or for one that isn't nested a number that no row has.
fn key_of(asm: &Assembly<'_>, row: u32) -> Result<u32, NoMemory>
    requires { IsAssembly asm.now }
    ensures { IfOk result (λ key. key ≡ key_of (rec_of asm.now) row) }
{
    match asm.encloser(row) {
        Ok(Some(around)) => Ok(around),
        Ok(None) => Ok(u32::MAX),
        Err(error) => Err(error),
    }
}

/// By what each type of an assembly is grouped.
fn keys_of(alloc: Global, asm: &Assembly<'_>) -> Result<Vec<u32>, NoMemory>
    requires { IsAssembly asm.now }
    ensures { IfOk result (λ keys. keys.items ≡ map (key_of (rec_of asm.now)) (range_with_len 0 (length (rec_of asm.now).type_def))) }
{
    let count = row_of(asm.scope.rec.type_def.len())?;
    let mut keys = Vec::new(alloc);
    for row in 0..count {
        let key = key_of(asm, row)?;
        keys.push(key)?;
    }
    Ok(keys)
}

/// The types of an assembly by their enclosers.
fn groups_in(alloc: Global, asm: &Assembly<'_>) -> Result<Groups, NoMemory>
    requires { IsAssembly asm.now }
    ensures { IfOk result (AreNestedIn (rec_of asm.now)) }
{
    let keys = keys_of(alloc, asm)?;
    Groups::of(alloc, keys.as_slice())
}

/// The types of an assembly, by its place from 0, by their enclosers.
#[tactic(auto, using(crate::proofs::lemmas::nested_types::Nesting::no_assembly, crate::proofs::lemmas::nested_types::Nesting::assembly_there))]
fn groups_at(alloc: Global, marker: &Marker<'_>, asm: u32) -> Result<Groups, NoMemory>
    requires { IsMarker marker.now }
    ensures { IfOk result (λ groups. (rec : AsmRec) → slice_get (all_of marker.now) asm ≡ Some rec → AreNestedIn rec groups) }
{
    let Some(here) = marker.assembly_at(asm) else {
        let groups = Groups::of(alloc, &[])?;
        return Ok(groups);
    };
    let groups = groups_in(alloc, &here)?;
    Ok(groups)
}

/// Puts a type, by its row from 0, at the end, where it is nested in another.
fn add_nested(asm: &Assembly<'_>, at: RowAt, k: u32, rows: &mut Vec<RowAt>) -> Result<(), NoMemory>
    requires { IsAssembly asm.now }
    ensures { OnOk result (rows.new.items ≡ rows.old.items ++ nested_at (rec_of asm.now) at k) }
{
    match asm.encloser(k) {
        Ok(Some(around)) => {
            if around == at.row {
                rows.push(RowAt {
                    asm: at.asm,
                    row: k,
                })?;
            }
            Ok(())
        }
        Ok(None) => Ok(()),
        Err(error) => Err(error),
    }
}

/// Those of these types, by their rows from 0, that are nested in another.
fn nested_among(
    alloc: Global,
    asm: &Assembly<'_>,
    at: RowAt,
    types: &[u32],
) -> Result<Vec<RowAt>, NoMemory>
    requires { IsAssembly asm.now }
    ensures { IfOk result (λ rows. rows.items ≡ flat_map (nested_at (rec_of asm.now) at) types.now) }
{
    let mut rows = Vec::new(alloc);
    for k in types {
        add_nested(asm, at, *k, &mut rows)?;
    }
    Ok(rows)
}

impl NestedTypes {
    /// The types of a world by their enclosers.
    pub fn of(alloc: Global, marker: &Marker<'_>) -> Result<NestedTypes, NoMemory>
        requires { IsMarker marker.now }
        ensures { IfOk result (AreNested (all_of marker.now)) }
    {
        let count = row_of(marker.tables.world.recs.len())?;
        let mut groups = Vec::new(alloc);
        for asm in 0..count {
            let own = groups_at(alloc, marker, asm)?;
            groups.push(own)?;
        }
        Ok(NestedTypes { groups })
    }

    /// The types that are nested in a type itself, in the order of their rows.
    pub fn nested_in(
        &self,
        alloc: Global,
        marker: &Marker<'_>,
        at: RowAt,
    ) -> Result<Vec<RowAt>, NoMemory>
        requires marker { IsMarker marker.now }
        requires nested { AreNested (all_of marker.now) self.now }
        ensures { IfOk result (λ rows. rows.items ≡ nested_in (all_of marker.now) at) }
    {
        let made = self.groups.as_slice();
        let Some(here) = marker.assembly_at(at.asm) else {
            return Ok(Vec::new(alloc));
        };
        let asm = at.asm;
        let groups = &made[asm as usize];
        let types = groups.rows_with(at.row);
        let rows = nested_among(alloc, &here, at, types)?;
        Ok(rows)
    }
}
