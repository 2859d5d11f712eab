//! What is wrong with fields, properties and events: those of `<Module>`, and bytes of fields without a reading (II.22.18).

ghost use Rattle.std.specs.Prelude.{◌≡◌, ◌++◌, [], slice_get, OnOk};
ghost use Rattle.std.specs.List.{flat_map};
ghost use Rattle.std.specs.Option.{option_map_or};
ghost use Rattle.type_tables.specs.Groups.{AreGroups};
ghost use Rattle.rules.specs.mark_rules.BadItems.{is_module_of, field_flaws, property_flaws, event_flaws};
ghost use Rattle.mark_parts.specs.mark_tables.Assemblies.{all_of, place_of, rec_of, IsAssembly};
ghost use Rattle.bad_items.specs.mark_flaws.Rows.{data_at, data_flaws, rva_fields};

use crate::mark_flaws::flaws::Flaws;
use crate::mark_flaws::globals::is_module_at;
use il_base::world_model::{AsmRec, FieldRvaRow, Known, token_of};
use il_base::{NoMemory, outside, table};
use mark_parts::mark_rows::rows::{event_owner, property_owner};
use mark_parts::mark_tables::assembly::Assembly;
use mark_parts::mark_tables::marker::Marker;
use rules::link_rules::RowAt;
use type_tables::groups::Groups;

/// Whether a type of an assembly, by its row from 0, is `<Module>`.
fn is_module_of(all: &[AsmRec], asm: u32, owner: Option<u32>) -> bool
    ensures { result ≡ is_module_of all.now asm owner }
{
    match owner {
        Some(row) => is_module_at(all, RowAt { asm, row }),
        None => false,
    }
}

/// Puts the flaw of a field's bytes at the end, if they have no reading.
#[tactic(auto, using(crate::proofs::lemmas::mark_flaws::Lists::none_more))]
fn add_bytes(at: RowAt, k: u32, row: &FieldRvaRow, flaws: &mut Flaws) -> Result<(), NoMemory>
    ensures { OnOk result (flaws.new ≡ flaws.old ++ data_at at k row.now) }
{
    match &row.bytes {
        Known::Good(_) => Ok(()),
        Known::Bad(why) => {
            let token = token_of(table::FIELD_RVA, k as usize)?;
            flaws.put(at, token, 0, *why)
        }
    }
}

/// Puts the flaw of a row of FieldRVA, by its number from 0, at the end.
fn add_data(at: RowAt, rec: &AsmRec, k: u32, flaws: &mut Flaws) -> Result<(), NoMemory>
    ensures { OnOk result (flaws.new ≡ flaws.old ++ option_map_or (data_at at k) (slice_get rec.now.field_rva k) []) }
{
    match rec.field_rva.get(k as usize) {
        Some(row) => add_bytes(at, k, row, flaws),
        None => Ok(()),
    }
}

/// Puts the flaws of these rows of FieldRVA at the end.
fn add_all_data(at: RowAt, rec: &AsmRec, ks: &[u32], flaws: &mut Flaws) -> Result<(), NoMemory>
    ensures { OnOk result (flaws.new ≡ flaws.old ++ flat_map (λ k. option_map_or (data_at at k) (slice_get rec.now.field_rva k) []) ks.now) }
{
    for k in ks {
        add_data(at, rec, *k, flaws)?;
    }
    Ok(())
}

/// Puts the flaws of a field's bytes at the end.
fn add_field_data(
    at: RowAt,
    rec: &AsmRec,
    rvas: &Groups,
    token: u32,
    flaws: &mut Flaws,
) -> Result<(), NoMemory>
    requires { AreGroups (rva_fields rec.now) rvas.now }
    ensures { OnOk result (flaws.new ≡ flaws.old ++ data_flaws at rec.now token) }
{
    let ks = rvas.rows_with(token);
    add_all_data(at, rec, ks, flaws)?;
    Ok(())
}

/// Puts what is wrong with a field at the end.
#[tactic(auto, using(crate::proofs::lemmas::mark_flaws::Lists::two_put))]
pub(crate) fn add_field(
    marker: &Marker<'_>,
    asm: &Assembly<'_>,
    rvas: &Groups,
    at: RowAt,
    flaws: &mut Flaws,
) -> Result<(), NoMemory>
    requires asm { IsAssembly asm.now }
    requires place { place_of asm.now ≡ at.asm }
    requires rvas { AreGroups (rva_fields (rec_of asm.now)) rvas.now }
    ensures { OnOk result (flaws.new ≡ flaws.old ++ field_flaws (all_of marker.now) at (rec_of asm.now)) }
{
    let owner = asm.owner_of_field(at.row)?;
    let global = is_module_of(marker.tables.world.recs.as_slice(), at.asm, owner);
    let token = token_of(table::FIELD, at.row as usize)?;
    flaws.put_if(global, at, token, outside::GLOBAL_MEMBER)?;
    add_field_data(at, asm.scope.rec, rvas, token, flaws)
}

/// Puts what is wrong with a property at the end.
pub(crate) fn add_property(
    marker: &Marker<'_>,
    asm: &Assembly<'_>,
    at: RowAt,
    flaws: &mut Flaws,
) -> Result<(), NoMemory>
    ensures { OnOk result (flaws.new ≡ flaws.old ++ property_flaws (all_of marker.now) at (rec_of asm.now)) }
{
    let owner = property_owner(asm.scope.rec, at.row);
    let global = is_module_of(marker.tables.world.recs.as_slice(), at.asm, owner);
    let token = token_of(table::PROPERTY, at.row as usize)?;
    flaws.put_if(global, at, token, outside::GLOBAL_MEMBER)
}

/// Puts what is wrong with an event at the end.
pub(crate) fn add_event(
    marker: &Marker<'_>,
    asm: &Assembly<'_>,
    at: RowAt,
    flaws: &mut Flaws,
) -> Result<(), NoMemory>
    ensures { OnOk result (flaws.new ≡ flaws.old ++ event_flaws (all_of marker.now) at (rec_of asm.now)) }
{
    let owner = event_owner(asm.scope.rec, at.row);
    let global = is_module_of(marker.tables.world.recs.as_slice(), at.asm, owner);
    let token = token_of(table::EVENT, at.row as usize)?;
    flaws.put_if(global, at, token, outside::GLOBAL_MEMBER)
}
