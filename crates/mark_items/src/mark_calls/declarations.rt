//! The declarations of MethodImpl rows whose body is a method (II.22.27).

ghost use Rattle.std.specs.Prelude.{◌≡◌, [], ◌++◌, slice_get, Some, IfOk, OnOk};
ghost use Rattle.std.specs.List.{flat_map};
ghost use Rattle.std.specs.Option.{option_map_or};
ghost use Rattle.rules.specs.link_rules.Members.{generic_method};
ghost use Rattle.rules.specs.link_rules.Cycles.{listed};
ghost use Rattle.rules.specs.type_rules.Dispatch.{good_use, method_id};
ghost use Rattle.type_tables.specs.Groups.{AreGroups};
ghost use Rattle.rules.specs.mark_rules.Naming.{of_method_use};
ghost use Rattle.rules.specs.mark_rules.Calls.{has_body, declared_by, declared_in};
ghost use Rattle.mark_parts.specs.mark_tables.Assemblies.{all_of, IsMarker};
ghost use Rattle.mark_parts.specs.mark_tables.Impls.{body_numbers};
ghost use Rattle.mark_items.specs.mark_calls.Declared.{declared_facts, body_facts};

use il_base::world_model::{AsmRec, MethodImplRow, MethodUse};
use il_base::{MethodId, NoMemory};
use mark_parts::mark_facts::facts::Facts;
use mark_parts::mark_facts::naming::mark_method_use;
use mark_parts::mark_tables::marker::Marker;
use rules::link_rules::RowAt;
use type_tables::groups::Groups;
use type_tables::member_search::counted::row_of;
use type_tables::methods::{method_home, method_id, use_at};
use virtual_calls::impls::same_row;

/// Whether a method is the body that a row names.
fn has_body(all: &[AsmRec], at: RowAt, used: &MethodUse) -> Result<bool, NoMemory>
    ensures { IfOk result (λ is. is ≡ has_body all.now at used.now) }
{
    match method_home(all, used.method) {
        Ok(Some(home)) => Ok(same_row(at, home)),
        Ok(None) => Ok(false),
        Err(error) => Err(error),
    }
}

/// Marks the declaration of a row, with its owner and arguments.
fn add_declaration(
    marker: &Marker<'_>,
    asm: u32,
    rec: &AsmRec,
    row: &MethodImplRow,
    facts: &mut Facts,
) -> Result<(), NoMemory>
    requires marker { IsMarker marker.now }
    requires here { slice_get (all_of marker.now) asm ≡ Some rec.now }
    ensures { OnOk result (facts.new ≡ facts.old ++ flat_map of_method_use (listed (good_use (generic_method (all_of marker.now) asm rec.now row.now.declaration)))) }
{
    match use_at(&marker.tables, asm, row.declaration) {
        Some(used) => mark_method_use(facts, used),
        None => Ok(()),
    }
}

/// Marks the body and the declaration of a row whose body is the method.
#[tactic(auto, using(crate::proofs::lemmas::mark_calls::Lists::two_put))]
fn add_both(
    marker: &Marker<'_>,
    asm: u32,
    rec: &AsmRec,
    row: &MethodImplRow,
    body: &MethodUse,
    facts: &mut Facts,
) -> Result<(), NoMemory>
    requires marker { IsMarker marker.now }
    requires here { slice_get (all_of marker.now) asm ≡ Some rec.now }
    ensures { OnOk result (facts.new ≡ facts.old ++ body_facts (all_of marker.now) asm rec.now row.now body.now) }
{
    mark_method_use(facts, body)?;
    add_declaration(marker, asm, rec, row, facts)
}

/// Marks the body and the declaration of a row, where its body is the method.
#[tactic(auto, using(crate::proofs::lemmas::mark_calls::Lists::none_more))]
fn add_row(
    marker: &Marker<'_>,
    at: RowAt,
    asm: u32,
    rec: &AsmRec,
    row: &MethodImplRow,
    facts: &mut Facts,
) -> Result<(), NoMemory>
    requires marker { IsMarker marker.now }
    requires here { slice_get (all_of marker.now) asm ≡ Some rec.now }
    ensures { OnOk result (facts.new ≡ facts.old ++ declared_by (all_of marker.now) at asm rec.now row.now) }
{
    let Some(body) = use_at(&marker.tables, asm, row.body) else {
        return Ok(());
    };
    let is = has_body(marker.tables.world.recs.as_slice(), at, body)?;
    if is {
        return add_both(marker, asm, rec, row, body, facts);
    }
    Ok(())
}

/// Marks the body and the declaration of a row of an assembly, by its number from 0, where its body is the method.
fn add_numbered(
    marker: &Marker<'_>,
    at: RowAt,
    asm: u32,
    rec: &AsmRec,
    k: u32,
    facts: &mut Facts,
) -> Result<(), NoMemory>
    requires marker { IsMarker marker.now }
    requires here { slice_get (all_of marker.now) asm ≡ Some rec.now }
    ensures { OnOk result (facts.new ≡ facts.old ++ option_map_or (declared_by (all_of marker.now) at asm rec.now) (slice_get rec.now.method_impl k) []) }
{
    match rec.method_impl.get(k as usize) {
        Some(row) => add_row(marker, at, asm, rec, row, facts),
        None => Ok(()),
    }
}

/// Marks the bodies and declarations of those of these rows of an assembly whose body is the method.
fn add_among(
    marker: &Marker<'_>,
    at: RowAt,
    asm: u32,
    rec: &AsmRec,
    ks: &[u32],
    facts: &mut Facts,
) -> Result<(), NoMemory>
    requires marker { IsMarker marker.now }
    requires here { slice_get (all_of marker.now) asm ≡ Some rec.now }
    ensures { OnOk result (facts.new ≡ facts.old ++ flat_map (λ k. option_map_or (declared_by (all_of marker.now) at asm rec.now) (slice_get rec.now.method_impl k) []) ks.now) }
{
    for k in ks {
        add_numbered(marker, at, asm, rec, *k, facts)?;
    }
    Ok(())
}

/// Marks the bodies and declarations of the rows of an assembly whose body is the method; the rows are found by their bodies.
fn add_rows(
    marker: &Marker<'_>,
    at: RowAt,
    id: MethodId,
    asm: u32,
    rec: &AsmRec,
    rows: &Groups,
    facts: &mut Facts,
) -> Result<(), NoMemory>
    requires marker { IsMarker marker.now }
    requires here { slice_get (all_of marker.now) asm ≡ Some rec.now }
    requires id { id ≡ method_id (all_of marker.now) at }
    requires rows { AreGroups (body_numbers (all_of marker.now) asm rec.now) rows.now }
    ensures { OnOk result (facts.new ≡ facts.old ++ declared_in (all_of marker.now) at asm rec.now) }
{
    let ks = rows.rows_with(id.0);
    add_among(marker, at, asm, rec, ks, facts)?;
    Ok(())
}

/// Marks the bodies and declarations of the rows of all assemblies whose body is the method.
pub(crate) fn add_declared(
    marker: &Marker<'_>,
    at: RowAt,
    facts: &mut Facts,
) -> Result<(), NoMemory>
    requires { IsMarker marker.now }
    ensures { OnOk result (facts.new ≡ facts.old ++ declared_facts (all_of marker.now) at) }
{
    let all = marker.tables.world.recs.as_slice();
    let made = marker.impls.as_slice();
    let id = method_id(all, at)?;
    for (a, rec) in all.iter().enumerate() {
        let asm = row_of(a)?;
        add_rows(marker, at, id, asm, rec, &made[a], facts)?;
    }
    Ok(())
}
