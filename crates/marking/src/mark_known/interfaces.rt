//! The interface rows of a marked type for interfaces that are known (II.22.23).

ghost use Rattle.std.specs.Prelude.{◌≡◌, ◌++◌, [], slice_get, IfOk, OnOk};
ghost use Rattle.std.specs.List.{flat_map, list_any};
ghost use Rattle.std.specs.Option.{option_map_or};
ghost use Rattle.rules.specs.link_rules.Cycles.{listed, home_of};
ghost use Rattle.rules.specs.mark_rules.Types.{implies};
ghost use Rattle.base_laws.specs.known_laws.Known.{is_known_type, implies_known, named_known, with_interfaces};
ghost use Rattle.mark_parts.specs.mark_tables.Assemblies.{recs_of, place_of, rec_of, IsAssembly};
ghost use Rattle.marking.specs.mark_known.Facts.{recs_in, knows, IsKnown, named_row};

use crate::mark_known::known::{Known, is_known_row};
use il_base::world_model::{TypeExpr, token_of};
use il_base::{NoMemory, table};
use mark_items::mark_calls::implied::implies;
use mark_parts::mark_facts::facts::Facts;
use mark_parts::mark_facts::kinds::Kind;
use mark_parts::mark_facts::naming::mark_expr;
use mark_parts::mark_tables::assembly::Assembly;
use rules::link_rules::RowAt;
use std::alloc::Global;
use type_tables::member_search::bases::{definition, is_interface};

/// Whether one of these types is known.
fn any_known(k: &Known<'_>, types: &[RowAt]) -> Result<bool, NoMemory>
    requires { IsKnown k.now }
    ensures { IfOk result (λ is. is ≡ list_any (is_known_type (recs_in k.now) (knows k.now)) types.now) }
{
    for at in types {
        let is = is_known_row(k, Kind::Type, *at)?;
        if is {
            return Ok(true);
        }
    }
    Ok(false)
}

/// Whether the definition of a type is or implies a known interface.
fn leads_to_known(alloc: Global, k: &Known<'_>, ty: &TypeExpr) -> Result<bool, NoMemory>
    requires { IsKnown k.now }
    ensures { IfOk result (λ is. is ≡ list_any (λ at. list_any (is_known_type (recs_in k.now) (knows k.now)) (implies (recs_in k.now) at)) (listed (home_of (recs_in k.now) ty.now))) }
{
    let marker = k.marker;
    match definition(marker.tables.world.recs.as_slice(), ty) {
        Ok(Some(at)) => {
            let found = implies(alloc, k.marker, at)?;
            let is = any_known(k, found.as_slice())?;
            Ok(is)
        }
        Ok(None) => Ok(false),
        Err(error) => Err(error),
    }
}

/// Whether a type is an interface that is or implies a known one.
fn implies_known(alloc: Global, k: &Known<'_>, ty: &TypeExpr) -> Result<bool, NoMemory>
    requires { IsKnown k.now }
    ensures { IfOk result (λ is. is ≡ implies_known (recs_in k.now) (knows k.now) ty.now) }
{
    let marker = k.marker;
    let is = is_interface(marker.tables.world.recs.as_slice(), ty)?;
    if !is {
        return Ok(false);
    }
    leads_to_known(alloc, k, ty)
}

/// Marks an interface row with the interface that it names, where that is or implies a known one.
#[tactic(auto, using(crate::proofs::lemmas::mark_known::Lists::first_then))]
fn mark_row(
    alloc: Global,
    k: &Known<'_>,
    at: RowAt,
    ty: &TypeExpr,
    facts: &mut Facts,
) -> Result<(), NoMemory>
    requires { IsKnown k.now }
    ensures { OnOk result (facts.new ≡ facts.old ++ named_known (recs_in k.now) (knows k.now) at ty.now) }
{
    let marker = k.marker;
    let is = implies_known(alloc, k, ty)?;
    if !is {
        return Ok(());
    }
    facts.mark_row(marker.tables.world.recs.as_slice(), Kind::Interface, at)?;
    mark_expr(facts, ty)
}

/// Marks an interface row of an assembly, by its number from 0, where its interface is or implies a known one.
fn mark_if(
    alloc: Global,
    k: &Known<'_>,
    asm: &Assembly<'_>,
    n: u32,
    facts: &mut Facts,
) -> Result<(), NoMemory>
    requires known { IsKnown k.now }
    requires asm { IsAssembly asm.now }
    requires recs { recs_of asm.now ≡ recs_in k.now }
    ensures { OnOk result (facts.new ≡ facts.old ++ option_map_or (named_row (recs_in k.now) (knows k.now) (place_of asm.now) (rec_of asm.now) n) (slice_get (rec_of asm.now).interface_impl n) []) }
{
    let Some(row) = asm.scope.rec.interface_impl.get(n as usize) else {
        return Ok(());
    };
    let at = RowAt {
        asm: asm.scope.asm,
        row: n,
    };
    match asm.scope.token_type(row.interface) {
        Ok(ty) => mark_row(alloc, k, at, ty, facts),
        Err(_) => Ok(()),
    }
}

/// Marks those of these interface rows of an assembly whose interface is or implies a known one.
fn mark_rows(
    alloc: Global,
    k: &Known<'_>,
    asm: &Assembly<'_>,
    ns: &[u32],
    facts: &mut Facts,
) -> Result<(), NoMemory>
    requires known { IsKnown k.now }
    requires asm { IsAssembly asm.now }
    requires recs { recs_of asm.now ≡ recs_in k.now }
    ensures { OnOk result (facts.new ≡ facts.old ++ flat_map (λ n. option_map_or (named_row (recs_in k.now) (knows k.now) (place_of asm.now) (rec_of asm.now) n) (slice_get (rec_of asm.now).interface_impl n) []) ns.now) }
{
    for n in ns {
        mark_if(alloc, k, asm, *n, facts)?;
    }
    Ok(())
}

/// Adds the interface rows of a type for known interfaces, with the interfaces that they name.
pub(crate) fn add_with_interfaces(
    alloc: Global,
    k: &Known<'_>,
    t: RowAt,
    facts: &mut Facts,
) -> Result<(), NoMemory>
    requires { IsKnown k.now }
    ensures { OnOk result (facts.new ≡ facts.old ++ with_interfaces (recs_in k.now) (knows k.now) t) }
{
    let Some(asm) = k.marker.assembly_at(t.asm) else {
        return Ok(());
    };
    let token = token_of(table::TYPE_DEF, t.row as usize)?;
    let ns = asm.of_types.interfaces.rows_with(token);
    mark_rows(alloc, k, &asm, ns, facts)?;
    Ok(())
}
