//! The types reachable from a type, in rounds. A round goes only from the types that the last one found.

ghost use Rattle.std.specs.Prelude.{◌≡◌, ◌≤◌, ◌++◌, ◌∷◌, [], drop, length, IfOk, OnOk};
ghost use Rattle.std.specs.List.{flat_map, list_any};
ghost use Rattle.il_base.specs.world_model.Exprs.{same_expr};
ghost use Rattle.rules.specs.link_rules.Members.{type_count};
ghost use Rattle.rules.specs.link_rules.Cycles.{add_new, add_all, led_to};
ghost use Rattle.rules.specs.type_rules.Subtypes.{above};
ghost use Rattle.rules.specs.type_rules.Dispatch.{implied};
ghost use Rattle.type_tables.specs.Tables.{IsTables};
ghost use Rattle.type_tables.specs.subtypes.Steps.{next_by};

use crate::member_search::counted::{Counted, rows_before, sum};
use crate::subtypes::interfaces::add_interfaces_of;
use crate::subtypes::upwards::add_up;
use crate::tables::Tables;
use il_base::NoMemory;
use il_base::world_model::{AsmRec, TypeExpr};
use std::alloc::Global;

/// The kinds of steps from a type to others.
#[derive(Clone, Copy)]
enum Step {
    /// To its base and its interfaces.
    Up,
    /// To its interfaces alone.
    Interfaces,
}

/// Adds the types one step from a type.
fn add_next(
    alloc: Global,
    tables: &Tables<'_>,
    step: Step,
    ty: &TypeExpr,
    led: &mut Vec<TypeExpr>,
) -> Result<(), NoMemory>
    requires { IsTables tables.now }
    ensures { OnOk result (led.new.items ≡ led.old.items ++ next_by tables.now.world.now.recs step ty.now) }
{
    match step {
        Step::Up => add_up(alloc, tables, ty, led),
        Step::Interfaces => add_interfaces_of(alloc, tables, ty, led),
    }
}

/// The types one step from some types, those of each type in order.
fn led_by(
    alloc: Global,
    tables: &Tables<'_>,
    step: Step,
    types: &[TypeExpr],
) -> Result<Vec<TypeExpr>, NoMemory>
    requires { IsTables tables.now }
    ensures { IfOk result (λ led. led.items ≡ flat_map (next_by tables.now.world.now.recs step) types.now) }
{
    let mut led = Vec::new(alloc);
    for ty in types {
        add_next(alloc, tables, step, ty, &mut led)?;
    }
    Ok(led)
}

/// Whether a type is among some.
pub(crate) fn is_among(types: &[TypeExpr], ty: &TypeExpr) -> bool
    ensures { result ≡ list_any (same_expr ty.now) types.now }
{
    types.iter().any(|other| ty.is_same(other))
}

/// Puts a type at the end, where it isn't among them.
fn add_new(found: &mut Vec<TypeExpr>, ty: TypeExpr) -> Result<(), NoMemory>
    ensures { OnOk result (found.new.items ≡ add_new same_expr found.old.items ty) }
{
    if is_among(found.as_slice(), &ty) {
        return Ok(());
    }
    found.push(ty)?;
    Ok(())
}

/// Puts some types at the end, each where it isn't among them.
fn add_all(found: &mut Vec<TypeExpr>, types: Vec<TypeExpr>) -> Result<(), NoMemory>
    ensures { OnOk result (found.new.items ≡ add_all same_expr found.old.items types.items) }
{
    for ty in types {
        add_new(found, ty)?;
    }
    Ok(())
}

/// Adds the types one step from those at `start` and after it, where they aren't there yet.
fn add_round(
    alloc: Global,
    tables: &Tables<'_>,
    step: Step,
    found: &mut Vec<TypeExpr>,
    start: usize,
) -> Result<(), NoMemory>
    requires tables { IsTables tables.now }
    requires start { start ≤ length found.old.items }
    ensures { OnOk result (found.new.items ≡ add_all same_expr found.old.items (flat_map (next_by tables.now.world.now.recs step) (drop start found.old.items))) }
{
    let led = led_by(alloc, tables, step, &found[start..])?;
    add_all(found, led)?;
    Ok(())
}

/// All types reachable from a type in at most `steps` steps, itself first. The search ends as soon as a round finds nothing new.
fn led_to(
    alloc: Global,
    tables: &Tables<'_>,
    step: Step,
    rounds: u32,
    ty: &TypeExpr,
) -> Result<Vec<TypeExpr>, NoMemory>
    requires { IsTables tables.now }
    ensures { IfOk result (λ found. found.items ≡ led_to same_expr (next_by tables.now.world.now.recs step) rounds (ty.now ∷ [])) }
{
    let mut found = Vec::new(alloc);
    let first = ty.copy(alloc)?;
    found.push(first)?;
    let mut looked_at = 0;
    for round in 0..rounds {
        let before = found.len();
        add_round(alloc, tables, step, &mut found, looked_at)?;
        if found.len() == before {
            return Ok(found);
        }
        looked_at = before;
    }
    Ok(found)
}

#[tactic(auto, unfolding(rules::specs::link_rules::Members::type_count))]
fn type_count(all: &[AsmRec]) -> Result<u32, NoMemory>
    ensures { IfOk result (λ count. count ≡ type_count all.now) }
{
    rows_before(all, Counted::Types, all.len())
}

/// All types reachable by steps up from a type, itself first: its bases and all their interfaces.
#[tactic(auto, unfolding(rules::specs::type_rules::Subtypes::above))]
pub fn above(alloc: Global, tables: &Tables<'_>, ty: &TypeExpr) -> Result<Vec<TypeExpr>, NoMemory>
    requires { IsTables tables.now }
    ensures { IfOk result (λ found. found.items ≡ above tables.now.world.now.recs ty.now) }
{
    let count = type_count(tables.world.recs.as_slice())?;
    let rounds = sum(count, 1)?;
    led_to(alloc, tables, Step::Up, rounds, ty)
}

/// An interface and all interfaces reachable by its rows, itself first, nearer ones before farther ones.
#[tactic(auto, unfolding(rules::specs::type_rules::Dispatch::implied))]
pub fn implied(alloc: Global, tables: &Tables<'_>, ty: &TypeExpr) -> Result<Vec<TypeExpr>, NoMemory>
    requires { IsTables tables.now }
    ensures { IfOk result (λ found. found.items ≡ implied tables.now.world.now.recs ty.now) }
{
    let rounds = type_count(tables.world.recs.as_slice())?;
    led_to(alloc, tables, Step::Interfaces, rounds, ty)
}
