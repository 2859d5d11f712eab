//! Static fields of closed types.

ghost use Rattle.std.specs.Prelude.{◌≡◌, map, IfOk};
ghost use Rattle.std.specs.Option.{option_copied};
ghost use Rattle.rules.specs.step_rules.Places.{is_global, global_of, change_global, with_global};

use crate::cil_places::structs::discard;
use il_base::cil_values::{Global as StaticField, State, Value};
use il_base::world_model::TypeExpr;
use il_base::{NoMemory, Seq};
use std::alloc::Global;
use std::mem;

fn is_global(g: &StaticField, field: u32, owner: &TypeExpr) -> bool
    ensures { result ≡ is_global field owner.now g.now }
{
    g.field == field && g.owner.is_same(owner)
}

/// The value of a static field of a closed type, by the field's place in the world. None before its first access.
#[tactic(auto, unfolding(rules::specs::step_rules::Places::global_of))]
pub fn global_of<'a>(st: &'a State, field: u32, owner: &TypeExpr) -> Option<&'a Value>
    ensures { option_copied result ≡ global_of st.now field owner.now }
{
    for g in st.statics.as_slice() {
        if is_global(g, field, owner) {
            return Some(&g.value);
        }
    }
    None
}

/// Puts a value into a static field, if it is this one.
fn change_global(
    alloc: Global,
    field: u32,
    owner: &TypeExpr,
    v: &Value,
    g: &mut StaticField,
) -> Result<(), NoMemory>
    ensures { IfOk result (λ done. g.new ≡ change_global field owner.now v.now g.old) }
{
    if is_global(g, field, owner) {
        let v = v.copy(alloc)?;
        discard(mem::replace(&mut g.value, v));
    }
    Ok(())
}

/// Puts a value into each of some static fields that is this one.
fn change_globals(
    alloc: Global,
    field: u32,
    owner: &TypeExpr,
    v: &Value,
    statics: &mut Vec<StaticField>,
) -> Result<(), NoMemory>
    ensures { IfOk result (λ done. statics.new.items ≡ map (change_global field owner.now v.now) statics.old.items) }
{
    for i in 0..statics.len() {
        change_global(alloc, field, owner, v, &mut statics[i])?;
    }
    Ok(())
}

/// Puts a value into a static field that was accessed before. Nothing is changed where there is no such field.
#[tactic(auto, unfolding(rules::specs::step_rules::Places::with_global))]
pub fn with_global(
    alloc: Global,
    st: &mut State,
    field: u32,
    owner: &TypeExpr,
    v: &Value,
) -> Result<(), NoMemory>
    ensures { IfOk result (λ done. st.new ≡ with_global field owner.now v.now st.old) }
{
    let mut statics = mem::replace(&mut st.statics, Seq::new(alloc)).into_vec();
    change_globals(alloc, field, owner, v, &mut statics)?;
    st.statics = Seq::from_vec(statics);
    Ok(())
}
