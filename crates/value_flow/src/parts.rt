//! The flow of a method with its sources as numbers.

ghost use Rattle.std.specs.Prelude.{◌≡◌, ◌++◌, map, replicate, IfOk, OnOk};
ghost use Rattle.rules.specs.link_rules.Cycles.{listed};
ghost use Rattle.rules.specs.declared.flow_rules.source.Source.TheVariants as source;
ghost use Rattle.rules.specs.flow_rules.Sources.{turn};
ghost use Rattle.rules.specs.flow_rules.Moves.{moves_of, taken_by, taken_of, parameters, begins_of, sources_of};
ghost use Rattle.value_flow.specs.body_graph.Methods.{setting_in, IsHere};
ghost use Rattle.value_flow.specs.Numbers.{number_in, numbered_move};
ghost use Rattle.rules.specs.flow_rules.Flows.{deepest, slots_of};
ghost use Rattle.value_flow.specs.Flows.{AreParts};

use crate::body_graph::methods::Method;
use crate::moves::{arg_slot, args_in, doing_of, local_slot};
use crate::numbers::number_in;
use crate::sources::turn;
use il_base::{Form, NoMemory, Operand, TypeId};
use rules::flow_rules::{Move, Source, Turning};
use std::alloc::Global;
use type_system::Types;

/// The lists of numbers that a flow is made of.
#[derive(Drop)]
pub(crate) struct Parts {
    pub(crate) begins: Vec<u32>,
    pub(crate) moves: Vec<Move<u32>>,
    pub(crate) taken: Vec<u32>,
    pub(crate) from_handle: Vec<u32>,
    pub(crate) from_text: Vec<u32>,
}

fn deepest(depths: &[Option<u32>]) -> u32
    ensures { result ≡ deepest depths.now }
{
    let mut most = 0;
    for depth in depths {
        if let Some(d) = depth {
            most = most.max(*d);
        }
    }
    most
}

/// How many slots a method has where the graph has these depths.
pub(crate) fn slots_of(m: &Method<'_>, depths: &[Option<u32>]) -> Result<u32, NoMemory>
    ensures { IfOk result (λ n. n ≡ slots_of (setting_in m.now) depths.now) }
{
    let args = args_in(m)?;
    let Ok(locals) = u32::try_from(m.locals) else {
        return Err(NoMemory);
    };
    let Some(fixed) = args.checked_add(locals) else {
        return Err(NoMemory);
    };
    match fixed.checked_add(deepest(depths)) {
        None => Err(NoMemory),
        Some(slots) => Ok(slots),
    }
}

/// What each instruction does, with sources as numbers.
fn moves_of(
    alloc: Global,
    m: &Method<'_>,
    owner: Option<TypeId>,
    sources: &[Source],
) -> Result<Vec<Move<u32>>, NoMemory>
    requires { IsHere m.now }
    ensures { IfOk result (λ moves. moves.items ≡ map (numbered_move sources.now) (moves_of m.now.world.now.recs (setting_in m.now) owner)) }
{
    let mut moves = Vec::new(alloc);
    for i in m.body.code.as_slice() {
        let d = doing_of(alloc, m, owner, i)?;
        let one = d.numbered(sources)?;
        moves.push(one)?;
    }
    Ok(moves)
}

fn push_slot(slot: Option<u32>, taken: &mut Vec<u32>) -> Result<(), NoMemory>
    ensures { OnOk result (taken.new.items ≡ taken.old.items ++ listed slot) }
{
    if let Some(slot) = slot {
        taken.push(slot)?;
    }
    Ok(())
}

/// Puts the slot whose address an instruction takes.
fn put_taken(
    m: &Method<'_>,
    form: Form,
    operand: &Operand,
    taken: &mut Vec<u32>,
) -> Result<(), NoMemory>
    ensures { OnOk result (taken.new.items ≡ taken.old.items ++ taken_by (setting_in m.now) form operand.now) }
{
    if form == Form::LdArgA {
        let slot = arg_slot(m, operand)?;
        return push_slot(slot, taken);
    }
    if form == Form::LdLocA {
        let slot = local_slot(m, operand)?;
        return push_slot(slot, taken);
    }
    Ok(())
}

fn taken_of(alloc: Global, m: &Method<'_>) -> Result<Vec<u32>, NoMemory>
    ensures { IfOk result (λ taken. taken.items ≡ taken_of (setting_in m.now)) }
{
    let mut taken = Vec::new(alloc);
    for i in m.body.code.as_slice() {
        put_taken(m, i.form, &i.operand, &mut taken)?;
    }
    Ok(taken)
}

fn put_params(sources: &[Source], params: u32, begins: &mut Vec<u32>) -> Result<(), NoMemory>
    ensures { OnOk result (begins.new.items ≡ begins.old.items ++ map (number_in sources.now) (parameters params)) }
{
    for k in 0..params {
        let n = number_in(sources, &Source::Parameter(k))?;
        begins.push(n)?;
    }
    Ok(())
}

fn put_locals(sources: &[Source], locals: usize, begins: &mut Vec<u32>) -> Result<(), NoMemory>
    ensures { OnOk result (begins.new.items ≡ begins.old.items ++ map (number_in sources.now) (replicate locals source.Null)) }
{
    let null = number_in(sources, &Source::Null)?;
    for _k in 0..locals {
        begins.push(null)?;
    }
    Ok(())
}

/// The source of each argument and local at the start, as a number.
fn begins_of(alloc: Global, m: &Method<'_>, sources: &[Source]) -> Result<Vec<u32>, NoMemory>
    ensures { IfOk result (λ begins. begins.items ≡ map (number_in sources.now) (begins_of (setting_in m.now))) }
{
    let mut begins = Vec::new(alloc);
    let Ok(params) = u32::try_from(m.own.params) else {
        return Err(NoMemory);
    };
    if m.own.this {
        let this = number_in(sources, &Source::Opaque)?;
        begins.push(this)?;
    }
    put_params(sources, params, &mut begins)?;
    put_locals(sources, m.locals, &mut begins)?;
    Ok(begins)
}

/// What each source turns into, as a number.
fn turned(
    alloc: Global,
    types: &Types<'_>,
    from: u32,
    t: Turning,
    sources: &[Source],
) -> Result<Vec<u32>, NoMemory>
    ensures { IfOk result (λ ns. ns.items ≡ map (λ x. number_in sources.now (turn types.now.recs from t x)) sources.now) }
{
    let mut numbers = Vec::new(alloc);
    for s in sources {
        let made = turn(alloc, types, from, t, s)?;
        let n = number_in(sources, &made)?;
        numbers.push(n)?;
    }
    Ok(numbers)
}

/// The lists of numbers of a method's flow.
pub(crate) fn parts_of(
    alloc: Global,
    types: &Types<'_>,
    m: &Method<'_>,
    owner: Option<TypeId>,
    sources: &[Source],
) -> Result<Parts, NoMemory>
    requires here { IsHere m.now }
    requires types { types.now ≡ m.now.world.now }
    requires sources { sources.now ≡ sources_of m.now.world.now.recs (setting_in m.now) owner }
    ensures { IfOk result (AreParts m.now.world.now.recs (setting_in m.now) owner) }
{
    let begins = begins_of(alloc, m, sources)?;
    let moves = moves_of(alloc, m, owner, sources)?;
    let taken = taken_of(alloc, m)?;
    let from_handle = turned(alloc, types, m.asm, Turning::FromHandle, sources)?;
    let from_text = turned(alloc, types, m.asm, Turning::FromText, sources)?;
    Ok(Parts {
        begins,
        moves,
        taken,
        from_handle,
        from_text,
    })
}
