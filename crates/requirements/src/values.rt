//! What is carried to the places of a body that ask.

ghost use Rattle.std.specs.Prelude.{◌≡◌, ◌++◌, ◌∷◌, [], IfOk, OnOk};
ghost use Rattle.value_flow.specs.Flows.{is_carried};
ghost use Rattle.rules.specs.site_rules.Values.{kept_from, carried_to, value_from_top, anything_at};
ghost use Rattle.requirements.specs.Bodies.{flowed, IsBody};

use crate::body::{Body, slot_from_top};
use crate::generic_sites::asking::only;
use il_base::{NoMemory, Seq};
use rules::flow_rules::Source;
use std::alloc::Global;
use value_flow::Flow;

/// A copy of a source.
fn copy_of(alloc: Global, s: &Source) -> Result<Source, NoMemory>
    ensures { IfOk result (λ copy. copy ≡ s.now) }
{
    match s {
        Source::KnownType(t) => Ok(Source::KnownType(*t)),
        Source::KnownHandle(t) => Ok(Source::KnownHandle(*t)),
        Source::KnownText(text) => {
            let text = Seq::from_slice(alloc, text.as_slice())?;
            Ok(Source::KnownText(text))
        }
        Source::Null => Ok(Source::Null),
        Source::Parameter(n) => Ok(Source::Parameter(*n)),
        Source::Return(m) => Ok(Source::Return(*m)),
        Source::Field(f) => Ok(Source::Field(*f)),
        Source::TypeParam(t, n) => Ok(Source::TypeParam(*t, *n)),
        Source::MethodParam(n) => Ok(Source::MethodParam(*n)),
        Source::Opaque => Ok(Source::Opaque),
    }
}

/// Those of the sources of a body that are carried to a slot at the instruction at an offset.
fn kept(
    alloc: Global,
    flow: &Flow<'_>,
    offset: u32,
    slot: u32,
    sources: &[Source],
) -> Result<Seq<Source>, NoMemory>
    ensures { IfOk result (λ found. found ≡ kept_from (is_carried flow.now offset slot) 0 sources.now) }
{
    let mut found = Seq::new(alloc);
    for (k, s) in sources.iter().enumerate() {
        let Ok(n) = u32::try_from(k) else {
            return Err(NoMemory);
        };
        if flow.has(offset, slot, n) {
            let copy = copy_of(alloc, s)?;
            found.push(copy)?;
        }
    }
    Ok(found)
}

/// The sources that are carried to a slot at the instruction at an offset.
#[tactic(auto, unfolding(rules::specs::site_rules::Values::carried_to))]
fn carried_to(
    alloc: Global,
    body: &Body<'_, '_, '_, '_>,
    offset: u32,
    slot: u32,
) -> Result<Seq<Source>, NoMemory>
    requires { IsBody body.now }
    ensures { IfOk result (λ found. found ≡ carried_to (flowed body.now) offset slot) }
{
    let sources = body.flow.sources();
    let found = kept(alloc, body.flow, offset, slot, sources.as_slice())?;
    Ok(found)
}

/// The sources of the n-th value from the top of the stack, counted from 1; none at an instruction that no walk reaches.
#[tactic(auto, unfolding(rules::specs::site_rules::Values::value_from_top))]
pub(crate) fn value_from_top(
    alloc: Global,
    body: &Body<'_, '_, '_, '_>,
    offset: u32,
    n: u32,
) -> Result<Seq<Source>, NoMemory>
    requires { IsBody body.now }
    ensures { IfOk result (λ found. found ≡ value_from_top (flowed body.now) offset n) }
{
    match body.flow.depth(offset) {
        None => Ok(Seq::new(alloc)),
        Some(depth) => {
            let slot = slot_from_top(body.method, depth, n)?;
            let found = carried_to(alloc, body, offset, slot)?;
            Ok(found)
        }
    }
}

/// Anything, at an instruction that a walk reaches.
#[tactic(auto, unfolding(rules::specs::site_rules::Values::anything_at))]
pub(crate) fn anything_at(
    alloc: Global,
    body: &Body<'_, '_, '_, '_>,
    offset: u32,
) -> Result<Seq<Source>, NoMemory>
    ensures { IfOk result (λ found. found ≡ anything_at (flowed body.now) offset) }
{
    match body.flow.depth(offset) {
        None => Ok(Seq::new(alloc)),
        Some(_) => only(alloc, Source::Opaque),
    }
}
