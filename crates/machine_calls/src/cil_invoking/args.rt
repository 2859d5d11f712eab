//! Arguments of calls.

ghost use Rattle.std.specs.Prelude.{◌≡◌, [], ◌∷◌, IfOk, MatchOption};
ghost use Rattle.rules.specs.step_rules.Calls.{after_this, slot_values};

use il_base::cil_values::{Signature, Value};
use il_base::{NoMemory, Seq};
use machine_words::cil_queries::Answers;
use machine_words::cil_stores::all_fit;
use std::alloc::Global;

/// A value before some others.
pub fn with_first(alloc: Global, first: Value, rest: Seq<Value>) -> Result<Seq<Value>, NoMemory>
    ensures { IfOk result (λ all. all ≡ first ∷ rest) }
{
    let mut items = rest.into_vec();
    items.insert(0, first)?;
    Ok(Seq::from_vec(items))
}

/// The first of some values, and the rest.
pub fn first_and_rest(values: Seq<Value>) -> Option<(Value, Seq<Value>)>
    ensures { MatchOption result (values ≡ []) (λ parts. values ≡ parts.0 ∷ parts.1) }
{
    let mut items = values.into_vec();
    if items.is_empty() {
        return None;
    }
    let first = items.remove(0);
    Some((first, Seq::from_vec(items)))
}

/// `this` as it is, and the other arguments as their slots keep them.
fn after_this<Q: Answers>(
    alloc: Global,
    q: &Q,
    sig: &Signature,
    values: Seq<Value>,
) -> Result<Option<Seq<Value>>, NoMemory>
    ensures { IfOk result (λ kept. kept ≡ after_this (Q.queries q.now) sig.now values) }
{
    let Some((this, rest)) = first_and_rest(values) else {
        return Ok(None);
    };
    let Some(kept) = all_fit(alloc, q, sig.params.as_slice(), rest)? else {
        return Ok(None);
    };
    let all = with_first(alloc, this, kept)?;
    Ok(Some(all))
}

/// The arguments of a method as its slots keep them, `this` as it is. None where one doesn't fit, or there are more or fewer.
pub fn slot_values<Q: Answers>(
    alloc: Global,
    q: &Q,
    sig: &Signature,
    values: Seq<Value>,
) -> Result<Option<Seq<Value>>, NoMemory>
    ensures { IfOk result (λ kept. kept ≡ slot_values (Q.queries q.now) sig.now values) }
{
    if sig.this {
        return after_this(alloc, q, sig, values);
    }
    all_fit(alloc, q, sig.params.as_slice(), values)
}
