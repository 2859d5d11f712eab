//! Arguments as members take them: `this` of a number is the number, each object is of its parameter's type.

ghost use Rattle.std.specs.Prelude.{◌≡◌, ◌++◌, List, IfOk};
ghost use Rattle.std.specs.Option.{option_map};
ghost use Rattle.il_base.specs.declared.cil_values.value.Value.{Value};
ghost use Rattle.il_base.specs.declared.cil_values.value.Value.TheVariants.{Pointer};
ghost use Rattle.il_base.specs.declared.cil_values.state.State.{State};
ghost use Rattle.rules.specs.step_rules.Next.{Next};
ghost use Rattle.rules.specs.step_rules.Words.{given};
ghost use Rattle.rules.specs.step_rules.CoreWords.{checked, core_arg, core_args, core_this, object_this, of_type, pointed_this, with_this};
ghost use Rattle.machine_words.specs.cil_closing.Callees.{callee_by};
ghost use Rattle.cil_core.specs.cil_members.Arguments.{args_next, this_next};

use il_base::cil_values::{Path, State, Value};
use il_base::world_model::TypeExpr;
use il_base::{NoMemory, Seq};
use machine_words::cil_closing::Callee;
use machine_words::cil_objects::is_a;
use machine_words::cil_places::{has_ended, place_value};
use machine_words::cil_queries::Answers;
use machine_words::cil_stores::{fits, is_value};
use std::alloc::Global;

/// `this` of a call.
#[derive(Drop)]
pub(crate) enum This {
    Is(Value),
    /// NullReferenceException is raised.
    Null,
    Stuck,
    Stopped,
}

/// The arguments of a call.
#[derive(Drop)]
pub enum Taken {
    /// `this` first, where there is one.
    Are(Seq<Value>),
    /// `this` is null: NullReferenceException is raised.
    Null,
    /// One doesn't fit its slot.
    Stuck,
    /// `this` leads into a frame that has ended.
    Stopped,
}

/// The number that a pointer of exactly the type leads to.
fn number_this<Q: Answers>(
    alloc: Global,
    q: &Q,
    st: &State,
    owner: &TypeExpr,
    p: &Path,
) -> Result<This, NoMemory>
    ensures { IfOk result (λ this. (f : Value → Next) → this_next this (Q.queries q.now) st.now f ≡ pointed_this (Q.queries q.now) owner.now (Pointer p.now) st.now f) }
{
    if has_ended(st, p) {
        return Ok(This::Stopped);
    }
    if !p.of.is_same(owner) {
        return Ok(This::Stuck);
    }
    match place_value(alloc, q, st, p)? {
        None => Ok(This::Stuck),
        Some(v) => Ok(This::Is(v)),
    }
}

/// `this` of a member of a value type, by a pointer.
fn pointed_this<Q: Answers>(
    alloc: Global,
    q: &Q,
    st: &State,
    owner: &TypeExpr,
    v: &Value,
) -> Result<This, NoMemory>
    ensures { IfOk result (λ this. (f : Value → Next) → this_next this (Q.queries q.now) st.now f ≡ pointed_this (Q.queries q.now) owner.now v.now st.now f) }
{
    match v {
        Value::Pointer(p) => number_this(alloc, q, st, owner, p.get()),
        Value::Null => Ok(This::Null),
        Value::Object(_) => Ok(This::Stuck),
        Value::I4(_) => Ok(This::Stuck),
        Value::I8(_) => Ok(This::Stuck),
        Value::Native(_) => Ok(This::Stuck),
        Value::Struct(_, _) => Ok(This::Stuck),
        Value::Handle(_) => Ok(This::Stuck),
        Value::FieldHandle(_) => Ok(This::Stuck),
    }
}

/// `this` of a member of a class, an object of it.
fn object_this<Q: Answers>(
    alloc: Global,
    q: &Q,
    st: &State,
    owner: &TypeExpr,
    v: &Value,
) -> Result<This, NoMemory>
    ensures { IfOk result (λ this. (f : Value → Next) → this_next this (Q.queries q.now) st.now f ≡ object_this (Q.queries q.now) owner.now v.now st.now f) }
{
    match v {
        Value::Object(at) => {
            if is_a(alloc, q, st, owner, *at)? {
                Ok(This::Is(Value::Object(*at)))
            } else {
                Ok(This::Stuck)
            }
        }
        Value::Null => Ok(This::Null),
        Value::Pointer(_) => Ok(This::Stuck),
        Value::I4(_) => Ok(This::Stuck),
        Value::I8(_) => Ok(This::Stuck),
        Value::Native(_) => Ok(This::Stuck),
        Value::Struct(_, _) => Ok(This::Stuck),
        Value::Handle(_) => Ok(This::Stuck),
        Value::FieldHandle(_) => Ok(This::Stuck),
    }
}

/// `this` as a member of a type takes it.
#[tactic(auto, unfolding(rules::specs::step_rules::CoreWords::core_this))]
fn core_this<Q: Answers>(
    alloc: Global,
    q: &Q,
    st: &State,
    owner: &TypeExpr,
    v: &Value,
) -> Result<This, NoMemory>
    ensures { IfOk result (λ this. (f : Value → Next) → this_next this (Q.queries q.now) st.now f ≡ core_this (Q.queries q.now) owner.now v.now st.now f) }
{
    if is_value(alloc, q, owner)? {
        pointed_this(alloc, q, st, owner, v)
    } else {
        object_this(alloc, q, st, owner, v)
    }
}

/// A value that fits a slot of a type, where it is an object of another type: None.
fn of_type<Q: Answers>(
    alloc: Global,
    q: &Q,
    st: &State,
    ty: &TypeExpr,
    v: Value,
) -> Result<Option<Value>, NoMemory>
    ensures { IfOk result (λ kept. kept ≡ of_type (Q.queries q.now) st.now ty.now v) }
{
    match v {
        Value::Object(at) => {
            if is_a(alloc, q, st, ty, at)? {
                Ok(Some(Value::Object(at)))
            } else {
                Ok(None)
            }
        }
        Value::Null => Ok(Some(Value::Null)),
        Value::I4(n) => Ok(Some(Value::I4(n))),
        Value::I8(n) => Ok(Some(Value::I8(n))),
        Value::Native(n) => Ok(Some(Value::Native(n))),
        Value::Pointer(p) => Ok(Some(Value::Pointer(p))),
        Value::Struct(of, cells) => Ok(Some(Value::Struct(of, cells))),
        Value::Handle(of) => Ok(Some(Value::Handle(of))),
        Value::FieldHandle(f) => Ok(Some(Value::FieldHandle(f))),
    }
}

/// An argument as its slot keeps it. None where it doesn't fit, or is an object of another type.
fn core_arg<Q: Answers>(
    alloc: Global,
    q: &Q,
    st: &State,
    ty: &TypeExpr,
    v: &Value,
) -> Result<Option<Value>, NoMemory>
    ensures { IfOk result (λ kept. kept ≡ core_arg (Q.queries q.now) st.now ty.now v.now) }
{
    let copy = v.copy(alloc)?;
    match fits(alloc, q, ty, copy)? {
        None => Ok(None),
        Some(kept) => of_type(alloc, q, st, ty, kept),
    }
}

/// Arguments as their slots keep them, after what there is already. None where one doesn't fit, or there isn't one for each
/// slot.
#[tactic(auto, unfolding(rules::specs::step_rules::CoreWords::core_args))]
fn core_args<Q: Answers>(
    alloc: Global,
    q: &Q,
    st: &State,
    types: &[TypeExpr],
    values: &[Value],
    first: Seq<Value>,
) -> Result<Option<Seq<Value>>, NoMemory>
    ensures { IfOk result (λ kept. kept ≡ option_map (λ rest. first ++ rest) (core_args (Q.queries q.now) st.now types.now values.now)) }
{
    let mut kept = first;
    let mut left = values;
    for ty in types {
        let [v, more @ ..] = left else {
            return Ok(None);
        };
        match core_arg(alloc, q, st, ty, v) {
            Err(error) => return Err(error),
            Ok(None) => return Ok(None),
            Ok(Some(value)) => kept.push(value)?,
        }
        left = more;
    }
    if left.is_empty() {
        Ok(Some(kept))
    } else {
        Ok(None)
    }
}

/// The arguments after those that there are already.
#[tactic(auto, using(crate::proofs::lemmas::cil_members::Slots::given_after))]
fn checked_from<Q: Answers>(
    alloc: Global,
    q: &Q,
    c: &Callee,
    args: &[Value],
    st: &State,
    first: Seq<Value>,
) -> Result<Taken, NoMemory>
    ensures { IfOk result (λ out. (f : List Value → Next) → args_next out (Q.queries q.now) st.now f ≡ given (core_args (Q.queries q.now) st.now (callee_by c.now).signature.params args.now) st.now (λ rest. f (first ++ rest))) }
{
    match core_args(
        alloc,
        q,
        st,
        c.signature.get().params.as_slice(),
        args,
        first,
    )? {
        None => Ok(Taken::Stuck),
        Some(kept) => Ok(Taken::Are(kept)),
    }
}

/// `this`, and the arguments after it.
fn with_this<Q: Answers>(
    alloc: Global,
    q: &Q,
    c: &Callee,
    args: &[Value],
    st: &State,
) -> Result<Taken, NoMemory>
    ensures { IfOk result (λ out. (f : List Value → Next) → args_next out (Q.queries q.now) st.now f ≡ with_this (Q.queries q.now) (callee_by c.now) args.now st.now f) }
{
    let [v, rest @ ..] = args else {
        return Ok(Taken::Stuck);
    };
    match core_this(alloc, q, st, &c.called.owner, v)? {
        This::Is(this) => {
            let mut first = Seq::new(alloc);
            first.push(this)?;
            checked_from(alloc, q, c, rest, st, first)
        }
        This::Null => Ok(Taken::Null),
        This::Stuck => Ok(Taken::Stuck),
        This::Stopped => Ok(Taken::Stopped),
    }
}

/// The arguments of a call as the member takes them: the receiver, then each as its parameter's slot keeps it.
#[tactic(auto, unfolding(rules::specs::step_rules::CoreWords::checked))]
pub fn checked<Q: Answers>(
    alloc: Global,
    q: &Q,
    c: &Callee,
    args: &[Value],
    st: &State,
) -> Result<Taken, NoMemory>
    ensures { IfOk result (λ out. (f : List Value → Next) → args_next out (Q.queries q.now) st.now f ≡ checked (Q.queries q.now) (callee_by c.now) args.now st.now f) }
{
    if c.signature.get().this {
        with_this(alloc, q, c, args, st)
    } else {
        checked_from(alloc, q, c, args, st, Seq::new(alloc))
    }
}
