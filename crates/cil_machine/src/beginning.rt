//! How a run begins.

ghost use Rattle.std.specs.Prelude.{◌≡◌, [], IfOk};
ghost use Rattle.il_base.specs.declared.cil_values.state.Init.TheVariants.{Begun};
ghost use Rattle.il_base.specs.declared.cil_values.frame.Waits.TheVariants.{Opens};
ghost use Rattle.rules.specs.step_rules.Closing.{Callee as Called, takes};
ghost use Rattle.rules.specs.step_rules.Frames.{frame_of, with_init, zero_locals};
ghost use Rattle.rules.specs.step_rules.Run.{beginning, begins, begins_body, begins_code, begins_method, begins_with, blank_state, initializer_frame, or_stopped, stopped_at, stuck_at, with_initializer};
ghost use Rattle.rules.specs.step_rules.Returns.{entry_begins};
ghost use Rattle.machine_words.specs.cil_closing.Callees.{callee_by};
ghost use Rattle.cil_machine.specs.Begun.{beginning_by};

use crate::entry_form::is_entry;
use cil_input::decoded;
use il_base::cil_values::{
    Code, End, Frame, Heap, Init, Method, Prefix, Signature, Stack, Started, State, Value, Waits,
};
use il_base::world_model::{Known, MethodUse, TypeExpr};
use il_base::{Boxed, MethodId, NoMemory, Seq, TypeId};
use machine_calls::cil_returns::entry_begins;
use machine_frames::cil_frames::{copy_use, initializer, zero_locals};
use machine_words::cil_closing::{Callee, callee_of};
use machine_words::cil_queries::Answers;
use std::alloc::Global;

/// How a run begins.
#[derive(Drop)]
pub enum Beginning {
    Begins(State),
    /// The run is over in its first step.
    Ends(End),
}

/// What has no meaning ends the run at the entry's offset 0.
fn stopped_at(entry: u32) -> Beginning
    ensures { beginning_by result ≡ stopped_at entry }
{
    Beginning::Ends(End::Stopped {
        method: MethodId(entry),
        offset: 0,
    })
}

/// What isn't of an entry method's form ends the run at the entry's offset 0.
fn stuck_at(entry: u32) -> Beginning
    ensures { beginning_by result ≡ stuck_at entry }
{
    Beginning::Ends(End::Stuck {
        method: MethodId(entry),
        offset: 0,
    })
}

/// A frame as its method begins.
fn frame_of(
    alloc: Global,
    number: u64,
    method: MethodUse,
    locals: Seq<Value>,
    waits: Waits,
) -> Frame
    ensures { result ≡ frame_of number method [] locals waits }
{
    Frame {
        number,
        method,
        args: Seq::new(alloc),
        locals,
        stack: Stack::new(alloc),
        at: 0,
        prefix: Prefix::None,
        running: Stack::new(alloc),
        waits,
    }
}

/// Nothing on the heap, nothing begun. The frame is replaced by the first that is entered.
fn blank_state(alloc: Global, c: &Callee, input: Stack<u16>) -> Result<State, NoMemory>
    ensures { IfOk result (λ s. s ≡ blank_state (callee_by c.now) input) }
{
    let method = copy_use(alloc, &c.called)?;
    Ok(State {
        heap: Heap::new(alloc),
        statics: Seq::new(alloc),
        inits: Seq::new(alloc),
        texts: Seq::new(alloc),
        types: Seq::new(alloc),
        top: frame_of(alloc, 0, method, Seq::new(alloc), Waits::Nothing),
        below: Stack::new(alloc),
        entered: 0,
        input,
    })
}

/// The frame of an initializer, after which the entry begins.
fn first_frame(
    alloc: Global,
    entry: &MethodUse,
    used: &MethodUse,
    locals: Seq<Value>,
) -> Result<Frame, NoMemory>
    ensures { IfOk result (λ f. f ≡ frame_of 0 used.now [] locals (Opens entry.now.owner entry.now)) }
{
    let owner = entry.owner.copy(alloc)?;
    let owner = Boxed::new(alloc, owner)?;
    let entry = copy_use(alloc, entry)?;
    let entry = Boxed::new(alloc, entry)?;
    let method = copy_use(alloc, used)?;
    Ok(frame_of(alloc, 0, method, locals, Waits::Opens(owner, entry)))
}

/// The state in which the initializer of a closed type is the first frame.
fn first_state(
    alloc: Global,
    ty: &TypeExpr,
    input: Stack<u16>,
    first: Frame,
) -> Result<State, NoMemory>
    ensures { IfOk result (λ s. (c : Called) → s ≡ record (with_init ty.now Begun (blank_state c input)) { top = first; entered = 1 }) }
{
    let typ = ty.copy(alloc)?;
    let mut inits = Seq::new(alloc);
    inits.push(Started {
        typ,
        init: Init::Begun,
    })?;
    Ok(State {
        heap: Heap::new(alloc),
        statics: Seq::new(alloc),
        inits,
        texts: Seq::new(alloc),
        types: Seq::new(alloc),
        top: first,
        below: Stack::new(alloc),
        entered: 1,
        input,
    })
}

/// The initializer of the entry's type is the first frame: nobody catches what leaves it, and no step is spent on it.
fn with_code<Q: Answers>(
    alloc: Global,
    q: &Q,
    m: u32,
    entry: &Callee,
    input: Stack<u16>,
    c: &Callee,
    code: &Code,
) -> Result<Beginning, NoMemory>
    ensures { IfOk result (λ b. beginning_by b ≡ or_stopped (zero_locals (Q.queries q.now) c.now.called code.now) m (λ locals. begins (initializer_frame entry.now.called.owner entry.now.called (callee_by c.now) locals (with_init entry.now.called.owner Begun (blank_state (callee_by entry.now) input))))) }
{
    let Some(locals) = zero_locals(alloc, q, &c.called, code)? else {
        return Ok(stopped_at(m));
    };
    let first = first_frame(alloc, &entry.called, &c.called, locals)?;
    let s = first_state(alloc, &entry.called.owner, input, first)?;
    Ok(Beginning::Begins(s))
}

fn with_initializer<Q: Answers>(
    alloc: Global,
    q: &Q,
    m: u32,
    entry: &Callee,
    input: Stack<u16>,
    c: &Callee,
) -> Result<Beginning, NoMemory>
    ensures { IfOk result (λ b. beginning_by b ≡ with_initializer (Q.queries q.now) m (callee_by entry.now) (blank_state (callee_by entry.now) input) (callee_by c.now)) }
{
    match &c.method.body {
        None => Ok(stuck_at(m)),
        Some(Known::Bad(_)) => Ok(stopped_at(m)),
        Some(Known::Good(code)) => with_code(alloc, q, m, entry, input, c, code),
    }
}

/// The entry begins with these locals.
fn begins_now(
    alloc: Global,
    c: &Callee,
    locals: Seq<Value>,
    input: Stack<u16>,
) -> Result<Beginning, NoMemory>
    ensures { IfOk result (λ b. beginning_by b ≡ begins (entry_begins (callee_by c.now) locals (blank_state (callee_by c.now) input))) }
{
    let mut s = blank_state(alloc, c, input)?;
    entry_begins(alloc, c, locals, &mut s)?;
    Ok(Beginning::Begins(s))
}

/// The entry begins, or before it the initializer of its type.
fn begins_with<Q: Answers>(
    alloc: Global,
    q: &Q,
    m: u32,
    input: Stack<u16>,
    c: &Callee,
    locals: Seq<Value>,
) -> Result<Beginning, NoMemory>
    ensures { IfOk result (λ b. beginning_by b ≡ begins_with (Q.queries q.now) m input (callee_by c.now) locals) }
{
    if !is_entry(alloc, c)? {
        return Ok(stuck_at(m));
    }
    let Some(used) = initializer(alloc, q, false, &c.called.owner)? else {
        return begins_now(alloc, c, locals, input);
    };
    let Some(first) = callee_of(alloc, q, used)? else {
        return Ok(stopped_at(m));
    };
    let out = with_initializer(alloc, q, m, c, input, &first)?;
    drop(first);
    Ok(out)
}

/// A method that isn't generic, with its locals.
fn begins_code<Q: Answers>(
    alloc: Global,
    q: &Q,
    m: u32,
    input: Stack<u16>,
    f: &Method,
    code: &Code,
) -> Result<Beginning, NoMemory>
    ensures { IfOk result (λ b. beginning_by b ≡ begins_code (Q.queries q.now) m input f.now code.now) }
{
    let used = MethodUse {
        method: MethodId(m),
        owner: TypeExpr::Def(TypeId(f.owner)),
        args: Seq::new(alloc),
    };
    let Some(c) = callee_of(alloc, q, used)? else {
        return Ok(stopped_at(m));
    };
    let Some(locals) = zero_locals(alloc, q, &c.called, code)? else {
        return Ok(stopped_at(m));
    };
    let out = begins_with(alloc, q, m, input, &c, locals)?;
    drop(c);
    Ok(out)
}

fn begins_body<Q: Answers>(
    alloc: Global,
    q: &Q,
    m: u32,
    input: Stack<u16>,
    f: &Method,
    sig: &Signature,
) -> Result<Beginning, NoMemory>
    ensures { IfOk result (λ b. beginning_by b ≡ begins_body (Q.queries q.now) m input f.now sig.now f.now.body) }
{
    let Some(body) = &f.body else {
        return Ok(stuck_at(m));
    };
    let Known::Good(code) = body else {
        return Ok(stopped_at(m));
    };
    let Known::Good(_) = &code.locals else {
        return Ok(stopped_at(m));
    };
    if sig.own != 0 {
        return Ok(stuck_at(m));
    }
    begins_code(alloc, q, m, input, f, code)
}

fn takes_none<Q: Answers>(q: &Q, ty: u32) -> bool
    ensures { result ≡ takes ((Q.queries q.now).head ty) 0 }
{
    match q.head(ty) {
        None => false,
        Some(head) => head.params == 0,
    }
}

/// A method that a type's run holds, with the units of the input.
fn begins_method<Q: Answers>(
    alloc: Global,
    q: &Q,
    m: u32,
    input: Stack<u16>,
    f: &Method,
) -> Result<Beginning, NoMemory>
    ensures { IfOk result (λ b. beginning_by b ≡ begins_method (Q.queries q.now) m input f.now) }
{
    let Known::Good(sig) = &f.signature else {
        return Ok(stopped_at(m));
    };
    if !takes_none(q, f.owner) {
        return Ok(stopped_at(m));
    }
    begins_body(alloc, q, m, input, f, sig)
}

/// How a run begins at an entry method (II.15.4.1.2), by its place in the world, with the bytes of the input. What a method that
/// no type's run holds, a signature, a body, a local and a type without its arguments come to is looked at before the form.
#[tactic(auto, unfolding(rules::specs::step_rules::Run::beginning))]
pub fn begin<Q: Answers>(
    alloc: Global,
    q: &Q,
    entry: u32,
    input: &[u8],
) -> Result<Beginning, NoMemory>
    ensures { IfOk result (λ b. beginning_by b ≡ beginning (Q.queries q.now) entry input.now) }
{
    let units = decoded(alloc, input)?;
    let Some(f) = q.method(entry) else {
        return Ok(stopped_at(entry));
    };
    begins_method(alloc, q, entry, units, f)
}
