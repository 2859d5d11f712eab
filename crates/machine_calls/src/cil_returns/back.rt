//! Back to the caller, or to what waits for a method's end.

ghost use Rattle.std.specs.Prelude.{◌≡◌, ℕ, List, [], ◌∷◌, Option, IfOk, OnOk, if◌then◌else◌};
ghost use Rattle.il_base.specs.declared.cil_values.state.State.{State};
ghost use Rattle.il_base.specs.declared.cil_values.end.End.TheVariants.{Stuck, Ended as RunEnded};
ghost use Rattle.il_base.specs.declared.cil_values.state.Init.TheVariants.{Ended};
ghost use Rattle.il_base.specs.declared.cil_values.frame.Waits.TheVariants.{Core};
ghost use Rattle.il_base.specs.declared.cil_values.value.Value.{Value};
ghost use Rattle.rules.specs.step_rules.Next.{went};
ghost use Rattle.std.specs.Option.{option_and_then};
ghost use Rattle.rules.specs.step_rules.Words.{given, had, object_at, stuck};
ghost use Rattle.rules.specs.step_rules.Places.{boxed_in};
ghost use Rattle.rules.specs.step_rules.Closing.{callee_of};
ghost use Rattle.rules.specs.step_rules.Raising.{set_init};
ghost use Rattle.rules.specs.step_rules.Calls.{pushed};
ghost use Rattle.rules.specs.step_rules.Returns.{back, back_by, ends_by, exit_code, goes_back, opened};
ghost use Rattle.machine_words.specs.cil_closing.Callees.{callee_by};
ghost use Rattle.machine_words.specs.declared.cil_words.step_out.StepOut.TheVariants.{Over};
ghost use Rattle.machine_words.specs.cil_words.Steps.{next_of};

use crate::cil_invoking::{push_result, resume};
use crate::cil_returns::copies::copy_waits;
use crate::cil_returns::current::running;
use crate::cil_returns::entry::entry_begins;
use cil_core::cil_members::CoreOut;
use il_base::cil_values::{CoreCall, End, Frame, Init, Prefix, State, Value, Waits};
use il_base::world_model::{Known, MethodUse, TypeExpr};
use il_base::{NoMemory, Seq};
use machine_frames::cil_frames::zero_locals;
use machine_frames::cil_raising::set_init;
use machine_words::cil_closing::{Callee, callee_of};
use machine_words::cil_places::boxed_value;
use machine_words::cil_queries::Answers;
use machine_words::cil_words::{StepOut, may_go, stopped, stuck};
use std::alloc::Global;
use std::mem;

/// The caller, which is on top, goes on after its call, with its evaluation stack as it is. False where it may not: then the
/// instruction that returned is stuck.
#[tactic(auto, using(crate::proofs::lemmas::cil_returns::Callers::back_nowhere))]
fn goes_back<Q: Answers>(q: &Q, st: &mut State) -> bool
    ensures { (s : State) → (bytes : List ℕ) → goes_back (Q.queries q.now) s st.old st.old.top.stack bytes ≡ (if result then went st.new bytes else stuck s) }
{
    let Some(caller) = running(q, &st.top) else {
        return false;
    };
    let i = caller.instruction;
    if !may_go(caller.body.code, i.at, i.next) {
        return false;
    }
    st.top.at = i.next;
    st.top.prefix = Prefix::None;
    true
}

/// Another frame in place of the top one, which has ended.
fn set_top(st: &mut State, f: Frame)
    ensures { st.new ≡ record st.old { top = f } }
{
    st.top = f;
}

/// The caller goes on after its call with a value or nothing on its stack. It is off the stack of frames already. Where it may
/// not, the run ends as the instruction that returned is stuck.
fn gives_to<Q: Answers>(
    q: &Q,
    broken: StepOut,
    f: Frame,
    v: Option<Value>,
    st: &mut State,
) -> Result<StepOut, NoMemory>
    ensures { IfOk result (λ out. (s : State) → broken ≡ Over (Stuck s.top.method.method s.top.at) → (bytes : List ℕ) → next_of out st.new bytes ≡ goes_back (Q.queries q.now) s (record st.old { top = f }) (pushed v f.stack) bytes) }
{
    set_top(st, f);
    push_result(&mut st.top.stack, v)?;
    if !goes_back(q, st) {
        return Ok(broken);
    }
    drop(broken);
    Ok(StepOut::Went)
}

/// The caller goes on after its call with a value or nothing on its stack. It is off the stack of frames already.
fn gives_back<Q: Answers>(
    q: &Q,
    f: Frame,
    v: Option<Value>,
    st: &mut State,
) -> Result<StepOut, NoMemory>
    ensures { IfOk result (λ out. (bytes : List ℕ) → next_of out st.new bytes ≡ goes_back (Q.queries q.now) (record st.old { below = f ∷ st.old.below }) (record st.old { top = f }) (pushed v f.stack) bytes) }
{
    let broken = stuck(st);
    gives_to(q, broken, f, v, st)
}

/// The value that a value type's constructor has made in a box is given back.
fn gives_boxed<Q: Answers>(
    alloc: Global,
    q: &Q,
    f: Frame,
    a: u32,
    st: &mut State,
) -> Result<StepOut, NoMemory>
    ensures { IfOk result (λ out. next_of out st.new [] ≡ given (option_and_then boxed_in (object_at st.old a)) (record st.old { below = f ∷ st.old.below }) (λ w. goes_back (Q.queries q.now) (record st.old { below = f ∷ st.old.below }) (record st.old { top = f }) (w ∷ f.stack) [])) }
{
    let Some(w) = boxed_value(alloc, st, a)? else {
        return Ok(stuck(st));
    };
    gives_back(q, f, Some(w), st)
}

/// Notes that the initializer of a closed type has ended.
fn set_ended(alloc: Global, ty: TypeExpr, st: &mut State) -> Result<(), NoMemory>
    ensures { OnOk result (st.new ≡ record st.old { inits = set_init ty Ended st.old.inits }) }
{
    let before = mem::replace(&mut st.inits, Seq::new(alloc));
    st.inits = set_init(alloc, &ty, Init::Ended, before)?;
    drop(ty);
    Ok(())
}

/// An initializer has ended, and the instruction of the caller comes again.
fn has_started(alloc: Global, f: Frame, ty: TypeExpr, st: &mut State) -> Result<StepOut, NoMemory>
    ensures { IfOk result (λ out. next_of out st.new [] ≡ went (record st.old { top = f; inits = set_init ty Ended st.old.inits }) []) }
{
    set_top(st, f);
    set_ended(alloc, ty, st)?;
    Ok(StepOut::Went)
}

/// A member of the core library that called goes on, and gives its value to the caller.
fn resumes<Q: Answers>(
    alloc: Global,
    q: &Q,
    f: Frame,
    member: CoreCall,
    args: Seq<Value>,
    v: Option<Value>,
    st: &mut State,
    printed: &mut Vec<u8>,
) -> Result<StepOut, NoMemory>
    requires { printed.old.items ≡ [] }
    ensures { IfOk result (λ out. next_of out st.new printed.new.items ≡ back_by (Q.queries q.now) (record st.old { below = f ∷ st.old.below }) (record st.old { top = f }) v (Core member args)) }
{
    let broken = stuck(st);
    st.below.push(f)?;
    match resume(alloc, q, member, args, v, st, printed)? {
        CoreOut::Stepped(out) => Ok(out),
        CoreOut::Gave(given) => match st.below.pop() {
            None => Err(NoMemory),
            Some(f) => gives_to(q, broken, f, given, st),
        },
    }
}

/// What the frame that ends had to do for the caller, which is off the stack of frames already.
fn back_by<Q: Answers>(
    alloc: Global,
    q: &Q,
    f: Frame,
    v: Option<Value>,
    waits: Waits,
    st: &mut State,
    printed: &mut Vec<u8>,
) -> Result<StepOut, NoMemory>
    requires { printed.old.items ≡ [] }
    ensures { IfOk result (λ out. next_of out st.new printed.new.items ≡ back_by (Q.queries q.now) (record st.old { below = f ∷ st.old.below }) (record st.old { top = f }) v waits) }
{
    match waits {
        Waits::Nothing => gives_back(q, f, v, st),
        Waits::Makes(a) => {
            drop(v);
            gives_back(q, f, Some(Value::Object(a)), st)
        }
        Waits::MakesValue(a) => {
            drop(v);
            gives_boxed(alloc, q, f, a, st)
        }
        Waits::Starts(ty) => {
            drop(v);
            has_started(alloc, f, ty.into_inner(), st)
        }
        Waits::Opens(_, _) => {
            drop(v);
            Ok(stuck(st))
        }
        Waits::Core(member, args) => {
            resumes(alloc, q, f, member, args.into_inner(), v, st, printed)
        }
    }
}

/// Of a method that returns nothing it is 0.
fn exit_code(v: &Option<Value>) -> i32
    ensures { result ≡ exit_code v.now }
{
    match v {
        None => 0,
        Some(Value::I4(n)) => *n,
        Some(Value::Null) => 0,
        Some(Value::I8(_)) => 0,
        Some(Value::Native(_)) => 0,
        Some(Value::Object(_)) => 0,
        Some(Value::Pointer(_)) => 0,
        Some(Value::Struct(_, _)) => 0,
        Some(Value::Handle(_)) => 0,
        Some(Value::FieldHandle(_)) => 0,
    }
}

/// The entry method begins, after the initializer of its type.
fn opened<Q: Answers>(alloc: Global, q: &Q, c: &Callee, st: &mut State) -> Result<StepOut, NoMemory>
    ensures { IfOk result (λ out. next_of out st.new [] ≡ opened (Q.queries q.now) st.old (callee_by c.now)) }
{
    let Some(body) = &c.method.body else {
        return Ok(stuck(st));
    };
    let Known::Good(code) = body else {
        return Ok(stopped(st));
    };
    let Some(locals) = zero_locals(alloc, q, &c.called, code)? else {
        return Ok(stopped(st));
    };
    entry_begins(alloc, c, locals, st)?;
    Ok(StepOut::Went)
}

/// The initializer of the entry's type has ended.
fn opens<Q: Answers>(
    alloc: Global,
    q: &Q,
    ty: TypeExpr,
    entry: MethodUse,
    st: &mut State,
) -> Result<StepOut, NoMemory>
    ensures { IfOk result (λ out. next_of out st.new [] ≡ had (callee_of (Q.queries q.now) entry) st.old (opened (Q.queries q.now) (record st.old { inits = set_init ty Ended st.old.inits }))) }
{
    set_ended(alloc, ty, st)?;
    let Some(c) = callee_of(alloc, q, entry)? else {
        return Ok(stopped(st));
    };
    opened(alloc, q, &c, st)
}

/// The last frame ends the run, but for the initializer of the entry's type, after which the entry begins.
fn ends_by<Q: Answers>(
    alloc: Global,
    q: &Q,
    v: Option<Value>,
    waits: Waits,
    st: &mut State,
) -> Result<StepOut, NoMemory>
    ensures { IfOk result (λ out. next_of out st.new [] ≡ ends_by (Q.queries q.now) st.old v waits) }
{
    match waits {
        Waits::Opens(ty, entry) => {
            drop(v);
            opens(alloc, q, ty.into_inner(), entry.into_inner(), st)
        }
        Waits::Nothing => Ok(ended(v)),
        Waits::Makes(_) => Ok(ended(v)),
        Waits::MakesValue(_) => Ok(ended(v)),
        Waits::Starts(_) => Ok(ended(v)),
        Waits::Core(_, _) => Ok(ended(v)),
    }
}

fn ended(v: Option<Value>) -> StepOut
    ensures { result ≡ Over (RunEnded (exit_code v)) }
{
    let code = exit_code(&v);
    drop(v);
    StepOut::Over(End::Ended { code })
}

/// Goes back to the caller with what was returned, or ends the run.
pub(crate) fn back<Q: Answers>(
    alloc: Global,
    q: &Q,
    v: Option<Value>,
    st: &mut State,
    printed: &mut Vec<u8>,
) -> Result<StepOut, NoMemory>
    requires { printed.old.items ≡ [] }
    ensures { IfOk result (λ out. next_of out st.new printed.new.items ≡ back (Q.queries q.now) st.old st.old.below v) }
{
    let waits = copy_waits(alloc, &st.top.waits)?;
    match st.below.pop() {
        None => ends_by(alloc, q, v, waits, st),
        Some(f) => back_by(alloc, q, f, v, waits, st, printed),
    }
}
