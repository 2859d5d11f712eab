//! The members of Activator.

ghost use Rattle.std.specs.Prelude.{◌≡◌, ◌∷◌, [], IfOk, if◌then◌else◌};
ghost use Rattle.il_base.specs.declared.cil_values.core_call.CoreCall.TheVariants.{Create, CreateOf};
ghost use Rattle.il_base.specs.declared.core_table.names.CoreName.TheVariants.{MissingMethodException};
ghost use Rattle.rules.specs.step_rules.Words.{given, had};
ghost use Rattle.rules.specs.step_rules.Closing.{callee_of, plain};
ghost use Rattle.rules.specs.step_rules.Stores.{is_value, zero_of};
ghost use Rattle.rules.specs.step_rules.Raising.{raise};
ghost use Rattle.rules.specs.step_rules.CoreWords.{Gives, before_call, gives_value};
ghost use Rattle.rules.specs.step_rules.CoreTypes.{typed_by};
ghost use Rattle.rules.specs.step_rules.CoreMaking.{constructs_by, constructs_new, creates, creates_for, gives_box, has_params, is_open, maker_use};
ghost use Rattle.rules.specs.step_rules.Core.{constructs, create_form, create_of_form};
ghost use Rattle.machine_words.specs.cil_closing.Callees.{callee_by};
ghost use Rattle.cil_core.specs.Making.{zero_by};
ghost use Rattle.cil_core.specs.cil_members.Outs.{gives_by};

use crate::again::started_with;
use crate::cil_members::{CoreOut, gives_value, raised, stopped_member, stuck_member};
use crate::found::run_found;
use il_base::cil_values::{CoreCall, Head, Obj, State, Value};
use il_base::core_table::CoreName;
use il_base::world_model::{MethodUse, TypeExpr};
use il_base::{MethodId, NoMemory, Seq};
use machine_frames::cil_dispatch::path_into_box;
use machine_frames::cil_frames::is_abstract_type;
use machine_words::cil_closing::{Callee, callee_of, without_modifiers};
use machine_words::cil_objects::{new_instance, typed_by};
use machine_words::cil_queries::Answers;
use machine_words::cil_stores::{is_value, zero_of};
use std::alloc::Global;

/// Whether there is a definition, and it has generic parameters.
fn has_params(head: Option<Head>) -> bool
    ensures { result ≡ has_params head }
{
    match head {
        None => false,
        Some(head) => head.params != 0,
    }
}

/// Whether a type object's type is a generic definition without arguments.
#[tactic(auto, unfolding(rules::specs::step_rules::CoreMaking::is_open))]
pub fn is_open<Q: Answers>(q: &Q, ty: &TypeExpr) -> bool
    ensures { result ≡ is_open (Q.queries q.now) ty.now }
{
    match ty {
        TypeExpr::Def(id) => has_params(q.head(id.0)),
        TypeExpr::Inst(_, _) => false,
        TypeExpr::Prim(_) => false,
        TypeExpr::Array(_) => false,
        TypeExpr::ByRef(_) => false,
        TypeExpr::Var(_) => false,
        TypeExpr::MVar(_) => false,
        TypeExpr::Mod {
            required: _,
            by: _,
            inner: _,
        } => false,
    }
}

/// A value alone.
fn one(alloc: Global, v: Value) -> Result<Seq<Value>, NoMemory>
    ensures { IfOk result (λ values. values ≡ v ∷ []) }
{
    let mut values = Seq::new(alloc);
    values.push(v)?;
    Ok(values)
}

/// The constructor of a new object runs, whose number the waiting member keeps.
fn constructs<Q: Answers>(
    alloc: Global,
    q: &Q,
    member: CoreCall,
    c: &Callee,
    a: u32,
    this: Value,
    st: &mut State,
    printed: &mut Vec<u8>,
) -> Result<CoreOut, NoMemory>
    requires { printed.old.items ≡ [] }
    ensures { IfOk result (λ out. (give : Gives) → constructs (Q.queries q.now) member give (callee_by c.now) a this st.old ≡ gives_by out st.new printed.new.items give) }
{
    let args = one(alloc, Value::Object(a))?;
    let values = one(alloc, this)?;
    run_found(alloc, q, member, args, c, values, st, printed)
}

/// A box, into which the constructor of a value type takes a pointer, or an instance of a class.
fn constructs_new<Q: Answers>(
    alloc: Global,
    q: &Q,
    member: CoreCall,
    ty: &TypeExpr,
    c: &Callee,
    zero: Value,
    st: &mut State,
    printed: &mut Vec<u8>,
) -> Result<CoreOut, NoMemory>
    requires { printed.old.items ≡ [] }
    ensures { IfOk result (λ out. (give : Gives) → constructs_new (Q.queries q.now) ty.now st.old (constructs (Q.queries q.now) member give (callee_by c.now)) zero ≡ gives_by out st.new printed.new.items give) }
{
    if is_value(alloc, q, ty)? {
        let of = ty.copy(alloc)?;
        let pointed = ty.copy(alloc)?;
        let a = st.heap.add(Obj::Boxed { of, value: zero })?;
        let this = Value::pointer(alloc, path_into_box(alloc, a, pointed))?;
        return constructs(alloc, q, member, c, a, this, st, printed);
    }
    drop(zero);
    let instance = new_instance(alloc, q, ty)?;
    let a = st.heap.add(instance)?;
    constructs(alloc, q, member, c, a, Value::Object(a), st, printed)
}

/// A constructor runs on a new object. A type without a zero value stops the step.
fn constructs_by<Q: Answers>(
    alloc: Global,
    q: &Q,
    member: CoreCall,
    ty: &TypeExpr,
    back: &[Value],
    c: &Callee,
    st: &mut State,
    printed: &mut Vec<u8>,
) -> Result<CoreOut, NoMemory>
    requires { printed.old.items ≡ [] }
    ensures { IfOk result (λ out. (give : Gives) → constructs_by (Q.queries q.now) ty.now (before_call back.now st.old) st.old (constructs (Q.queries q.now) member give) (callee_by c.now) ≡ gives_by out st.new printed.new.items give) }
{
    let Some(zero) = zero_of(alloc, q, ty)? else {
        return Ok(stopped_member(st));
    };
    match started_with(alloc, q, false, ty, back, st)? {
        Some(out) => Ok(CoreOut::Stepped(out)),
        None => constructs_new(alloc, q, member, ty, c, zero, st, printed),
    }
}

/// A value type's zero value, in a box or as it is.
fn gives_zero(
    alloc: Global,
    boxes: bool,
    ty: &TypeExpr,
    zero: Value,
    st: &mut State,
) -> Result<CoreOut, NoMemory>
    ensures { IfOk result (λ out. (give : Gives) → zero_by boxes ty.now st.old give zero ≡ gives_by out st.new [] give) }
{
    if !boxes {
        return Ok(gives_value(st, zero));
    }
    let of = ty.copy(alloc)?;
    let a = st.heap.add(Obj::Boxed { of, value: zero })?;
    Ok(gives_value(st, Value::Object(a)))
}

/// A type without such a constructor: a value type gives its zero value, another raises MissingMethodException.
fn without_maker<Q: Answers>(
    alloc: Global,
    q: &Q,
    boxes: bool,
    ty: &TypeExpr,
    st: &mut State,
) -> Result<CoreOut, NoMemory>
    ensures { IfOk result (λ out. (give : Gives) → (if is_value (Q.queries q.now) ty.now then had (zero_of (Q.queries q.now) ty.now) st.old (zero_by boxes ty.now st.old give) else raise (Q.queries q.now) MissingMethodException st.old) ≡ gives_by out st.new [] give) }
{
    if !is_value(alloc, q, ty)? {
        return raised(alloc, q, CoreName::MissingMethodException, st);
    }
    let Some(zero) = zero_of(alloc, q, ty)? else {
        return Ok(stopped_member(st));
    };
    gives_zero(alloc, boxes, ty, zero, st)
}

/// A type with such a constructor.
fn with_maker<Q: Answers>(
    alloc: Global,
    q: &Q,
    member: CoreCall,
    ty: &TypeExpr,
    maker: u32,
    back: &[Value],
    st: &mut State,
    printed: &mut Vec<u8>,
) -> Result<CoreOut, NoMemory>
    requires { printed.old.items ≡ [] }
    ensures { IfOk result (λ out. (give : Gives) → had (callee_of (Q.queries q.now) (maker_use ty.now maker)) st.old (constructs_by (Q.queries q.now) ty.now (before_call back.now st.old) st.old (constructs (Q.queries q.now) member give)) ≡ gives_by out st.new printed.new.items give) }
{
    let owner = ty.copy(alloc)?;
    let used = MethodUse {
        method: MethodId(maker),
        owner,
        args: Seq::new(alloc),
    };
    let Some(c) = callee_of(alloc, q, used)? else {
        return Ok(stopped_member(st));
    };
    let out = constructs_by(alloc, q, member, ty, back, &c, st, printed);
    drop(c);
    out
}

/// Makes an object of a type. `boxes` says whether a value type's zero value is given in a box, `back` has the arguments that the call
/// took off the stack.
#[tactic(auto, unfolding(rules::specs::step_rules::CoreMaking::creates))]
fn creates<Q: Answers>(
    alloc: Global,
    q: &Q,
    member: CoreCall,
    boxes: bool,
    ty: &TypeExpr,
    back: &[Value],
    st: &mut State,
    printed: &mut Vec<u8>,
) -> Result<CoreOut, NoMemory>
    requires { printed.old.items ≡ [] }
    ensures { IfOk result (λ out. (give : Gives) → creates (Q.queries q.now) ty.now (before_call back.now st.old) st.old (zero_by boxes ty.now st.old give) (constructs (Q.queries q.now) member give) ≡ gives_by out st.new printed.new.items give) }
{
    if is_open(q, ty) {
        return raised(alloc, q, CoreName::ArgumentException, st);
    }
    if is_abstract_type(q, ty) {
        return raised(alloc, q, CoreName::MissingMethodException, st);
    }
    match q.maker(ty)? {
        Some(maker) => with_maker(alloc, q, member, ty, maker, back, st, printed),
        None => without_maker(alloc, q, boxes, ty, st),
    }
}

/// CreateInstance of the type whose object a value names.
fn creates_typed<Q: Answers>(
    alloc: Global,
    q: &Q,
    v: &Value,
    back: &[Value],
    st: &mut State,
    printed: &mut Vec<u8>,
) -> Result<CoreOut, NoMemory>
    requires { printed.old.items ≡ [] }
    ensures { IfOk result (λ out. (give : Gives) → given (typed_by st.old v.now) st.old (λ e. creates (Q.queries q.now) e (before_call back.now st.old) st.old (gives_box e st.old give) (constructs (Q.queries q.now) Create give)) ≡ gives_by out st.new printed.new.items give) }
{
    let Some(named) = typed_by(st, v) else {
        return Ok(stuck_member(st));
    };
    let ty = named.copy(alloc)?;
    let out = creates(alloc, q, CoreCall::Create, true, &ty, back, st, printed);
    drop(ty);
    out
}

/// The same for an argument that may be null: ArgumentNullException is raised.
#[tactic(auto, unfolding(rules::specs::step_rules::CoreTypes::typed_by))]
fn creates_for<Q: Answers>(
    alloc: Global,
    q: &Q,
    v: &Value,
    back: &[Value],
    st: &mut State,
    printed: &mut Vec<u8>,
) -> Result<CoreOut, NoMemory>
    requires { printed.old.items ≡ [] }
    ensures { IfOk result (λ out. (give : Gives) → back.now ≡ v.now ∷ [] → creates_for (Q.queries q.now) st.old give (constructs (Q.queries q.now) Create give) v.now ≡ gives_by out st.new printed.new.items give) }
{
    match v {
        Value::Null => raised(alloc, q, CoreName::ArgumentNullException, st),
        Value::Object(_) => creates_typed(alloc, q, v, back, st, printed),
        Value::I4(_) => Ok(stuck_member(st)),
        Value::I8(_) => Ok(stuck_member(st)),
        Value::Native(_) => Ok(stuck_member(st)),
        Value::Pointer(_) => Ok(stuck_member(st)),
        Value::Struct(_, _) => Ok(stuck_member(st)),
        Value::Handle(_) => Ok(stuck_member(st)),
        Value::FieldHandle(_) => Ok(stuck_member(st)),
    }
}

/// Activator.CreateInstance(Type).
#[tactic(auto, unfolding(rules::specs::step_rules::Core::create_form, rules::specs::step_rules::CoreMaking::create_with))]
pub(crate) fn create<Q: Answers>(
    alloc: Global,
    q: &Q,
    args: &[Value],
    st: &mut State,
    printed: &mut Vec<u8>,
) -> Result<CoreOut, NoMemory>
    requires { printed.old.items ≡ [] }
    ensures { IfOk result (λ out. (give : Gives) → create_form (Q.queries q.now) args.now st.old give ≡ gives_by out st.new printed.new.items give) }
{
    let [v] = args else {
        return Ok(stuck_member(st));
    };
    creates_for(alloc, q, v, args, st, printed)
}

/// CreateInstance of a type argument.
fn creates_own<Q: Answers>(
    alloc: Global,
    q: &Q,
    ty: &TypeExpr,
    st: &mut State,
    printed: &mut Vec<u8>,
) -> Result<CoreOut, NoMemory>
    requires { printed.old.items ≡ [] }
    ensures { IfOk result (λ out. (give : Gives) → creates (Q.queries q.now) (plain ty.now) st.old st.old (λ zero. gives_value zero st.old give) (constructs (Q.queries q.now) CreateOf give) ≡ gives_by out st.new printed.new.items give) }
{
    let copy = ty.copy(alloc)?;
    let own = without_modifiers(copy);
    let out = creates(alloc, q, CoreCall::CreateOf, false, &own, &[], st, printed);
    drop(own);
    out
}

/// Activator.CreateInstance<T>(), with T.
#[tactic(auto, unfolding(rules::specs::step_rules::Core::create_of_form, rules::specs::step_rules::CoreMaking::create_of_with))]
pub fn create_of<Q: Answers>(
    alloc: Global,
    q: &Q,
    targs: &[TypeExpr],
    args: &[Value],
    st: &mut State,
    printed: &mut Vec<u8>,
) -> Result<CoreOut, NoMemory>
    requires { printed.old.items ≡ [] }
    ensures { IfOk result (λ out. (give : Gives) → create_of_form targs.now (Q.queries q.now) args.now st.old give ≡ gives_by out st.new printed.new.items give) }
{
    let [ty] = targs else {
        return Ok(stuck_member(st));
    };
    let [] = args else {
        return Ok(stuck_member(st));
    };
    creates_own(alloc, q, ty, st, printed)
}
