//! Comparisons of numbers.

ghost use Rattle.std.specs.Prelude.{◌≡◌, []};
ghost use Rattle.rules.specs.step_rules.Queries.{Queries};
ghost use Rattle.rules.specs.step_rules.CoreWords.{Gives};
ghost use Rattle.rules.specs.step_rules.CoreObjects.{int_compare_form, int_equals_form, is_boxed_number, is_number, number_is_form, order_of, same_number};
ghost use Rattle.il_base.specs.world_model.Exprs.{same_expr};
ghost use Rattle.il_base.specs.declared.world_model.expr.TypeExpr as expr;
ghost use Rattle.std.specs.Option.{option_copied};
ghost use Rattle.cil_core.specs.cil_members.Outs.{gives_by};

use crate::cil_members::{CoreOut, gives_int, gives_truth, stuck_member};
use il_base::cil_values::{Obj, State, Value};
use il_base::world_model::TypeExpr;
use machine_words::cil_stores::held_number;

/// Int32.Equals(int).
#[tactic(auto, unfolding(rules::specs::step_rules::CoreObjects::int_equals_form))]
pub fn int_equals(args: &[Value], st: &State) -> CoreOut
    ensures { (q : Queries) (give : Gives) → gives_by result st.now [] give ≡ int_equals_form q args.now st.now give }
{
    match args {
        [Value::I4(a), Value::I4(b)] => gives_truth(st, *a == *b),
        _ => stuck_member(st),
    }
}

/// -1, 0 or 1.
fn order_of(a: i32, b: i32) -> i32
    ensures { result ≡ order_of a b }
{
    if a < b {
        -1
    } else if a == b {
        0
    } else {
        1
    }
}

/// Int32.CompareTo(int).
#[tactic(auto, unfolding(rules::specs::step_rules::CoreObjects::int_compare_form))]
pub fn int_compare(args: &[Value], st: &State) -> CoreOut
    ensures { (q : Queries) (give : Gives) → gives_by result st.now [] give ≡ int_compare_form q args.now st.now give }
{
    match args {
        [Value::I4(a), Value::I4(b)] => gives_int(st, order_of(*a, *b)),
        _ => stuck_member(st),
    }
}

fn same_number(a: Option<i64>, b: Option<i64>) -> bool
    ensures { result ≡ same_number a b }
{
    match (a, b) {
        (Some(a), Some(b)) => a == b,
        (Some(_), None) => false,
        (None, Some(_)) => false,
        (None, None) => false,
    }
}

fn is_prim(ty: &TypeExpr, code: u8) -> bool
    ensures { result ≡ same_expr ty.now (expr.Prim code) }
{
    ty.is_same(&TypeExpr::Prim(code))
}

/// Whether an object is a box of the type with the same number.
fn is_boxed_number(code: u8, v: &Value, o: Option<&Obj>) -> bool
    ensures { result ≡ is_boxed_number code v.now (option_copied o.entry) }
{
    match o {
        None => false,
        Some(Obj::Boxed { of, value }) => is_prim(of, code)
            && same_number(held_number(v), held_number(value)),
        Some(Obj::Instance { of: _, cells: _ }) => false,
        Some(Obj::Array { of: _, cells: _ }) => false,
        Some(Obj::Str(_)) => false,
        Some(Obj::TypeOf(_)) => false,
        Some(Obj::Member(_, _)) => false,
    }
}

/// Whether an argument is a box of the type with the same number.
fn is_number(code: u8, st: &State, v: &Value, w: &Value) -> bool
    ensures { result ≡ is_number code st.now v.now w.now }
{
    match w {
        Value::Object(at) => is_boxed_number(code, v, st.heap.get(*at)),
        Value::Null => false,
        Value::I4(_) => false,
        Value::I8(_) => false,
        Value::Native(_) => false,
        Value::Pointer(_) => false,
        Value::Struct(_, _) => false,
        Value::Handle(_) => false,
        Value::FieldHandle(_) => false,
    }
}

/// Equals(object) of Boolean, Char or an integer, by its element type (II.23.1.16).
#[tactic(auto, unfolding(rules::specs::step_rules::CoreObjects::number_is_form))]
pub fn number_is(code: u8, args: &[Value], st: &State) -> CoreOut
    ensures { (q : Queries) (give : Gives) → gives_by result st.now [] give ≡ number_is_form code q args.now st.now give }
{
    match args {
        [v, w] => gives_truth(st, is_number(code, st, v, w)),
        _ => stuck_member(st),
    }
}
