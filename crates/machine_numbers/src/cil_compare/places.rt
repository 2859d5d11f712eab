//! Comparisons of references and pointers (III.1.5 table III.4).

ghost use Rattle.std.specs.Prelude.{◌≡◌};
ghost use Rattle.std.specs.Option.{option_map};
ghost use Rattle.std.specs.Cmp.Lexicographic.{pointwise};
ghost use Rattle.rules.specs.step_rules.Comparisons.{same_root, same_place, compared, compares_references};
ghost use Rattle.machine_numbers.specs.cil_compare.Tests.{compared_by, test_by};

use crate::cil_compare::test::Test;
use il_base::cil_values::{Path, Root, Value};

/// How two references or pointers compare.
#[derive(Clone, Copy)]
pub(crate) enum Relation {
    /// Whether they are the same, and whether the first is an object.
    References(bool, bool),
    /// Whether they lead to one place.
    Pointers(bool),
}

fn same_root(a: &Root, b: &Root) -> bool
    ensures { result ≡ same_root a.now b.now }
{
    match (a, b) {
        (Root::Arg(n, k), Root::Arg(m, l)) => *n == *m && *k == *l,
        (Root::Local(n, k), Root::Local(m, l)) => *n == *m && *k == *l,
        (Root::Boxed(a), Root::Boxed(b)) => *a == *b,
        (Root::Element(a, k), Root::Element(b, l)) => *a == *b && *k == *l,
        (Root::Field(a, f), Root::Field(b, g)) => *a == *b && f.0 == g.0,
        (Root::Static(f, e), Root::Static(g, d)) => f.0 == g.0 && e.get().is_same(d.get()),
        _ => false,
    }
}

/// Whether two pointers lead to one place. Their types aren't looked at.
#[tactic(auto, unfolding(rules::specs::step_rules::Comparisons::same_place))]
fn same_place(a: &Path, b: &Path) -> bool
    ensures { result ≡ same_place a.now b.now }
{
    same_root(&a.root, &b.root) && a.steps.as_slice() == b.steps.as_slice()
}

/// How two values compare as references or pointers. None for any others.
#[tactic(auto, unfolding(rules::specs::step_rules::Comparisons::compared))]
pub(crate) fn compared(a: &Value, b: &Value) -> Option<Relation>
    ensures { option_map compared_by result ≡ compared a.now b.now }
{
    match (a, b) {
        (Value::Null, Value::Null) => Some(Relation::References(true, false)),
        (Value::Null, Value::Object(_)) => Some(Relation::References(false, false)),
        (Value::Object(_), Value::Null) => Some(Relation::References(false, true)),
        (Value::Object(a), Value::Object(b)) => Some(Relation::References(*a == *b, true)),
        (Value::Pointer(p), Value::Pointer(o)) => {
            Some(Relation::Pointers(same_place(p.get(), o.get())))
        }
        (Value::Pointer(_), Value::Null) => Some(Relation::Pointers(false)),
        (Value::Null, Value::Pointer(_)) => Some(Relation::Pointers(false)),
        _ => None,
    }
}

/// Whether a test is true of two references or pointers. None where they don't allow it.
pub(crate) fn compares_references(t: Test, c: Relation) -> Option<bool>
    ensures { result ≡ compares_references (test_by t) (compared_by c) }
{
    match c {
        Relation::References(same, first) => match t {
            Test::Equal => Some(same),
            Test::Unequal => Some(!same),
            Test::GreaterUnsigned => Some(first && !same),
            Test::Less => None,
            Test::LessUnsigned => None,
            Test::Greater => None,
            Test::GreaterUnsignedNumbers => None,
            Test::AtLeast => None,
            Test::AtLeastUnsigned => None,
            Test::AtMost => None,
            Test::AtMostUnsigned => None,
        },
        Relation::Pointers(same) => match t {
            Test::Equal => Some(same),
            Test::Unequal => Some(!same),
            Test::Less => None,
            Test::LessUnsigned => None,
            Test::Greater => None,
            Test::GreaterUnsigned => None,
            Test::GreaterUnsignedNumbers => None,
            Test::AtLeast => None,
            Test::AtLeastUnsigned => None,
            Test::AtMost => None,
            Test::AtMostUnsigned => None,
        },
    }
}
