//! Comparisons of numbers (III.1.5 table III.4).

ghost use Rattle.std.specs.Prelude.{◌≡◌};
ghost use Rattle.std.specs.Int.{w32, w64};
ghost use Rattle.rules.specs.step_rules.Comparisons.{compares};
ghost use Rattle.machine_numbers.specs.cil_compare.Tests.{holds, order, test_by};

/// What a comparison asks of the lower operand and the upper one.
#[derive(Clone, Copy)]
pub enum Test {
    Equal,
    Unequal,
    Less,
    LessUnsigned,
    Greater,
    /// `cgt.un`, which also asks whether a reference isn't null.
    GreaterUnsigned,
    /// `bgt.un`.
    GreaterUnsignedNumbers,
    AtLeast,
    AtLeastUnsigned,
    AtMost,
    AtMostUnsigned,
}

/// How two numbers compare: as signed ones, and as unsigned ones (`below`, `above`).
#[derive(Clone, Copy)]
pub(crate) struct Order {
    pub equal: bool,
    pub less: bool,
    pub greater: bool,
    pub below: bool,
    pub above: bool,
}

fn order32(a: i32, b: i32) -> Order
    ensures { result ≡ order w32 a b }
{
    Order {
        equal: a == b,
        less: a < b,
        greater: b < a,
        below: a.cast_unsigned() < b.cast_unsigned(),
        above: b.cast_unsigned() < a.cast_unsigned(),
    }
}

fn order64(a: i64, b: i64) -> Order
    ensures { result ≡ order w64 a b }
{
    Order {
        equal: a == b,
        less: a < b,
        greater: b < a,
        below: a.cast_unsigned() < b.cast_unsigned(),
        above: b.cast_unsigned() < a.cast_unsigned(),
    }
}

fn holds(t: Test, o: Order) -> bool
    ensures { result ≡ holds t o }
{
    match t {
        Test::Equal => o.equal,
        Test::Unequal => !o.equal,
        Test::Less => o.less,
        Test::LessUnsigned => o.below,
        Test::Greater => o.greater,
        Test::GreaterUnsigned => o.above,
        Test::GreaterUnsignedNumbers => o.above,
        Test::AtLeast => !o.less,
        Test::AtLeastUnsigned => !o.below,
        Test::AtMost => !o.greater,
        Test::AtMostUnsigned => !o.above,
    }
}

/// Whether a test is true of two 32-bit numbers.
pub(crate) fn compares32(t: Test, a: i32, b: i32) -> bool
    ensures { result ≡ compares (test_by t) w32 a b }
{
    holds(t, order32(a, b))
}

/// Whether a test is true of two 64-bit numbers.
pub(crate) fn compares64(t: Test, a: i64, b: i64) -> bool
    ensures { result ≡ compares (test_by t) w64 a b }
{
    holds(t, order64(a, b))
}
