//! The machine (I.12, III), as definitions in `specs/step_rules/`: `Queries` are the questions of a step to a world, `Step` is a
//! step, which runs one instruction, and `Run` is the run of a program. The functions are laws that state examples.

ghost use Rattle.rules.specs.step_rules.Examples.{Adds, DividesByZero, DividesLeast, Converts, Shifts, Branches, Calls, Prints, BadOperand, EmptyStack, Makes, Creates, CreatesZero, CreatesNothing, StoresField, LoadsField, FieldOfNull, Addresses, Points, NewArrays, StoresElement, Mismatches, Boxes, Casts, Catches, Leaves, EndsFinally, FallsOut};

/// Arithmetic, conversions and shifts (III.3): small programs and steps, and what each comes to. It does nothing.
pub fn arithmetic()
    ensures sum { Adds }
    ensures by_zero { DividesByZero }
    ensures least { DividesLeast }
    ensures converted { Converts }
    ensures shifted { Shifts }
{}

/// Branches, calls and what is printed (III.3): small programs and steps, and what each comes to. It does nothing.
pub fn control()
    ensures branches { Branches }
    ensures calls { Calls }
    ensures prints { Prints }
    ensures operand { BadOperand }
    ensures stack { EmptyStack }
{}

/// Objects, fields and pointers (III.3, III.4): small programs and steps, and what each comes to. It does nothing.
pub fn places()
    ensures makes { Makes }
    ensures stores { StoresField }
    ensures loads { LoadsField }
    ensures null { FieldOfNull }
    ensures addresses { Addresses }
    ensures pointers { Points }
{}

/// Activator.CreateInstance(Type) (II.10.5.1): steps, and what each comes to. It does nothing.
pub fn creation()
    ensures constructor { Creates }
    ensures zero { CreatesZero }
    ensures none { CreatesNothing }
{}

/// Arrays (III.4): small programs and steps, and what each comes to. It does nothing.
pub fn arrays()
    ensures new { NewArrays }
    ensures stores { StoresElement }
    ensures covariance { Mismatches }
{}

/// Boxes and casts (III.4): small programs and steps, and what each comes to. It does nothing.
pub fn types()
    ensures boxes { Boxes }
    ensures casts { Casts }
{}

/// Handlers (I.12.4.2): small programs and steps, and what each comes to. It does nothing.
pub fn exceptions()
    ensures catches { Catches }
    ensures leaves { Leaves }
    ensures ends { EndsFinally }
    ensures falls { FallsOut }
{}
