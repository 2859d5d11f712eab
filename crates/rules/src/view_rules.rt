//! The answers of a linked world to the questions of the machine, as definitions in `specs/view_rules/`: bodies with their
//! references resolved, the contents of types, initializers, virtual calls, members of the core library. The functions are laws
//! that state examples.

pub mod seen_flags;

ghost use Rattle.rules.specs.view_rules.Examples.{HasBytes, HasNone, ClassIsReference, StructHasCells, EnumIsNumber, EnumOfEnum, TooDeep, NumberIsThere};

/// Examples: the initial values of fields of a small input. It does nothing.
pub fn fields()
    ensures has_bytes { HasBytes }
    ensures has_none { HasNone }
{}

/// Examples: the shapes of types of a small input. It does nothing.
pub fn shapes()
    ensures class_shape { ClassIsReference }
    ensures struct_shape { StructHasCells }
    ensures enum_shape { EnumIsNumber }
    ensures enum_of_enum { EnumOfEnum }
    ensures too_deep { TooDeep }
    ensures number { NumberIsThere }
{}
