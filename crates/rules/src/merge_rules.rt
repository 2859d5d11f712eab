//! The assembly that is left of several inputs, as definitions in `specs/merge_rules/`: which rows are kept and their new numbers,
//! the new names of types, the collision that refuses a merge, and the record that is left. The functions are laws that state
//! examples.

ghost use Rattle.rules.specs.merge_rules.Examples.{KeepsTypes, KeepsMethods, Renames, NoCollision, Collides, LeavesFields, LeavesMethods, LeavesEntry, Meets, RefersTo, WritesReferences, NamesAssemblies, MovesType, MovesOther};

/// Which rows of two small inputs are kept, and their names. It does nothing.
pub fn names()
    ensures types { KeepsTypes }
    ensures methods { KeepsMethods }
    ensures names { Renames }
    ensures without { NoCollision }
    ensures collision { Collides }
{}

/// The rows that are left of two small inputs. It does nothing.
pub fn rows()
    ensures field_rows { LeavesFields }
    ensures method_rows { LeavesMethods }
    ensures entry { LeavesEntry }
    ensures type_row { MovesType }
    ensures other_row { MovesOther }
{}

/// The references that two small inputs make. It does nothing.
pub fn references()
    ensures meets { Meets }
    ensures refers { RefersTo }
    ensures reference_rows { WritesReferences }
    ensures assemblies { NamesAssemblies }
{}
