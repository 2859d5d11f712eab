//! Which members of a type an annotation keeps: the set of `DynamicallyAccessedMembersAttribute`'s kinds, a number in, a set
//! out, as `specs/annotations/Kinds` defines it.

mod dam;

pub use dam::Dam;
