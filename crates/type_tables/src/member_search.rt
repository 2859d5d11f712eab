//! The search for members of types of several assemblies, by the links of type tokens. It needs the definition and the base of a
//! type, and signatures with their types; a member is found by its name and signature, in a type alone or also in its bases.

pub mod bases;
pub mod counted;
pub mod found;
pub mod homes;
pub mod linked;
pub mod members;
pub mod method_types;
pub mod names;
pub mod own_types;
pub mod owners;
pub mod params;
