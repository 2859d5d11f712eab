//! Questions on worlds made by hand: rows as C# would have them, and what .NET answers.

mod build;
mod classes;
mod cycles;
mod generics;
mod interfaces;
mod links;
mod members;
mod names;
mod subtyping;
