//! The data of the machine (I.12): values, objects and places; code with its references resolved; frames and the state.
//! Contracts see each as data that holds no pointer, so equal values are equal.

mod copies;
mod core_call;
mod definition;
mod end;
mod frame;
mod heap;
mod layout;
mod object;
mod path;
mod resolved;
mod sought;
mod stack;
mod state;
mod value;

pub use core_call::{CoreCall, MemberKind, Printed};
pub use definition::{FieldDef, First, Head, Method, PropertyDef, Signature};
pub use end::End;
pub use frame::{Frame, Prefix, Reason, Running, Unwinding, Waits};
pub use heap::Heap;
pub use layout::{Cell, Layout, Shape};
pub use object::Obj;
pub use path::{Path, Root};
pub use resolved::{Clause, ClauseKind, Code, Instruction, Use};
pub use sought::Sought;
pub use stack::Stack;
pub use state::{Global, Init, Started, State};
pub use value::Value;
