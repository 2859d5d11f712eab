//! The plain data of assemblies: identities, signatures, method bodies, and bytes read through a cursor.
//! Nothing goes in but bytes; each read gives the number that the bytes spell, as `specs/Bytes` defines it.
#![tactic(auto)]

mod bits;
pub mod blob_grammar;
mod body;
pub mod body_grammar;
mod boxed;
pub mod cil_values;
pub mod cli_format;
pub mod core_table;
mod cursor;
pub mod element;
pub mod field_flags;
pub mod first_places;
mod flags;
pub mod generic_flags;
mod ids;
pub mod impl_flags;
pub mod limit;
mod memory;
pub mod method_flags;
pub mod opcode;
pub mod outside;
pub mod param_flags;
pub mod reason;
pub mod semantics;
mod seq;
mod sig;
pub mod table;
pub mod type_flags;
pub mod world_model;

pub use bits::Bits;
pub use body::{Body, Form, Handler, Instr, Operand};
pub use boxed::Boxed;
pub use cursor::{Cursor, compressed_number, u8_at, u16_at, u32_at, u64_at};
pub use flags::{access_of, has_flag, has_type_flag};
pub use ids::{AsmId, BadAt, EventId, FieldId, ImplId, Item, MethodId, Place, PropId, TypeId};
pub use memory::NoMemory;
pub use seq::{Seq, Text, Units};
pub use sig::{MethodSig, Sig};
