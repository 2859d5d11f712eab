//! Custom attribute blobs and the type names in their texts: bytes or UTF-16 units go in, and the value that the
//! grammar has for them comes out, or the first byte that no value allows. Values are written in their shortest form.
#![tactic(auto)]

pub mod annotations;
mod args;
mod enums;
mod error;
mod kind;
mod kinds;
mod laws;
mod mark;
mod name;
mod put;
mod read;
mod text;
mod value;
mod write;

pub use error::AttrError;
pub use kind::ParamKind;
pub use laws::{values, written_is_read};
pub use name::{NameRead, TypeName, parse_name};
pub use read::read_attribute;
pub use value::{Arg, AttrValue, EnumSize, NamedArg};
pub use write::write_attribute;
