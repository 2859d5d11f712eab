//! The needs of a marked type, field, interface row, property, event or method, and the types that it shows, also where reflection may
//! reach it. In go a world with its tables (`mark_tables`) and a row; out come facts, as the rules of `mark_rules` list them.

pub mod code;
pub mod forms;
pub mod members;
pub mod methods;
pub mod reflected;
pub mod shown;
pub mod types;
