//! Laws: of two worlds, of which one has the kept rows of the other, both answer alike (`query_laws`, `dispatch_laws`, `subtype_laws`),
//! so each form of an instruction does the same in both (the `lock_` modules), and a run does (`lock_steps`, `agree_laws`); and what is
//! marked keeps all that this asks for (the `marked_` modules, `closed_laws`). Each public function has a law as its contract.
#![tactic(auto)]

pub mod agree_laws;
pub mod closed_laws;
pub mod dispatch_laws;
pub mod lock_calls;
pub mod lock_fields;
pub mod lock_frames;
pub mod lock_members;
pub mod lock_numbers;
pub mod lock_places;
pub mod lock_steps;
pub mod lock_throwing;
pub mod lock_types;
pub mod lock_words;
pub mod marked_call_laws;
pub mod marked_code_laws;
pub mod marked_laws;
pub mod query_laws;
pub mod subtype_laws;
