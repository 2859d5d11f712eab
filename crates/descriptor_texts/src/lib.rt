//! The texts that descriptors and dependencies name types and members by, and what they are compared with: `name_texts`, `doc_texts`,
//! `sig_texts`, `slashed_names`; the types that they name (`descriptor_types`, `nested_types`).
#![tactic(auto)]

pub mod descriptor_types;
pub mod doc_texts;
pub mod name_texts;
pub mod nested_types;
pub mod sig_texts;
pub mod slashed_names;
