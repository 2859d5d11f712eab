//! Laws on what is left where exactly what is marked is kept: it can be written, its file loads, links and runs as the files of its
//! inputs do (`trim_behaves` joins them). Each public function has a law as its contract.
#![tactic(auto)]

pub mod added_names;
pub mod flagged_marks;
pub mod kept_parts;
pub mod marked_loads;
pub mod marked_merge_rules;
pub mod marked_mets;
pub mod member_parents;
pub mod merged_back;
pub mod merged_code;
pub mod merged_fields;
pub mod merged_modules;
pub mod merged_scopes;
pub mod merged_uses;
pub mod spelled_parts;
pub mod spelled_trims;
pub mod trim_behaves;
pub mod trim_moves;
pub mod trim_runs;
