//! Laws on what a merge leaves, whatever is kept: it is a record that can be laid out and links, its members go with their types, its
//! tokens and signatures name what they named, and its rows have their new numbers. Each public function has a law as its contract.
#![tactic(auto)]

pub mod merged_links;
pub mod merged_loads;
pub mod merged_owners;
pub mod merged_places;
pub mod merged_record;
pub mod merged_references;
pub mod merged_rows_move;
pub mod merged_signatures;
pub mod merged_standing;
pub mod merged_tokens;
