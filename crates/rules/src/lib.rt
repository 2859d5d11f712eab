//! Definitions, a topic a module: the types and members that references name (`link_rules`, `type_rules`), the steps of the machine
//! and the answers of a world to it (`step_rules`, `view_rules`), the items that a program needs (`mark_rules`), and the record
//! that a merge leaves (`merge_rules`). Further topics are the record of a file and the file of a record (`record_format`,
//! `record_layout`, `file_layout`), and how two worlds correspond where one has the kept rows of the other (`change_rules`,
//! `world_change_rules`, `merged_world_rules`). Contracts of all crates cite them.
#![tactic(auto)]

pub mod change_rules;
pub mod file_layout;
pub mod flow_rules;
pub mod link_rules;
pub mod mark_rules;
pub mod merge_rules;
pub mod merged_world_rules;
pub mod record_format;
pub mod record_layout;
pub mod site_rules;
pub mod step_rules;
pub mod type_rules;
pub mod view_rules;
pub mod world_change_rules;
