//! Laws, which are proved statements on definitions alone, that other laws and code rest on: on links (`link_laws`), on types and the
//! walks over them (`type_laws`, `walk_laws`), on marking (`known_laws`), on worlds and what is wrong with them (`world_laws`,
//! `flaw_laws`), and on values that move (`change_laws`). Each public function has a law as its contract, and does nothing.
#![tactic(auto)]

pub mod change_laws;
pub mod flaw_laws;
pub mod known_laws;
pub mod link_laws;
pub mod type_laws;
pub mod walk_laws;
pub mod world_laws;
