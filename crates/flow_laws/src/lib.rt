//! Laws: what rounds find of the flow of values in a body (`rules/specs/flow_rules/Rounds`) is what walks reach. Each public function
//! has a law as its contract, and does nothing.
#![tactic(auto)]

pub mod laws;
