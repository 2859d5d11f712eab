//! Calls, new objects and returns (III.3.19, III.4.2, III.4.21, III.3.57): `cil_calls`, `cil_making`, `cil_returns`, over `cil_invoking`.
#![tactic(auto)]

pub mod cil_calls;
pub mod cil_invoking;
pub mod cil_making;
pub mod cil_returns;
