//! Frames and exceptions (I.12.4): how methods are entered (`cil_frames`), which method a virtual call runs (`cil_dispatch`), the search
//! for a handler (`cil_raising`), and the instructions of exceptions (`cil_throws`).
#![tactic(auto)]

pub mod cil_dispatch;
pub mod cil_frames;
pub mod cil_raising;
pub mod cil_throws;
