//! Laws: a world that has the kept rows of another answers a step as the other does (`rules/specs/change_rules/Agree`), so a run from a
//! kept entry is the run that it was. Nothing goes in or comes out.

pub mod laws;
