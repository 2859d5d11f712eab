//! Laws: where the assemblies of one world have the kept rows of another (`world_change_rules`), it answers the machine as the
//! other does, under new numbers (`rules/specs/change_rules/Agree`). Nothing goes in or comes out.

pub mod laws;
