//! Laws: where the assemblies of one world have the kept rows of another (`world_change_rules`), virtual calls of class slots run
//! the same methods, under new numbers (II.10.3, II.12.2). Nothing goes in or comes out.

pub mod laws;
