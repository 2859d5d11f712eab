//! Laws: where the assemblies of one world have the kept rows of another (`world_change_rules`), kept types can stand for the
//! same types (I.8.7), and choose the same interface instances (II.12.2), under new numbers. Nothing goes in or comes out.

pub mod laws;
