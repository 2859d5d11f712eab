//! Which attributes are copied whose constructor is in no input (II.22.10): in go the assemblies of a world, their index and a
//! MemberRef row, out comes whether the output may have it. `rules/specs/merge_rules/Attributes` defines it (`is_copied`).

pub mod copied;
mod definitions;
mod references;
