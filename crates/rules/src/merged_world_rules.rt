//! The world of a merge's output, compared with that of its inputs, as definitions alone: `specs/merged_world_rules/Merge` is the
//! merge with its properties, `specs/merged_world_rules/NewNumbers` the new numbers and places of kept rows. Nothing goes in or
//! comes out.
