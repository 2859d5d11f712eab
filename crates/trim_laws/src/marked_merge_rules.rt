//! A merge that keeps exactly the marked items, and properties of such merges, as definitions alone:
//! `specs/marked_merge_rules/Merges` has the merge and its flags, `specs/marked_merge_rules/Reads` what its output's tokens name.
//! Nothing goes in or comes out.
