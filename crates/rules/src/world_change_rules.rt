//! The correspondence of two worlds where one has the kept rows of the other, under new numbers, as definitions alone.
//! `specs/world_change_rules/Rows` says what each kept row has there, `specs/world_change_rules/Kept` which rows are kept with
//! others. Nothing goes in or comes out.
