//! How queries and states change with new numbers of types, methods and fields, as definitions alone. `specs/change_rules/Agree`
//! says when one world answers as another does on kept items, `specs/change_rules/Lock` how a step in one corresponds to the step
//! in the other.
