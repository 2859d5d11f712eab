//! Laws on `link_rules` and `type_rules`: what the links of method tokens tell, and that the search for a subtype answers
//! as the relation has it.

pub mod laws;
