//! Laws: in a linked world the walks that `link_rules` and `type_rules` make with a bound, over bases, interfaces, overrides
//! and enclosers, are whole.

pub mod laws;
