//! The needs of virtual methods: the methods and declarations that a method overrides, and the methods that a virtual call may run. In
//! go a world with its tables (`mark_tables`), the slots of its methods (`virtual_calls`) and rows; out come facts, as the rules of
//! `mark_rules` list them. `implied` has the interfaces that a type implies.

pub mod abstract_slots;
pub mod class_calls;
pub mod declarations;
pub mod found;
pub mod implied;
pub mod interface_calls;
pub mod overrides;
