//! Places in the table of the core library.

ghost use Rattle.std.specs.Prelude.{◌≡◌, ◌<◌, length, position, IfSome};
ghost use Rattle.il_base.specs.declared.core_table.names.CoreName.TheVariants as core;
ghost use Rattle.rules.specs.view_rules.Members.{is_type_named, core_type_row, object_method};

use il_base::core_table::{CoreName, CoreType, TYPES};

/// Whether a type has a name.
fn is_type_named(name: CoreName, ty: &CoreType) -> bool
    ensures { result ≡ is_type_named name ty.now }
{
    ty.name.text() == name.text()
}

/// The place of the first type with a name.
fn type_place(name: CoreName, types: &[CoreType]) -> Option<usize>
    ensures place { result ≡ position (is_type_named name) types.now }
    ensures within { IfSome result (λ at. at < length types.now) }
{
    types.iter().position(|ty| is_type_named(name, ty))
}

/// The row, from 0, of a type of the core library by its name.
#[tactic(auto, unfolding(rules::specs::view_rules::Members::core_type_row))]
pub fn core_type_row(name: CoreName) -> u32
    ensures { result ≡ core_type_row name }
{
    match type_place(name, &TYPES) {
        None => 0,
        Some(row) => row as u32,
    }
}

/// Object.ToString() among the methods of the table, from 0.
#[tactic(auto, unfolding(rules::specs::view_rules::Members::object_method, il_base::specs::core_table::Members::methods_of, il_base::specs::core_table::Names::text_of))]
pub fn to_string_row() -> u32
    ensures { result ≡ object_method core.ToString }
{
    1
}

/// Object.Equals(object) among the methods of the table, from 0.
#[tactic(auto, unfolding(rules::specs::view_rules::Members::object_method, il_base::specs::core_table::Members::methods_of, il_base::specs::core_table::Names::text_of))]
pub fn equals_row() -> u32
    ensures { result ≡ object_method core.Equals }
{
    2
}
