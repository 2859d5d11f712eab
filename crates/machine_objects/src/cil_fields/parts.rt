//! Structs by their parts.

ghost use Rattle.std.specs.Prelude.{◌≡◌};
ghost use Rattle.std.specs.Option.{option_map};
ghost use Rattle.rules.specs.step_rules.Stores.{parts_of};
ghost use Rattle.machine_objects.specs.cil_fields.Structs.{parts_by};

use il_base::Seq;
use il_base::cil_values::Value;
use il_base::world_model::TypeExpr;

/// A struct, by its closed type and its cells.
#[derive(Clone, Copy)]
pub struct Parts<'a> {
    pub of: &'a TypeExpr,
    pub cells: &'a Seq<Value>,
}

/// The parts of a struct. None for any other value.
#[tactic(auto, unfolding(rules::specs::step_rules::Stores::parts_of))]
pub(crate) fn parts_of(v: &Value) -> Option<Parts<'_>>
    ensures { option_map parts_by result ≡ parts_of v.now }
{
    match v {
        Value::Struct(of, cells) => Some(Parts {
            of: of.get(),
            cells: cells.get(),
        }),
        Value::Null => None,
        Value::I4(_) => None,
        Value::I8(_) => None,
        Value::Native(_) => None,
        Value::Object(_) => None,
        Value::Pointer(_) => None,
        Value::Handle(_) => None,
        Value::FieldHandle(_) => None,
    }
}
