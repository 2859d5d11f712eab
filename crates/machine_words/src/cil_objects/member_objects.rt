//! The objects of members that reflection found.

ghost use Rattle.std.specs.Prelude.{◌≡◌, slice_get};
ghost use Rattle.std.specs.Option.{option_and_then, option_map};
ghost use Rattle.rules.specs.step_rules.CoreMembers.{member_in, member_by};
ghost use Rattle.machine_words.specs.cil_objects.Members.{seen_by};

use il_base::Item;
use il_base::cil_values::{Heap, Obj, State, Value};
use il_base::world_model::TypeExpr;

/// The member that an object stands for.
#[derive(Drop)]
pub struct SeenMember<'a> {
    pub item: Item,
    /// The type in which it was found.
    pub owner: &'a TypeExpr,
}

/// The member that an object stands for. None for another object.
fn member_in(o: &Obj) -> Option<SeenMember<'_>>
    ensures { option_map seen_by result ≡ member_in o.now }
{
    match o {
        Obj::Member(item, owner) => Some(SeenMember { item: *item, owner }),
        Obj::Instance { .. } => None,
        Obj::Boxed { .. } => None,
        Obj::Array { .. } => None,
        Obj::Str(_) => None,
        Obj::TypeOf(_) => None,
    }
}

fn member_at(heap: &Heap, at: u32) -> Option<SeenMember<'_>>
    ensures { option_map seen_by result ≡ option_and_then member_in (slice_get heap.now at) }
{
    match heap.get(at) {
        Some(o) => member_in(o),
        None => None,
    }
}

/// The member whose object a value names. None for any other value.
#[tactic(auto, unfolding(rules::specs::step_rules::CoreMembers::member_by))]
pub fn member_by<'a>(st: &'a State, v: &Value) -> Option<SeenMember<'a>>
    ensures { option_map seen_by result ≡ member_by st.now v.now }
{
    match v {
        Value::Object(at) => member_at(&st.heap, *at),
        Value::Null => None,
        Value::I4(_) => None,
        Value::I8(_) => None,
        Value::Native(_) => None,
        Value::Pointer(_) => None,
        Value::Struct(_, _) => None,
        Value::Handle(_) => None,
        Value::FieldHandle(_) => None,
    }
}
