//! The flags of a method that its slot goes by (II.23.1.10).

ghost use Rattle.std.specs.Prelude.{◌≡◌};
ghost use Rattle.rules.specs.type_rules.Slots.{is_static, is_virtual, is_new_slot};

use il_base::world_model::MethodDefRow;
use il_base::{has_flag, method_flags};

/// Static, of a method's flags (II.23.1.10).
pub fn is_static(m: &MethodDefRow) -> bool
    ensures { result ≡ is_static m.now }
{
    has_flag(m.flags, method_flags::STATIC)
}

/// Virtual.
pub fn is_virtual(m: &MethodDefRow) -> bool
    ensures { result ≡ is_virtual m.now }
{
    has_flag(m.flags, method_flags::VIRTUAL)
}

/// Newslot: always a slot of its own.
pub fn is_new_slot(m: &MethodDefRow) -> bool
    ensures { result ≡ is_new_slot m.now }
{
    has_flag(m.flags, method_flags::NEW_SLOT)
}
