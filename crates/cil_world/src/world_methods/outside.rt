//! Members outside the profile, and those of the core library.

ghost use Rattle.std.specs.Prelude.{◌≡◌, suc, length, ◌==◌};
ghost use Rattle.std.specs.Option.{option_copied};
ghost use Rattle.rules.specs.link_rules.Members.{is_interface_row};
ghost use Rattle.rules.specs.type_rules.Rows.{type_row_at, is_module_type};
ghost use Rattle.rules.specs.mark_rules.Calls.{is_abstract_method};
ghost use Rattle.rules.specs.mark_rules.BadItems.{is_global, no_body, has_other_code, is_platform};
ghost use Rattle.mark_parts.specs.mark_tables.Assemblies.{recs_of, place_of};
ghost use Rattle.cil_world.specs.world_methods.Outside.{is_of_interface, is_run_there, is_bad_there};

use il_base::world_model::{AsmRec, MethodDefRow, TypeDefRow};
use il_base::{has_flag, has_type_flag, impl_flags, method_flags, type_flags};
use mark_parts::mark_rows::initializers::is_static;
use mark_parts::mark_tables::assembly::Assembly;
use rules::link_rules::RowAt;
use type_tables::member_search::linked::assembly_at;

/// Whether an assembly is the core library, the last of the world.
pub fn is_core(asm: &Assembly<'_>) -> bool
    ensures { result ≡ (suc (place_of asm.now) == length (recs_of asm.now)) }
{
    asm.scope.asm as usize + 1 == asm.scope.linked.all.len()
}

/// The row of a type.
pub fn type_row_at(all: &[AsmRec], at: RowAt) -> Option<&TypeDefRow>
    ensures { option_copied result ≡ type_row_at all.now at }
{
    match assembly_at(all, at.asm) {
        None => None,
        Some(rec) => rec.type_def.get(at.row as usize),
    }
}

/// Whether a type in a row is `<Module>` (II.22.37).
fn is_module_type(row: u32, t: &TypeDefRow) -> bool
    ensures { result ≡ is_module_type row t.now }
{
    row == 0 && t.name.as_slice() == b"<Module>".as_slice() && t.namespace.is_empty()
}

/// Whether the type of a member is `<Module>`: then it's a global one (II.15.1.2).
pub fn is_global(all: &[AsmRec], owner: Option<RowAt>) -> bool
    ensures { result ≡ is_global all.now owner }
{
    match owner {
        None => false,
        Some(t) => match type_row_at(all, t) {
            None => false,
            Some(row) => is_module_type(t.row, row),
        },
    }
}

/// Whether a type is an interface (II.23.1.15).
fn is_interface_row(t: &TypeDefRow) -> bool
    ensures { result ≡ is_interface_row t.now }
{
    has_type_flag(t.flags, type_flags::INTERFACE)
}

/// Whether the type of a method is an interface.
fn is_of_interface(all: &[AsmRec], owner: Option<RowAt>) -> bool
    ensures { result ≡ is_of_interface all.now owner }
{
    match owner {
        None => false,
        Some(t) => match type_row_at(all, t) {
            None => false,
            Some(row) => is_interface_row(row),
        },
    }
}

fn no_body(m: &MethodDefRow) -> bool
    ensures { result ≡ no_body m.now }
{
    match &m.body {
        Some(_) => false,
        None => true,
    }
}

/// Whether a method is static or has a body.
fn is_run_there(m: &MethodDefRow) -> bool
    ensures { result ≡ is_run_there m.now }
{
    is_static(m) || !no_body(m)
}

/// Whether a method is one of an interface that is static or has a body.
pub(crate) fn is_bad_there(all: &[AsmRec], owner: Option<RowAt>, m: &MethodDefRow) -> bool
    ensures { result ≡ is_bad_there all.now owner m.now }
{
    is_of_interface(all, owner) && is_run_there(m)
}

/// Whether a method's code is other than IL (II.23.1.11).
fn has_other_code(flags: u16) -> bool
    ensures { result ≡ has_other_code flags }
{
    has_flag(flags, impl_flags::NATIVE) || has_flag(flags, impl_flags::OPTIL)
}

fn is_abstract_method(m: &MethodDefRow) -> bool
    ensures { result ≡ is_abstract_method m.now }
{
    has_flag(m.flags, method_flags::ABSTRACT)
}

/// Whether a method is a platform call, has code that isn't managed IL, or has none and isn't abstract (II.15.4.3).
pub(crate) fn is_platform(m: &MethodDefRow) -> bool
    ensures { result ≡ is_platform m.now }
{
    has_flag(m.flags, method_flags::PINVOKE_IMPL)
        || has_other_code(m.impl_flags)
        || has_flag(m.impl_flags, impl_flags::UNMANAGED)
        || (no_body(m) && !is_abstract_method(m))
}
