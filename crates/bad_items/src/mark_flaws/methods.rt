//! What is wrong with a method (II.15.4.3, II.12.2, II.15.1.2).

ghost use Rattle.std.specs.Prelude.{◌≡◌, ◌++◌, IfOk, OnOk};
ghost use Rattle.std.specs.List.{list_any};
ghost use Rattle.rules.specs.link_rules.Cycles.{listed};
ghost use Rattle.rules.specs.link_rules.Members.{is_interface_row};
ghost use Rattle.rules.specs.type_rules.Rows.{type_row_at};
ghost use Rattle.rules.specs.type_rules.Slots.{type_of_method};
ghost use Rattle.rules.specs.mark_rules.Calls.{is_abstract_method};
ghost use Rattle.rules.specs.mark_rules.BadItems.{no_body, has_other_code, is_platform, is_interface_body, is_global, body_flaws, method_flaws};
ghost use Rattle.mark_parts.specs.mark_tables.Assemblies.{all_of, rec_of, IsAssembly, IsMarker};
ghost use Rattle.bad_items.specs.mark_flaws.Rows.{form_flaws};

use crate::mark_flaws::flaws::Flaws;
use crate::mark_flaws::generics::add_variance;
use crate::mark_flaws::globals::is_module_at;
use il_base::world_model::{AsmRec, Known, MethodDefRow, TypeDefRow, token_of};
use il_base::{
    NoMemory, has_flag, has_type_flag, impl_flags, method_flags, outside, table, type_flags,
};
use mark_parts::mark_rows::initializers::is_static;
use mark_parts::mark_tables::assembly::Assembly;
use mark_parts::mark_tables::marker::Marker;
use rules::link_rules::RowAt;
use type_tables::methods::type_of_method;

/// Abstract, of a method's flags (II.23.1.10).
fn is_abstract_method(m: &MethodDefRow) -> bool
    ensures { result ≡ is_abstract_method m.now }
{
    has_flag(m.flags, method_flags::ABSTRACT)
}

fn no_body(m: &MethodDefRow) -> bool
    ensures { result ≡ no_body m.now }
{
    match &m.body {
        Some(_) => false,
        None => true,
    }
}

/// A code type other than IL (II.23.1.11).
fn has_other_code(flags: u16) -> bool
    ensures { result ≡ has_other_code flags }
{
    has_flag(flags, impl_flags::NATIVE) || has_flag(flags, impl_flags::OPTIL)
}

/// Whether a method is a platform call, has code that isn't managed IL, or has no body where it isn't abstract.
fn is_platform(m: &MethodDefRow) -> bool
    ensures { result ≡ is_platform m.now }
{
    has_flag(m.flags, method_flags::PINVOKE_IMPL)
        || has_other_code(m.impl_flags)
        || has_flag(m.impl_flags, impl_flags::UNMANAGED)
        || (no_body(m) && !is_abstract_method(m))
}

/// Interface, of a type's flags (II.23.1.15).
fn is_interface_row(t: &TypeDefRow) -> bool
    ensures { result ≡ is_interface_row t.now }
{
    has_type_flag(t.flags, type_flags::INTERFACE)
}

/// Whether a row is an interface's.
fn is_interface_at(all: &[AsmRec], t: RowAt) -> bool
    ensures { result ≡ list_any is_interface_row (listed (type_row_at all.now t)) }
{
    match all.get(t.asm as usize) {
        Some(rec) => match rec.type_def.get(t.row as usize) {
            Some(row) => is_interface_row(row),
            None => false,
        },
        None => false,
    }
}

/// Whether the type of a method is an interface.
fn in_interface(marker: &Marker<'_>, at: RowAt) -> Result<bool, NoMemory>
    requires { IsMarker marker.now }
    ensures { IfOk result (λ is. is ≡ list_any (λ t. list_any is_interface_row (listed (type_row_at (all_of marker.now) t))) (listed (type_of_method (all_of marker.now) at))) }
{
    match type_of_method(&marker.tables, at) {
        Ok(Some(t)) => Ok(is_interface_at(marker.tables.world.recs.as_slice(), t)),
        Ok(None) => Ok(false),
        Err(error) => Err(error),
    }
}

/// Whether a method of an interface is static or has a body.
fn is_interface_body(marker: &Marker<'_>, at: RowAt, m: &MethodDefRow) -> Result<bool, NoMemory>
    requires { IsMarker marker.now }
    ensures { IfOk result (λ is. is ≡ is_interface_body (all_of marker.now) at m.now) }
{
    let within = in_interface(marker, at)?;
    Ok(within && (is_static(m) || !no_body(m)))
}

/// Whether the type of a method is `<Module>`.
fn is_global(marker: &Marker<'_>, at: RowAt) -> Result<bool, NoMemory>
    requires { IsMarker marker.now }
    ensures { IfOk result (λ is. is ≡ is_global (all_of marker.now) (type_of_method (all_of marker.now) at)) }
{
    match type_of_method(&marker.tables, at) {
        Ok(Some(t)) => Ok(is_module_at(marker.tables.world.recs.as_slice(), t)),
        Ok(None) => Ok(false),
        Err(error) => Err(error),
    }
}

/// Puts the flaw of a body that has no reading at the end.
#[tactic(auto, using(crate::proofs::lemmas::mark_flaws::Lists::none_more))]
fn add_body(at: RowAt, m: &MethodDefRow, flaws: &mut Flaws) -> Result<(), NoMemory>
    ensures { OnOk result (flaws.new ≡ flaws.old ++ body_flaws at m.now m.now.body) }
{
    match &m.body {
        None => Ok(()),
        Some(Known::Good(_)) => Ok(()),
        Some(Known::Bad(why)) => {
            let token = token_of(table::METHOD_DEF, at.row as usize)?;
            flaws.put(at, token, m.bad_at, *why)
        }
    }
}

/// Puts a body without a reading, a platform call and an interface's body at the end.
#[tactic(auto, using(crate::proofs::lemmas::mark_flaws::Lists::three_put))]
fn add_forms(
    marker: &Marker<'_>,
    at: RowAt,
    m: &MethodDefRow,
    flaws: &mut Flaws,
) -> Result<(), NoMemory>
    requires { IsMarker marker.now }
    ensures { OnOk result (flaws.new ≡ flaws.old ++ form_flaws (all_of marker.now) at m.now) }
{
    let body = is_interface_body(marker, at, m)?;
    let token = token_of(table::METHOD_DEF, at.row as usize)?;
    add_body(at, m, flaws)?;
    flaws.put_if(is_platform(m), at, token, outside::PLATFORM)?;
    flaws.put_if(body, at, token, outside::INTERFACE_BODY)
}

/// Puts what is wrong with a method at the end.
#[tactic(auto, using(crate::proofs::lemmas::mark_flaws::Lists::three_put))]
pub(crate) fn add_method(
    marker: &Marker<'_>,
    asm: &Assembly<'_>,
    at: RowAt,
    m: &MethodDefRow,
    flaws: &mut Flaws,
) -> Result<(), NoMemory>
    requires marker { IsMarker marker.now }
    requires asm { IsAssembly asm.now }
    ensures { OnOk result (flaws.new ≡ flaws.old ++ method_flaws (all_of marker.now) at (rec_of asm.now) m.now) }
{
    let global = is_global(marker, at)?;
    let token = token_of(table::METHOD_DEF, at.row as usize)?;
    add_forms(marker, at, m, flaws)?;
    flaws.put_if(global, at, token, outside::GLOBAL_MEMBER)?;
    add_variance(asm, at, token, flaws)
}
