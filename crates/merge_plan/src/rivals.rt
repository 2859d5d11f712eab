//! Types by their full names.

ghost use Rattle.std.specs.Prelude.{◌≡◌, ℕ, List, ◌∷◌, [], ◌++◌, ◌==◌, bytes_eq, false, find, not, OnOk, if◌then◌else◌};
ghost use Rattle.merge_plan.specs.Rivals.{named_in};

use il_base::{NoMemory, Seq};
use rules::link_rules::RowAt;
use std::alloc::Global;
use std::collections::HashMap;

/// Takes the types with a name out.
fn take_types<'a>(
    alloc: Global,
    types: &mut HashMap<&'a [u8], Seq<RowAt>>,
    name: &'a [u8],
) -> Seq<RowAt>
    ensures taken { result ≡ named_in types.old name.now }
    ensures others { (q : List ℕ) → bytes_eq name.now q ≡ false → named_in types.new q ≡ named_in types.old q }
{
    match types.remove(name) {
        Some(of_name) => of_name,
        None => Seq::new(alloc),
    }
}

/// Puts a type at the end of those with its name.
pub(crate) fn put_type<'a>(
    alloc: Global,
    types: &mut HashMap<&'a [u8], Seq<RowAt>>,
    name: &'a [u8],
    at: RowAt,
) -> Result<(), NoMemory>
    ensures { OnOk result ((q : List ℕ) → named_in types.new q ≡ (if bytes_eq name.now q then named_in types.old q ++ at ∷ [] else named_in types.old q)) }
{
    let mut of_name = take_types(alloc, types, name);
    of_name.push(at)?;
    types.insert(name, of_name)?;
    Ok(())
}

/// The first of these rows that is of another assembly.
fn of_another(rows: &[RowAt], asm: u32) -> Option<RowAt>
    ensures { result ≡ find (λ at. not (at.asm == asm)) rows.now }
{
    for at in rows {
        if at.asm != asm {
            return Some(*at);
        }
    }
    None
}

/// The first type with a name that is of another assembly.
pub(crate) fn rival_named(
    types: &HashMap<&[u8], Seq<RowAt>>,
    name: &[u8],
    asm: u32,
) -> Option<RowAt>
    ensures { result ≡ find (λ at. not (at.asm == asm)) (named_in types.now name.now) }
{
    match types.get(name) {
        Some(of_name) => of_another(of_name.as_slice(), asm),
        None => None,
    }
}
