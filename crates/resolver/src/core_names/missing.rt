//! The names that modifiers use and that the core library lacks.

ghost use Rattle.std.specs.Prelude.{◌≡◌, [], OnOk, IfOk, slice_get};
ghost use Rattle.std.specs.List.{list_any, flat_map};
ghost use Rattle.std.specs.Option.{option_and_then};
ghost use Rattle.il_base.specs.world_model.Tokens.{index_in};
ghost use Rattle.rules.specs.link_rules.Cycles.{add_new, add_all, listed};
ghost use Rattle.rules.specs.link_rules.CoreNames.{same_core_name, missing_name, missing_at, missing_in, missing_names};

use crate::core_names::forwarding::{is_missing, scope_assembly};
use crate::core_names::modifiers::modifiers_in;
use il_base::world_model::{AsmRec, TypeRefRow, index_in};
use il_base::{NoMemory, Seq, table};
use rules::link_rules::CoreTypeName;
use std::alloc::Global;

fn is_same(a: &CoreTypeName, namespace: &[u8], name: &[u8]) -> bool
    ensures { result ≡ same_core_name (record { namespace = namespace.now; name = name.now }) a.now }
{
    name == a.name.as_slice() && namespace == a.namespace.as_slice()
}

/// Whether a name is among these.
fn is_there(names: &[CoreTypeName], namespace: &[u8], name: &[u8]) -> bool
    ensures { result ≡ list_any (same_core_name (record { namespace = namespace.now; name = name.now })) names.now }
{
    for one in names {
        if is_same(one, namespace, name) {
            return true;
        }
    }
    false
}

/// Adds a name that isn't there yet.
fn add(
    alloc: Global,
    names: &mut Seq<CoreTypeName>,
    namespace: &[u8],
    name: &[u8],
) -> Result<(), NoMemory>
    ensures { OnOk result (names.new ≡ add_new same_core_name names.old (record { namespace = namespace.now; name = name.now })) }
{
    if is_there(names.as_slice(), namespace, name) {
        return Ok(());
    }
    names.push(CoreTypeName {
        namespace: Seq::from_slice(alloc, namespace)?,
        name: Seq::from_slice(alloc, name)?,
    })?;
    Ok(())
}

/// Adds the name in a TypeRef row that leads to the core library, where this has no type of the name; `a` is the place of the row's
/// assembly.
fn add_missing(
    alloc: Global,
    all: &[AsmRec],
    a: usize,
    rec: &AsmRec,
    row: &TypeRefRow,
    names: &mut Seq<CoreTypeName>,
) -> Result<(), NoMemory>
    ensures { OnOk result (names.new ≡ add_all same_core_name names.old (missing_name all.now a rec.now row.now)) }
{
    let scope = scope_assembly(all, a, rec, row);
    if is_missing(all, scope, row.namespace.as_slice(), row.name.as_slice()) {
        add(alloc, names, row.namespace.as_slice(), row.name.as_slice())?;
    }
    Ok(())
}

fn add_at(
    alloc: Global,
    all: &[AsmRec],
    a: usize,
    rec: &AsmRec,
    token: u32,
    names: &mut Seq<CoreTypeName>,
) -> Result<(), NoMemory>
    ensures { OnOk result (names.new ≡ add_all same_core_name names.old (missing_at all.now a rec.now token)) }
{
    let Some(at) = index_in(table::TYPE_REF, token) else {
        return Ok(());
    };
    match rec.type_ref.get(at as usize) {
        None => Ok(()),
        Some(row) => add_missing(alloc, all, a, rec, row, names),
    }
}

/// Adds the names that the modifiers of the assembly at a place use.
#[tactic(auto, using(crate::proofs::lemmas::core_names::Adding::add_all_step))]
fn add_in(
    alloc: Global,
    all: &[AsmRec],
    a: usize,
    rec: &AsmRec,
    names: &mut Seq<CoreTypeName>,
) -> Result<(), NoMemory>
    ensures { OnOk result (names.new ≡ add_all same_core_name names.old (missing_in all.now a rec.now)) }
{
    let found = modifiers_in(alloc, rec)?;
    let tokens = found.as_slice();
    for token in tokens {
        add_at(alloc, all, a, rec, *token, names)?;
    }
    Ok(())
}

/// The names that modifiers of these assemblies use and that the core library lacks, each once, as they are met. The last assembly
/// is the core library without added types.
#[tactic(auto, unfolding(rules::specs::link_rules::CoreNames::missing_names))]
pub fn missing_names(alloc: Global, all: &[AsmRec]) -> Result<Seq<CoreTypeName>, NoMemory>
    ensures { IfOk result (λ names. names ≡ missing_names all.now) }
{
    let mut names = Seq::new(alloc);
    for (a, rec) in all.iter().enumerate() {
        add_in(alloc, all, a, rec, &mut names)?;
    }
    Ok(names)
}
