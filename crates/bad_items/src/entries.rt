//! An entry method that no type has.

ghost use Rattle.std.specs.Prelude.{◌≡◌, ◌++◌, OnOk};
ghost use Rattle.rules.specs.mark_rules.BadItems.{entry_flaws};
ghost use Rattle.mark_parts.specs.mark_tables.Assemblies.{all_of, IsMarker};
ghost use Rattle.bad_items.specs.Rows.{entry_flaw};

use crate::mark_flaws::flaws::Flaws;
use il_base::world_model::{BadKind, token_of};
use il_base::{NoMemory, table};
use mark_parts::mark_tables::marker::Marker;
use rules::link_rules::RowAt;
use type_tables::methods::type_of_method;

/// Puts the flaw of the entry method in a row at the end, if no type has it.
#[tactic(auto, using(crate::proofs::lemmas::mark_flaws::Lists::none_more))]
fn add_entry_at(marker: &Marker<'_>, at: RowAt, flaws: &mut Flaws) -> Result<(), NoMemory>
    requires { IsMarker marker.now }
    ensures { OnOk result (flaws.new ≡ flaws.old ++ entry_flaw (all_of marker.now) at) }
{
    match type_of_method(&marker.tables, at) {
        Ok(Some(_)) => Ok(()),
        Ok(None) => {
            let token = token_of(table::METHOD_DEF, at.row as usize)?;
            flaws.put(at, token, 0, BadKind::Unresolved)
        }
        Err(error) => Err(error),
    }
}

/// Puts the flaw of the entry method at the end, if no type has it.
#[tactic(auto, using(crate::proofs::lemmas::mark_flaws::Lists::none_more))]
pub(crate) fn add_entry(
    marker: &Marker<'_>,
    entry: Option<RowAt>,
    flaws: &mut Flaws,
) -> Result<(), NoMemory>
    requires { IsMarker marker.now }
    ensures { OnOk result (flaws.new ≡ flaws.old ++ entry_flaws (all_of marker.now) entry) }
{
    match entry {
        Some(at) => add_entry_at(marker, at, flaws),
        None => Ok(()),
    }
}
