//! Sources by their places in a list that has each once.

ghost use Rattle.std.specs.Prelude.{◌≡◌, [], ◌∷◌, IfOk, OnOk};
ghost use Rattle.std.specs.List.{list_any};
ghost use Rattle.rules.specs.link_rules.Cycles.{add_new, add_all};
ghost use Rattle.rules.specs.flow_rules.Sources.{same_source};
ghost use Rattle.value_flow.specs.Numbers.{number_in};

use crate::same::same_source;
use il_base::{NoMemory, Seq};
use rules::flow_rules::Source;

fn is_among(sources: &[Source], s: &Source) -> bool
    ensures { result ≡ list_any (same_source s.now) sources.now }
{
    sources.iter().any(|other| same_source(s, other))
}

/// Adds a source that isn't there.
pub(crate) fn add_new(sources: &mut Seq<Source>, s: Source) -> Result<(), NoMemory>
    ensures { OnOk result (sources.new ≡ add_new same_source sources.old s) }
{
    if !is_among(sources.as_slice(), &s) {
        sources.push(s)?;
    }
    Ok(())
}

/// The place of a source, from 0; 1 for one that isn't there.
pub(crate) fn number_in(sources: &[Source], s: &Source) -> Result<u32, NoMemory>
    ensures { IfOk result (λ n. n ≡ number_in sources.now s.now) }
{
    for (i, other) in sources.iter().enumerate() {
        if same_source(s, other) {
            let Ok(place) = u32::try_from(i) else {
                return Err(NoMemory);
            };
            return Ok(place);
        }
    }
    Ok(1)
}
