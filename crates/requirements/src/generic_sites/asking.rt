//! Sites at the end of a list.

ghost use Rattle.std.specs.Prelude.{◌≡◌, ◌++◌, ◌∷◌, [], IfOk, OnOk};
ghost use Rattle.rules.specs.site_rules.Values.{asking};

use il_base::{NoMemory, Place, Seq};
use rules::flow_rules::Source;
use rules::site_rules::{Site, Target};
use std::alloc::Global;

/// One source.
pub fn only(alloc: Global, s: Source) -> Result<Seq<Source>, NoMemory>
    ensures { IfOk result (λ sources. sources ≡ s ∷ []) }
{
    let mut sources = Seq::new(alloc);
    sources.push(s)?;
    Ok(sources)
}

/// Puts a site that asks for kinds of members at the end, where there are any.
#[tactic(auto, using(crate::proofs::lemmas::generic_sites::Lists::none_more))]
pub fn put_asking(
    place: Place,
    to: Target,
    kinds: u32,
    sources: Seq<Source>,
    sites: &mut Seq<Site>,
) -> Result<(), NoMemory>
    ensures { OnOk result (sites.new ≡ sites.old ++ asking place to kinds sources) }
{
    if kinds == 0 {
        return Ok(());
    }
    sites.push(Site {
        place,
        target: to,
        kinds,
        names: None,
        sources,
    })
}
