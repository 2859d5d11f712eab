//! Known names.

ghost use Rattle.std.specs.Prelude.{◌≡◌, ◌++◌, IfOk, OnOk};
ghost use Rattle.std.specs.List.{flat_map, list_all};
ghost use Rattle.rules.specs.site_rules.Values.{is_known_name, name_in, known_names};

use il_base::{NoMemory, Seq, Units};
use rules::flow_rules::Source;
use std::alloc::Global;

fn is_known_name(s: &Source) -> bool
    ensures { result ≡ is_known_name s.now }
{
    match s {
        Source::KnownType(_) => false,
        Source::KnownHandle(_) => false,
        Source::KnownText(_) => true,
        Source::Null => true,
        Source::Parameter(_) => false,
        Source::Return(_) => false,
        Source::Field(_) => false,
        Source::TypeParam(_, _) => false,
        Source::MethodParam(_) => false,
        Source::Opaque => false,
    }
}

/// Puts the text of a known name at the end.
#[tactic(auto, using(crate::proofs::Lists::none_more))]
fn put_name(alloc: Global, s: &Source, names: &mut Seq<Units>) -> Result<(), NoMemory>
    ensures { OnOk result (names.new ≡ names.old ++ name_in s.now) }
{
    match s {
        Source::KnownType(_) => Ok(()),
        Source::KnownHandle(_) => Ok(()),
        Source::KnownText(text) => {
            let text = Seq::from_slice(alloc, text.as_slice())?;
            names.push(text)
        }
        Source::Null => Ok(()),
        Source::Parameter(_) => Ok(()),
        Source::Return(_) => Ok(()),
        Source::Field(_) => Ok(()),
        Source::TypeParam(_, _) => Ok(()),
        Source::MethodParam(_) => Ok(()),
        Source::Opaque => Ok(()),
    }
}

fn texts_of(alloc: Global, sources: &[Source]) -> Result<Seq<Units>, NoMemory>
    ensures { IfOk result (λ names. names ≡ flat_map name_in sources.now) }
{
    let mut names = Seq::new(alloc);
    for s in sources {
        put_name(alloc, s, &mut names)?;
    }
    Ok(names)
}

/// Whether each source is a known text or null.
fn all_known(sources: &[Source]) -> bool
    ensures { result ≡ list_all is_known_name sources.now }
{
    for s in sources {
        if !is_known_name(s) {
            return false;
        }
    }
    true
}

/// The texts of a name, where each source is a known text or null.
#[tactic(auto, unfolding(rules::specs::site_rules::Values::known_names))]
pub(crate) fn known_names(alloc: Global, sources: &[Source]) -> Result<Option<Seq<Units>>, NoMemory>
    ensures { IfOk result (λ names. names ≡ known_names sources.now) }
{
    if !all_known(sources) {
        return Ok(None);
    }
    let names = texts_of(alloc, sources)?;
    Ok(Some(names))
}
