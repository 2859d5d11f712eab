//! The names of members, as dependencies have them.

ghost use Rattle.std.specs.Prelude.{◌≡◌, ◌∷◌, ◌||◌, take, codes, IfOk};
ghost use Rattle.il_base.specs.world_model.Core.{same_name};
ghost use Rattle.rules.specs.mark_rules.Dependencies.{plain, has_parameters};
ghost use Rattle.mark_dependencies.specs.Names.{first_letter};

use il_base::{NoMemory, Seq, Text};
use std::alloc::Global;

/// The first six bytes of a name, or all of a shorter one.
#[tactic(auto, using(crate::proofs::Naming::short))]
fn first_six(name: &[u8]) -> &[u8]
    ensures { result.now ≡ take 6 name.now }
{
    if name.len() < 6 {
        return name;
    }
    &name[..6]
}

/// Whether a name is `#ctor`, with parameters or without.
fn is_ctor(name: &[u8]) -> bool
    ensures { result ≡ (same_name name.now (codes "#ctor") || same_name (take 6 name.now) (codes "#ctor(")) }
{
    name == b"#ctor".as_slice() || first_six(name) == b"#ctor(".as_slice()
}

/// The first letter of a name, where `#ctor` is `.ctor`.
fn first_letter(name: &[u8], first: u8) -> u8
    ensures { result ≡ first_letter name.now first }
{
    if is_ctor(name) { b'.' } else { first }
}

/// A text of a letter and what comes after it.
fn with_first(alloc: Global, first: u8, rest: &[u8]) -> Result<Text, NoMemory>
    ensures { IfOk result (λ text. text ≡ first ∷ rest.now) }
{
    let mut out = Seq::new(alloc);
    out.push(first)?;
    out.extend_from_slice(rest)?;
    Ok(out)
}

/// A name as rows have it: `#ctor` is `.ctor`.
pub(crate) fn plain(alloc: Global, name: &[u8]) -> Result<Text, NoMemory>
    ensures { IfOk result (λ text. text ≡ plain name.now) }
{
    match name {
        [] => Ok(Seq::new(alloc)),
        [first, rest @ ..] => {
            let text = with_first(alloc, first_letter(name, *first), rest)?;
            Ok(text)
        }
    }
}

/// Whether a name has parameters.
pub(crate) fn has_parameters(name: &[u8]) -> bool
    ensures { result ≡ has_parameters name.now }
{
    name.iter().any(|c| *c == b'(')
}
