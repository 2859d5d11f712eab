//! The names of methods with their parameters.

ghost use Rattle.std.specs.Prelude.{◌≡◌, ◌++◌, codes, IfOk, OnOk};
ghost use Rattle.rules.specs.type_rules.Texts.{joined};
ghost use Rattle.type_names.specs.Commas.{separator};
ghost use Rattle.rules.specs.mark_rules.Dependencies.{doc_name};

use crate::doc_texts::types::doc_texts;
use il_base::{NoMemory, Seq, Text};
use rules::link_rules::MethodType;
use std::alloc::Global;
use type_names::TypeNames;

/// Puts a comma at the end, but not before the first of some texts, from 0.
#[tactic(auto, using(type_names::proofs::Joining::no_comma, type_names::proofs::Joining::comma))]
fn put_separator(i: usize, out: &mut Text) -> Result<(), NoMemory>
    ensures { OnOk result (out.new ≡ out.old ++ separator i) }
{
    if i > 0 {
        out.push(b',')?;
    }
    Ok(())
}

/// Puts texts at the end, with commas between.
fn put_joined(texts: &[Text], out: &mut Text) -> Result<(), NoMemory>
    ensures { OnOk result (out.new ≡ out.old ++ joined texts.now) }
{
    for (i, text) in texts.iter().enumerate() {
        put_separator(i, out)?;
        out.extend_from_slice(text.as_slice())?;
    }
    Ok(())
}

/// A name, and texts in parentheses.
fn with_parameters(alloc: Global, name: &[u8], texts: &[Text]) -> Result<Text, NoMemory>
    ensures { IfOk result (λ t. t ≡ name.now ++ codes "(" ++ joined texts.now ++ codes ")") }
{
    let mut out = Seq::from_slice(alloc, name)?;
    out.push(b'(')?;
    put_joined(texts, &mut out)?;
    out.push(b')')?;
    Ok(out)
}

/// The name of a method with the texts of its parameters; None where one has none.
pub fn doc_name(
    alloc: Global,
    names: &TypeNames<'_>,
    name: &[u8],
    m: &MethodType,
) -> Result<Option<Text>, NoMemory>
    ensures { IfOk result (λ t. t ≡ doc_name names.now name.now m.now) }
{
    match doc_texts(alloc, names, m.params.as_slice()) {
        Ok(Some(texts)) => {
            let text = with_parameters(alloc, name, texts.as_slice())?;
            Ok(Some(text))
        }
        Ok(None) => Ok(None),
        Err(error) => Err(error),
    }
}
