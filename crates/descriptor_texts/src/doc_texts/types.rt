//! The texts of parameters' types.

ghost use Rattle.std.specs.Prelude.{◌≡◌, ◌++◌, Some, map, IfOk};
ghost use Rattle.std.specs.Option.{option_map};
ghost use Rattle.rules.specs.type_rules.Texts.{text};
ghost use Rattle.rules.specs.mark_rules.Dependencies.{dotted, doc_text, all_texts};

use il_base::world_model::TypeExpr;
use il_base::{NoMemory, Seq, Text};
use std::alloc::Global;
use type_names::TypeNames;

/// A text with a full stop in place of each `+`.
fn dotted(alloc: Global, text: &[u8]) -> Result<Text, NoMemory>
    ensures { IfOk result (λ t. t ≡ dotted text.now) }
{
    let mut out = Seq::new(alloc);
    for c in text {
        let letter = if *c == b'+' { b'.' } else { *c };
        out.push(letter)?;
    }
    Ok(out)
}

/// The name of a definition, with a full stop before the name of a nested type.
fn definition(alloc: Global, names: &TypeNames<'_>, ty: &TypeExpr) -> Result<Option<Text>, NoMemory>
    ensures { IfOk result (λ t. t ≡ Some (dotted (text names.now ty.now))) }
{
    let text = names.text(alloc, ty)?;
    let name = dotted(alloc, text.as_slice())?;
    Ok(Some(name))
}

/// A text with an end.
fn ended(text: Option<Text>, end: &[u8]) -> Result<Option<Text>, NoMemory>
    ensures { IfOk result (λ t. t ≡ option_map (λ t. t ++ end.now) text) }
{
    match text {
        None => Ok(None),
        Some(mut text) => {
            text.extend_from_slice(end)?;
            Ok(Some(text))
        }
    }
}

/// The text of a parameter's type: the name of a definition, `[]` after an array's element, `@` after what is referred to, modifiers
/// left out. None for constructed types and generic parameters.
#[tactic(auto, using(crate::proofs::lemmas::doc_texts::DocLayers::documenting))]
pub fn doc_text(
    alloc: Global,
    names: &TypeNames<'_>,
    ty: &TypeExpr,
) -> Result<Option<Text>, NoMemory>
    ensures { IfOk result (λ t. t ≡ doc_text names.now ty.now) }
{
    match ty {
        TypeExpr::Prim(_) => definition(alloc, names, ty),
        TypeExpr::Def(_) => definition(alloc, names, ty),
        TypeExpr::Inst(_, _) => Ok(None),
        TypeExpr::Array(inner) => {
            let element = doc_text(alloc, names, inner.get())?;
            ended(element, b"[]")
        }
        TypeExpr::ByRef(inner) => {
            let referred = doc_text(alloc, names, inner.get())?;
            ended(referred, b"@")
        }
        TypeExpr::Var(_) => Ok(None),
        TypeExpr::MVar(_) => Ok(None),
        TypeExpr::Mod { inner, .. } => doc_text(alloc, names, inner.get()),
    }
}

/// The texts of the types of parameters; None where one has none.
pub(crate) fn doc_texts(
    alloc: Global,
    names: &TypeNames<'_>,
    params: &[TypeExpr],
) -> Result<Option<Seq<Text>>, NoMemory>
    ensures { IfOk result (λ texts. texts ≡ all_texts (map (doc_text names.now) params.now)) }
{
    let mut texts = Seq::new(alloc);
    for param in params {
        match doc_text(alloc, names, param) {
            Ok(Some(text)) => texts.push(text)?,
            Ok(None) => return Ok(None),
            Err(error) => return Err(error),
        }
    }
    Ok(Some(texts))
}
