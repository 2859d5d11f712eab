//! The texts of methods and fields.

ghost use Rattle.std.specs.Prelude.{◌≡◌, ◌++◌, codes, IfOk};
ghost use Rattle.rules.specs.mark_rules.Roots.{method_text};
ghost use Rattle.mark_parts.specs.mark_tables.Assemblies.{recs_of, rec_of};
ghost use Rattle.descriptor_texts.specs.sig_texts.Spelled.{owners_told, text_of, IsSpelling};

use crate::sig_texts::spelling::Spelling;
use crate::sig_texts::types::{put_arguments, put_type};
use il_base::world_model::TypeExpr;
use il_base::{NoMemory, Seq, Text};
use rules::link_rules::MethodType;
use std::alloc::Global;

/// The text of a method, by its name and its signature with types: `RETURN NAME(TYPE,TYPE)`.
#[tactic(auto, using(crate::proofs::lemmas::sig_texts::MethodTexts::method_put))]
pub fn method_text(
    alloc: Global,
    s: &Spelling<'_>,
    name: &[u8],
    m: &MethodType,
) -> Result<Text, NoMemory>
    requires { IsSpelling s.now }
    ensures { IfOk result (λ text. text ≡ method_text (recs_of s.now.asm) (rec_of s.now.asm) (owners_told s.now.owners) name.now m.now) }
{
    let mut out = Seq::new(alloc);
    put_type(s, &m.ret, &mut out)?;
    out.push(b' ')?;
    out.extend_from_slice(name)?;
    out.push(b'(')?;
    put_arguments(s, m.params.as_slice(), &mut out)?;
    out.push(b')')?;
    Ok(out)
}

/// The text of a field, by its name and its type: `TYPE NAME`.
pub fn field_text(
    alloc: Global,
    s: &Spelling<'_>,
    name: &[u8],
    ty: &TypeExpr,
) -> Result<Text, NoMemory>
    requires { IsSpelling s.now }
    ensures { IfOk result (λ text. text ≡ text_of s.now ty.now ++ codes " " ++ name.now) }
{
    let mut out = Seq::new(alloc);
    put_type(s, ty, &mut out)?;
    out.push(b' ')?;
    out.extend_from_slice(name)?;
    Ok(out)
}
