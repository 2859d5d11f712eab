//! The texts of types in signatures.

ghost use Rattle.std.specs.Prelude.{◌≡◌, ◌++◌, Some, map, OnOk};
ghost use Rattle.il_base.specs.world_model.Worlds.{prim_type};
ghost use Rattle.rules.specs.type_rules.Texts.{joined};
ghost use Rattle.type_names.specs.Commas.{separator};
ghost use Rattle.rules.specs.mark_rules.Roots.{definition_slashed};
ghost use Rattle.mark_parts.specs.mark_tables.Assemblies.{recs_of};
ghost use Rattle.descriptor_texts.specs.sig_texts.Spelled.{text_of, IsSpelling};

use crate::sig_texts::params::parameter_name;
use crate::sig_texts::spelling::Spelling;
use il_base::world_model::{TypeExpr, prim_type};
use il_base::{NoMemory, Text, TypeId};

/// Puts the name of a definition at the end.
fn put_definition(s: &Spelling<'_>, id: TypeId, out: &mut Text) -> Result<(), NoMemory>
    requires { IsSpelling s.now }
    ensures { OnOk result (out.new ≡ out.old ++ definition_slashed (recs_of s.now.asm) (Some id)) }
{
    match s.names.definition(s.asm.scope.linked.all, id) {
        Ok(name) => out.extend_from_slice(name),
        Err(error) => Err(error),
    }
}

/// Puts the name of the core library's type that a primitive is at the end.
#[tactic(auto, using(crate::proofs::lemmas::sig_texts::TextLayers::no_definition))]
fn put_primitive(s: &Spelling<'_>, code: u8, out: &mut Text) -> Result<(), NoMemory>
    requires { IsSpelling s.now }
    ensures { OnOk result (out.new ≡ out.old ++ definition_slashed (recs_of s.now.asm) (prim_type (recs_of s.now.asm) code)) }
{
    match prim_type(s.asm.scope.linked.all, code) {
        Ok(Some(id)) => put_definition(s, id, out),
        Ok(None) => Ok(()),
        Err(error) => Err(error),
    }
}

/// Puts the text of a type at the end: a nested type after its encloser and `/`, arguments in `<` and `>`, `[]` after an array's
/// element, `&` after what is referred to; generic parameters by their names, and modifiers left out.
#[cycle(writing)]
#[tactic(auto, using(crate::proofs::lemmas::sig_texts::TextLayers::writing))]
pub(crate) fn put_type(s: &Spelling<'_>, ty: &TypeExpr, out: &mut Text) -> Result<(), NoMemory>
    requires { IsSpelling s.now }
    ensures { OnOk result (out.new ≡ out.old ++ text_of s.now ty.now) }
{
    match ty {
        TypeExpr::Prim(code) => put_primitive(s, *code, out),
        TypeExpr::Def(id) => put_definition(s, *id, out),
        TypeExpr::Inst(id, args) => {
            put_definition(s, *id, out)?;
            out.push(b'<')?;
            put_arguments(s, args.as_slice(), out)?;
            out.push(b'>')
        }
        TypeExpr::Array(inner) => {
            put_type(s, inner.get(), out)?;
            out.extend_from_slice(b"[]")
        }
        TypeExpr::ByRef(inner) => {
            put_type(s, inner.get(), out)?;
            out.push(b'&')
        }
        TypeExpr::Var(n) => out.extend_from_slice(parameter_name(&s.asm, s.owners.typ, *n)),
        TypeExpr::MVar(n) => out.extend_from_slice(parameter_name(&s.asm, s.owners.method, *n)),
        TypeExpr::Mod { inner, .. } => put_type(s, inner.get(), out),
    }
}

/// Puts the texts of types at the end, with commas between.
#[cycle(writing)]
pub(crate) fn put_arguments(
    s: &Spelling<'_>,
    args: &[TypeExpr],
    out: &mut Text,
) -> Result<(), NoMemory>
    requires { IsSpelling s.now }
    ensures { OnOk result (out.new ≡ out.old ++ joined (map (text_of s.now) args.now)) }
{
    for (i, arg) in args.iter().enumerate() {
        put_separator(i, out)?;
        put_type(s, arg, out)?;
    }
    Ok(())
}

/// Puts a comma at the end, but not before the first of some texts, from 0.
#[tactic(auto, using(type_names::proofs::Joining::no_comma, type_names::proofs::Joining::comma))]
fn put_separator(i: usize, out: &mut Text) -> Result<(), NoMemory>
    ensures { OnOk result (out.new ≡ out.old ++ separator i) }
{
    if i > 0 {
        out.push(b',')?;
    }
    Ok(())
}
