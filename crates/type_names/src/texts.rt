//! The texts of types.

ghost use Rattle.std.specs.Prelude.{◌≡◌, ◌++◌, codes, map, IfOk, OnOk};
ghost use Rattle.std.specs.Fmt.{decimal};
ghost use Rattle.il_base.specs.world_model.Worlds.{prim_type};
ghost use Rattle.type_names.specs.Commas.{separator};
ghost use Rattle.rules.specs.type_rules.Texts.{definition_text, joined, modifier_text, text};

use crate::assemblies::Assemblies;
use crate::chain::Chain;
use il_base::world_model::{AsmRec, TypeExpr, prim_type};
use il_base::{NoMemory, Seq, Text, TypeId};
use std::alloc::Global;

/// The text of a type: its namespace, a full stop and its name; a nested type after its encloser and `+`; arguments in
/// brackets after a constructed type, `[]` after an array's element, `&` after what is referred to. The last of the
/// assemblies is the core library.
pub fn text(alloc: Global, recs: &[AsmRec], ty: &TypeExpr) -> Result<Text, NoMemory>
    ensures { IfOk result (λ t. t ≡ text recs.now ty.now) }
{
    match Assemblies::of(alloc, recs) {
        Err(_) => Err(NoMemory),
        Ok(world) => world.text(alloc, ty),
    }
}

impl Assemblies<'_> {
    /// The text of a type.
    pub(crate) fn text(&self, alloc: Global, ty: &TypeExpr) -> Result<Text, NoMemory>
        ensures { IfOk result (λ t. t ≡ text self.now ty.now) }
    {
        let mut out = Seq::new(alloc);
        put_type(alloc, self, ty, &mut out)?;
        Ok(out)
    }
}

/// Puts the text of a type at the end.
#[cycle(writing)]
#[tactic(auto, using(crate::proofs::TextLayers::writing))]
fn put_type(
    alloc: Global,
    world: &Assemblies,
    ty: &TypeExpr,
    out: &mut Text,
) -> Result<(), NoMemory>
    ensures { OnOk result (out.new ≡ out.old ++ text world.now ty.now) }
{
    match ty {
        TypeExpr::Prim(code) => put_primitive(alloc, world, *code, out),
        TypeExpr::Def(id) => put_definition(alloc, world, *id, out),
        TypeExpr::Inst(id, args) => {
            put_definition(alloc, world, *id, out)?;
            out.push(b'[')?;
            put_arguments(alloc, world, args.as_slice(), out)?;
            out.push(b']')
        }
        TypeExpr::Array(inner) => {
            put_type(alloc, world, inner.get(), out)?;
            out.extend_from_slice(b"[]")
        }
        TypeExpr::ByRef(inner) => {
            put_type(alloc, world, inner.get(), out)?;
            out.push(b'&')
        }
        TypeExpr::Var(n) => put_parameter(alloc, b"!", *n, out),
        TypeExpr::MVar(n) => put_parameter(alloc, b"!!", *n, out),
        TypeExpr::Mod {
            required,
            by,
            inner,
        } => {
            put_type(alloc, world, inner.get(), out)?;
            put_modifier(alloc, world, *required, *by, out)
        }
    }
}

/// Puts the texts of types at the end, with commas between.
#[cycle(writing)]
fn put_arguments(
    alloc: Global,
    world: &Assemblies,
    args: &[TypeExpr],
    out: &mut Text,
) -> Result<(), NoMemory>
    ensures { OnOk result (out.new ≡ out.old ++ joined (map (text world.now) args.now)) }
{
    for (i, arg) in args.iter().enumerate() {
        put_separator(i, out)?;
        put_type(alloc, world, arg, out)?;
    }
    Ok(())
}

/// Puts a comma at the end, but not before the first of some texts, from 0.
#[tactic(auto, using(crate::proofs::Joining::no_comma, crate::proofs::Joining::comma))]
fn put_separator(i: usize, out: &mut Text) -> Result<(), NoMemory>
    ensures { OnOk result (out.new ≡ out.old ++ separator i) }
{
    if i > 0 {
        out.push(b',')?;
    }
    Ok(())
}

/// Puts the name of a definition, with its enclosers, at the end.
#[tactic(auto, using(crate::proofs::HomeLemmas::name_is))]
fn put_definition(
    alloc: Global,
    world: &Assemblies,
    id: TypeId,
    out: &mut Text,
) -> Result<(), NoMemory>
    ensures { OnOk result (out.new ≡ out.old ++ definition_text world.now (Some id)) }
{
    match world.row_of(id) {
        None => Ok(()),
        Some((nested, row)) => {
            let chain = Chain::of(alloc, nested, row)?;
            chain.put(nested.rec(), out)
        }
    }
}

/// Puts the name of the core library's type that a primitive is at the end.
#[tactic(auto, unfolding(rules::specs::type_rules::Texts::definition_text))]
fn put_primitive(
    alloc: Global,
    world: &Assemblies,
    code: u8,
    out: &mut Text,
) -> Result<(), NoMemory>
    ensures { OnOk result (out.new ≡ out.old ++ definition_text world.now (prim_type world.now code)) }
{
    match prim_type(world.recs(), code)? {
        None => Ok(()),
        Some(id) => put_definition(alloc, world, id, out),
    }
}

/// Puts the number of a generic parameter at the end, after its sign.
fn put_parameter(alloc: Global, sign: &[u8], n: u32, out: &mut Text) -> Result<(), NoMemory>
    ensures { OnOk result (out.new ≡ out.old ++ (sign.now ++ decimal n)) }
{
    let number = n.to_string(alloc)?;
    out.extend_from_slice(sign)?;
    out.extend_from_slice(number.as_bytes())
}

/// Puts a modifier (II.7.1) at the end.
fn put_modifier(
    alloc: Global,
    world: &Assemblies,
    required: bool,
    by: TypeId,
    out: &mut Text,
) -> Result<(), NoMemory>
    ensures { OnOk result (out.new ≡ out.old ++ (modifier_text required ++ definition_text world.now (Some by) ++ codes ")")) }
{
    let opening: &[u8] = if required { b" modreq(" } else { b" modopt(" };
    out.extend_from_slice(opening)?;
    put_definition(alloc, world, by, out)?;
    out.push(b')')
}
