//! The definitions that types name.

ghost use Rattle.std.specs.Prelude.{◌≡◌, ◌++◌, ◌∷◌, [], map, OnOk};
ghost use Rattle.std.specs.List.{flat_map};
ghost use Rattle.rules.specs.mark_rules.Naming.{types_in};
ghost use Rattle.rules.specs.mark_rules.Facts.Fact.{shown};
ghost use Rattle.rules.specs.mark_rules.Shown.{definitions_in};
ghost use Rattle.mark_parts.specs.mark_facts.Told.{said_of};

use crate::mark_facts::facts::Facts;
use il_base::world_model::TypeExpr;
use il_base::{Item, NoMemory, TypeId};

/// The facts on a type: marked, or shown.
#[derive(Clone, Copy)]
pub enum Said {
    Marked,
    Shown,
}

/// Adds such a fact on a type.
pub fn say(facts: &mut Facts, said: Said, id: TypeId) -> Result<(), NoMemory>
    ensures { OnOk result (facts.new ≡ facts.old ++ said_of said id ∷ []) }
{
    match said {
        Said::Marked => facts.mark(Item::Typ(id)),
        Said::Shown => facts.show(id),
    }
}

/// Adds such a fact on each definition that a type names: its own, and those of its arguments, elements and modifiers.
#[cycle(saying)]
#[tactic(auto, using(crate::proofs::lemmas::mark_facts::ExprLayers::saying))]
pub fn say_types(facts: &mut Facts, said: Said, ty: &TypeExpr) -> Result<(), NoMemory>
    ensures { OnOk result (facts.new ≡ facts.old ++ map (said_of said) (types_in ty.now)) }
{
    match ty {
        TypeExpr::Prim(_) => Ok(()),
        TypeExpr::Def(id) => say(facts, said, *id),
        TypeExpr::Inst(id, args) => {
            say(facts, said, *id)?;
            say_all(facts, said, args.as_slice())
        }
        TypeExpr::Array(inner) => say_types(facts, said, inner.get()),
        TypeExpr::ByRef(inner) => say_types(facts, said, inner.get()),
        TypeExpr::Var(_) => Ok(()),
        TypeExpr::MVar(_) => Ok(()),
        TypeExpr::Mod { by, inner, .. } => {
            say(facts, said, *by)?;
            say_types(facts, said, inner.get())
        }
    }
}

/// Adds such a fact on each definition that types name.
#[cycle(saying)]
pub fn say_all(facts: &mut Facts, said: Said, types: &[TypeExpr]) -> Result<(), NoMemory>
    ensures { OnOk result (facts.new ≡ facts.old ++ flat_map (λ e. map (said_of said) (types_in e)) types.now) }
{
    for ty in types {
        say_types(facts, said, ty)?;
    }
    Ok(())
}

/// Shows the definition of a type, or that of its elements, with what modifiers around these name.
#[tactic(auto, using(crate::proofs::lemmas::mark_facts::ShownLayers::defining))]
pub fn show_definition(facts: &mut Facts, ty: &TypeExpr) -> Result<(), NoMemory>
    ensures { OnOk result (facts.new ≡ facts.old ++ map shown (definitions_in ty.now)) }
{
    match ty {
        TypeExpr::Prim(_) => Ok(()),
        TypeExpr::Def(id) => facts.show(*id),
        TypeExpr::Inst(id, _) => facts.show(*id),
        TypeExpr::Array(inner) => show_definition(facts, inner.get()),
        TypeExpr::ByRef(inner) => show_definition(facts, inner.get()),
        TypeExpr::Var(_) => Ok(()),
        TypeExpr::MVar(_) => Ok(()),
        TypeExpr::Mod { by, inner, .. } => match facts.show(*by) {
            Ok(()) => show_definition(facts, inner.get()),
            Err(error) => Err(error),
        },
    }
}
