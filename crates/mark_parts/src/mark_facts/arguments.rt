//! The definitions in the generic arguments of types and members.

ghost use Rattle.std.specs.Prelude.{◌≡◌, ◌++◌, map, OnOk};
ghost use Rattle.rules.specs.mark_rules.Facts.Fact.{shown};
ghost use Rattle.rules.specs.mark_rules.Shown.{arguments_in, arguments_of_named, arguments_of_part, arguments_of_parts};
ghost use Rattle.mark_parts.specs.mark_facts.Told.{named_told, part_told};

use crate::mark_facts::exprs::{Said, say_all};
use crate::mark_facts::facts::Facts;
use crate::mark_facts::part::{Named, Part};
use crate::mark_facts::parts::Parts;
use il_base::NoMemory;
use il_base::world_model::{Known, MethodUse, TypeExpr};

/// Shows each definition in the generic arguments of a type, anywhere in it.
#[tactic(auto, using(crate::proofs::lemmas::mark_facts::ArgumentLayers::arguing))]
fn show_arguments(facts: &mut Facts, ty: &TypeExpr) -> Result<(), NoMemory>
    ensures { OnOk result (facts.new ≡ facts.old ++ map shown (arguments_in ty.now)) }
{
    match ty {
        TypeExpr::Prim(_) => Ok(()),
        TypeExpr::Def(_) => Ok(()),
        TypeExpr::Inst(_, args) => say_all(facts, Said::Shown, args.as_slice()),
        TypeExpr::Array(inner) => show_arguments(facts, inner.get()),
        TypeExpr::ByRef(inner) => show_arguments(facts, inner.get()),
        TypeExpr::Var(_) => Ok(()),
        TypeExpr::MVar(_) => Ok(()),
        TypeExpr::Mod { inner, .. } => show_arguments(facts, inner.get()),
    }
}

/// Shows the generic arguments of a method's owner, and those of the method.
#[tactic(auto, using(crate::proofs::lemmas::mark_facts::Joining::both_shown))]
fn show_method(facts: &mut Facts, used: &MethodUse) -> Result<(), NoMemory>
    ensures { OnOk result (facts.new ≡ facts.old ++ map shown (arguments_of_named (named_told (Named.Method used.now)))) }
{
    show_arguments(facts, &used.owner)?;
    say_all(facts, Said::Shown, used.args.as_slice())
}

/// Shows the generic arguments that something named has.
fn show_named(facts: &mut Facts, named: &Named) -> Result<(), NoMemory>
    ensures { OnOk result (facts.new ≡ facts.old ++ map shown (arguments_of_named (named_told named.now))) }
{
    match named {
        Named::Type(ty) => show_arguments(facts, ty),
        Named::Method(used) => show_method(facts, used),
        Named::Field(used) => show_arguments(facts, &used.owner),
    }
}

/// Shows the generic arguments of a part; a bad part has none.
fn show_part(facts: &mut Facts, part: &Part) -> Result<(), NoMemory>
    ensures { OnOk result (facts.new ≡ facts.old ++ map shown (arguments_of_part (part_told part.now).named)) }
{
    match &part.named {
        Known::Good(named) => show_named(facts, named),
        Known::Bad(_) => Ok(()),
    }
}

impl Parts {
    /// Shows the definitions in the generic arguments of all parts.
    pub fn show_arguments(&self, facts: &mut Facts) -> Result<(), NoMemory>
        ensures { OnOk result (facts.new ≡ facts.old ++ map shown (arguments_of_parts self.now)) }
    {
        for part in self.as_slice() {
            show_part(facts, part)?;
        }
        Ok(())
    }
}
