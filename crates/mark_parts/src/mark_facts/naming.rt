//! The items that parts name, marked.

ghost use Rattle.std.specs.Prelude.{◌≡◌, ◌++◌, OnOk};
ghost use Rattle.rules.specs.mark_rules.Naming.{of_expr, of_exprs, of_method_use, of_field_use, of_named, of_known, of_parts};
ghost use Rattle.mark_parts.specs.mark_facts.Told.{named_told, part_told};

use crate::mark_facts::exprs::{Said, say_all, say_types};
use crate::mark_facts::facts::Facts;
use crate::mark_facts::part::{Named, Part};
use crate::mark_facts::parts::Parts;
use il_base::world_model::{FieldUse, Known, MethodUse, TypeExpr};
use il_base::{Item, NoMemory};

/// Marks the definitions that a type names.
pub fn mark_expr(facts: &mut Facts, ty: &TypeExpr) -> Result<(), NoMemory>
    ensures { OnOk result (facts.new ≡ facts.old ++ of_expr ty.now) }
{
    say_types(facts, Said::Marked, ty)
}

/// Marks the definitions that types name.
fn mark_exprs(facts: &mut Facts, types: &[TypeExpr]) -> Result<(), NoMemory>
    ensures { OnOk result (facts.new ≡ facts.old ++ of_exprs types.now) }
{
    say_all(facts, Said::Marked, types)
}

/// Marks a method, with its owner and arguments.
#[tactic(auto, using(crate::proofs::lemmas::mark_facts::Joining::all_marked))]
pub fn mark_method_use(facts: &mut Facts, used: &MethodUse) -> Result<(), NoMemory>
    ensures { OnOk result (facts.new ≡ facts.old ++ of_method_use used.now) }
{
    facts.mark(Item::Method(used.method))?;
    mark_expr(facts, &used.owner)?;
    mark_exprs(facts, used.args.as_slice())
}

/// Marks a field, with its owner.
#[tactic(auto, using(crate::proofs::lemmas::mark_facts::Joining::both_marked))]
pub fn mark_field_use(facts: &mut Facts, used: &FieldUse) -> Result<(), NoMemory>
    ensures { OnOk result (facts.new ≡ facts.old ++ of_field_use used.now) }
{
    facts.mark(Item::Field(used.field))?;
    mark_expr(facts, &used.owner)
}

/// Marks what a part names.
fn mark_named(facts: &mut Facts, named: &Named) -> Result<(), NoMemory>
    ensures { OnOk result (facts.new ≡ facts.old ++ of_named (named_told named.now)) }
{
    match named {
        Named::Type(ty) => mark_expr(facts, ty),
        Named::Method(used) => mark_method_use(facts, used),
        Named::Field(used) => mark_field_use(facts, used),
    }
}

/// Marks what a part names; a bad part names nothing.
fn mark_part(facts: &mut Facts, part: &Part) -> Result<(), NoMemory>
    ensures { OnOk result (facts.new ≡ facts.old ++ of_known of_named (part_told part.now).named) }
{
    match &part.named {
        Known::Good(named) => mark_named(facts, named),
        Known::Bad(_) => Ok(()),
    }
}

impl Parts {
    /// Marks what the good parts name.
    pub fn mark(&self, facts: &mut Facts) -> Result<(), NoMemory>
        ensures { OnOk result (facts.new ≡ facts.old ++ of_parts self.now) }
    {
        for part in self.as_slice() {
            mark_part(facts, part)?;
        }
        Ok(())
    }
}
