ghost use Rattle.std.specs.Prelude.{◌≡◌, ◌++◌, ◌∷◌, [], map, OnOk};
ghost use Rattle.il_base.specs.world_model.Worlds.{known_map};
ghost use Rattle.rules.specs.mark_rules.Naming as naming;
ghost use Rattle.rules.specs.mark_rules.Naming.{good_part, bad_part, type_parts};
ghost use Rattle.mark_parts.specs.mark_facts.Told.{part_told, named_told};

use crate::mark_facts::part::{Named, Part};
use il_base::world_model::{BadKind, FieldUse, Known, MethodUse, TypeExpr};
use il_base::{NoMemory, Seq};
use std::alloc::Global;
use std::marker::Model;

/// Parts of an item in a list. Contracts see them as the rules of marking have them.
#[derive(Drop)]
pub struct Parts {
    listed: Vec<Part>,
}

impl Model for Parts {
    ghost use Rattle.std.specs.Prelude.{List, map};
    ghost use Rattle.std.specs.Coded.{codes};
    ghost use Rattle.il_base.specs.contracts.world_model.expr.TypeExpr as expr;
    ghost use Rattle.rules.specs.mark_rules.Naming as naming;
    ghost use Rattle.mark_parts.specs.mark_facts.Told.{part_told};

    ghost Value = { List naming.Part };

    ghost coded = { Prim.hlevel (codes, expr.the_row.coded) };

    ghost view = { λ p. map part_told p.listed.items };
}

impl Parts {
    /// No part. It takes no memory.
    pub fn new(alloc: Global) -> Parts
        ensures { result ≡ [] }
    {
        Parts {
            listed: Vec::new(alloc),
        }
    }

    /// The parts, in their order.
    pub fn as_slice(&self) -> &[Part]
        ensures { map part_told result.now ≡ self.now }
    {
        self.listed.as_slice()
    }

    /// Adds a part.
    #[tactic(auto, using(crate::proofs::lemmas::mark_facts::Lists::one_more))]
    pub fn push(&mut self, part: Part) -> Result<(), NoMemory>
        ensures { OnOk result (self.new ≡ self.old ++ part_told part ∷ []) }
    {
        self.listed.push(part)?;
        Ok(())
    }

    /// Adds a type of a row.
    pub fn push_type(&mut self, token: u32, ty: TypeExpr) -> Result<(), NoMemory>
        ensures { OnOk result (self.new ≡ self.old ++ good_part token (naming.Named.type ty) ∷ []) }
    {
        self.push(Part {
            token,
            at: 0,
            named: Known::Good(Named::Type(ty)),
        })
    }

    /// Adds a bad part of a row.
    pub fn push_bad(&mut self, token: u32, why: BadKind) -> Result<(), NoMemory>
        ensures { OnOk result (self.new ≡ self.old ++ bad_part token why ∷ []) }
    {
        self.push(Part {
            token,
            at: 0,
            named: Known::Bad(why),
        })
    }

    /// Adds the parts that an operand or a cell names.
    pub fn push_known(&mut self, token: u32, at: u32, named: Known<Named>) -> Result<(), NoMemory>
        ensures { OnOk result (self.new ≡ self.old ++ record { token = token; at = at; named = known_map named_told named } ∷ []) }
    {
        self.push(Part { token, at, named })
    }
}
