ghost use Rattle.std.specs.Prelude.{◌≡◌, ◌++◌, ◌∷◌, [], map, OnOk};
ghost use Rattle.rules.specs.mark_rules.BadItems.{flaw, flaw_if};
ghost use Rattle.bad_items.specs.mark_flaws.Told.{flaw_told};

use crate::mark_flaws::flaw::Flaw;
use il_base::NoMemory;
use il_base::world_model::BadKind;
use rules::link_rules::RowAt;
use std::alloc::Global;
use std::marker::Model;

/// Flaws in a list. Contracts see them as the rules of marking have them.
#[derive(Drop)]
pub struct Flaws {
    listed: Vec<Flaw>,
}

impl Model for Flaws {
    ghost use Rattle.std.specs.Prelude.{List, map};
    ghost use Rattle.rules.specs.mark_rules.BadItems as rules;
    ghost use Rattle.bad_items.specs.mark_flaws.Told.{flaw_told};

    ghost Value = { List rules.Flaw };

    ghost view = { λ f. map flaw_told f.listed.items };
}

impl Flaws {
    /// No flaw. It takes no memory.
    pub fn new(alloc: Global) -> Flaws
        ensures { result ≡ [] }
    {
        Flaws {
            listed: Vec::new(alloc),
        }
    }

    /// The flaws, in their order.
    pub fn as_slice(&self) -> &[Flaw]
        ensures { map flaw_told result.now ≡ self.now }
    {
        self.listed.as_slice()
    }

    /// Puts a flaw at the end.
    #[tactic(auto, using(crate::proofs::lemmas::mark_flaws::Lists::one_more))]
    fn push(&mut self, flaw: Flaw) -> Result<(), NoMemory>
        ensures { OnOk result (self.new ≡ self.old ++ flaw_told flaw ∷ []) }
    {
        self.listed.push(flaw)?;
        Ok(())
    }

    /// Puts a flaw of an assembly's row at the end, by its token.
    pub fn put(&mut self, at: RowAt, token: u32, offset: u32, kind: BadKind) -> Result<(), NoMemory>
        ensures { OnOk result (self.new ≡ self.old ++ flaw at token offset kind ∷ []) }
    {
        self.push(Flaw {
            asm: at.asm,
            token,
            offset,
            kind,
        })
    }

    /// Puts a form outside the profile at the end, if it is there.
    #[tactic(auto, using(crate::proofs::lemmas::mark_flaws::Lists::none_more))]
    pub fn put_if(&mut self, is: bool, at: RowAt, token: u32, what: u8) -> Result<(), NoMemory>
        ensures { OnOk result (self.new ≡ self.old ++ flaw_if is at token what) }
    {
        if is {
            return self.put(at, token, 0, BadKind::Outside(what));
        }
        Ok(())
    }
}
