//! Lists of signatures that are met: those of locals have StandAloneSig rows (II.22.36).

ghost use Rattle.std.specs.Prelude.{◌≡◌, map, IfOk, OnOk};
ghost use Rattle.std.specs.List.{position};
ghost use Rattle.rules.specs.merge_rules.Keys.{same_sigs};
ghost use Rattle.rules.specs.merge_rules.Refs.{met_once, each_once, row_token};
ghost use Rattle.token_keys.specs.key_codes.Codes.{sigs_code};
ghost use Rattle.il_base.specs.declared.table.TheConstants.{STAND_ALONE_SIG};

use crate::key_codes::sigs::add_sigs;
use crate::met_keys::codes::Met;
use crate::met_keys::row_tokens::row_token;
use il_base::{NoMemory, Seq, Sig, table};
use std::alloc::Global;
use std::marker::Model;

/// Lists of signatures over the types of the world, each once, in the order in which they were first met. Contracts see their list.
#[derive(Drop)]
pub struct MetLists {
    codes: Met,
    firsts: Vec<Seq<Sig>>,
}

impl Model for MetLists {
    ghost use Rattle.std.specs.Prelude.{◌≡◌, List, map};
    ghost use Rattle.std.specs.Coded.{coded_list};
    ghost use Rattle.il_base.specs.declared.sig.Sig.{Sig};
    ghost use Rattle.il_base.specs.contracts.sig.Sig as sig;
    ghost use Rattle.token_keys.specs.key_codes.Codes.{sigs_code};

    ghost Value = { List (List Sig) };

    ghost coded = { coded_list (coded_list sig.the_row.coded) };

    ghost view = { λ m. m.firsts.items };

    ghost invariant = { λ m. m.codes ≡ map sigs_code m.firsts.items };
}

/// The code of one.
fn code_of(alloc: Global, one: &[Sig]) -> Result<Vec<u32>, NoMemory>
    ensures { IfOk result (λ code. code.items ≡ sigs_code one.now) }
{
    let mut code = Vec::new(alloc);
    add_sigs(&mut code, one)?;
    Ok(code)
}

/// Puts one at the end, where it wasn't met yet.
fn meet(
    alloc: Global,
    codes: &mut Met,
    firsts: &mut Vec<Seq<Sig>>,
    one: Seq<Sig>,
) -> Result<(), NoMemory>
    requires { codes.old ≡ map sigs_code firsts.old.items }
    ensures firsts { OnOk result (firsts.new.items ≡ met_once same_sigs firsts.old.items one) }
    ensures codes { OnOk result (codes.new ≡ map sigs_code firsts.new.items) }
{
    let code = code_of(alloc, one.as_slice())?;
    if codes.has(code.as_slice()) {
        drop(one);
        return Ok(());
    }
    codes.meet(code)?;
    firsts.push(one)?;
    Ok(())
}

impl MetLists {
    /// All that are met, in order.
    pub fn of(alloc: Global, all: Vec<Seq<Sig>>) -> Result<MetLists, NoMemory>
        ensures { IfOk result (λ m. m ≡ each_once same_sigs all.items) }
    {
        let mut codes = Met::new(alloc);
        let mut firsts = Vec::new(alloc);
        for one in all {
            meet(alloc, &mut codes, &mut firsts, one)?;
        }
        Ok(MetLists { codes, firsts })
    }

    /// Each once, as first met.
    pub fn firsts(&self) -> &[Seq<Sig>]
        ensures { result.now ≡ self.now }
    {
        self.firsts.as_slice()
    }

    /// Which of them one is, counted from 0; None for one that wasn't met.
    pub fn place(&self, alloc: Global, one: &[Sig]) -> Result<Option<usize>, NoMemory>
        ensures { IfOk result (λ p. p ≡ position (same_sigs one.now) self.now) }
    {
        let code = code_of(alloc, one)?;
        let place = self.codes.place(code.as_slice());
        Ok(place)
    }

    /// The token of the StandAloneSig row of one; 0 for one that wasn't met.
    pub fn token(&self, alloc: Global, one: &[Sig]) -> Result<u32, NoMemory>
        ensures { IfOk result (λ token. token ≡ row_token STAND_ALONE_SIG (position (same_sigs one.now) self.now)) }
    {
        let place = self.place(alloc, one)?;
        let token = row_token(table::STAND_ALONE_SIG, place)?;
        Ok(token)
    }
}
