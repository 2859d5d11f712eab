//! Signatures that are met, which have TypeSpec rows (II.22.39).

ghost use Rattle.std.specs.Prelude.{◌≡◌, map, IfOk, OnOk};
ghost use Rattle.std.specs.List.{position};
ghost use Rattle.rules.specs.merge_rules.Keys.{same_sig};
ghost use Rattle.rules.specs.merge_rules.Refs.{met_once, each_once, row_token};
ghost use Rattle.token_keys.specs.key_codes.Codes.{sig_code};
ghost use Rattle.il_base.specs.declared.table.TheConstants.{TYPE_SPEC};

use crate::key_codes::sigs::add_sig;
use crate::met_keys::codes::Met;
use crate::met_keys::row_tokens::row_token;
use il_base::{NoMemory, Sig, table};
use std::alloc::Global;
use std::marker::Model;

/// Signatures over the types of the world, each once, in the order in which they were first met. Contracts see their list.
#[derive(Drop)]
pub struct MetSigs {
    codes: Met,
    firsts: Vec<Sig>,
}

impl Model for MetSigs {
    ghost use Rattle.std.specs.Prelude.{◌≡◌, List, map};
    ghost use Rattle.std.specs.Coded.{coded_list};
    ghost use Rattle.il_base.specs.declared.sig.Sig.{Sig};
    ghost use Rattle.il_base.specs.contracts.sig.Sig as sig;
    ghost use Rattle.token_keys.specs.key_codes.Codes.{sig_code};

    ghost Value = { List Sig };

    ghost coded = { coded_list sig.the_row.coded };

    ghost view = { λ m. m.firsts.items };

    ghost invariant = { λ m. m.codes ≡ map sig_code m.firsts.items };
}

/// The code of one.
fn code_of(alloc: Global, one: &Sig) -> Result<Vec<u32>, NoMemory>
    ensures { IfOk result (λ code. code.items ≡ sig_code one.now) }
{
    let mut code = Vec::new(alloc);
    add_sig(&mut code, one)?;
    Ok(code)
}

/// Puts one at the end, where it wasn't met yet.
fn meet(alloc: Global, codes: &mut Met, firsts: &mut Vec<Sig>, one: Sig) -> Result<(), NoMemory>
    requires { codes.old ≡ map sig_code firsts.old.items }
    ensures firsts { OnOk result (firsts.new.items ≡ met_once same_sig firsts.old.items one) }
    ensures codes { OnOk result (codes.new ≡ map sig_code firsts.new.items) }
{
    let code = code_of(alloc, &one)?;
    if codes.has(code.as_slice()) {
        drop(one);
        return Ok(());
    }
    codes.meet(code)?;
    firsts.push(one)?;
    Ok(())
}

impl MetSigs {
    /// All that are met, in order.
    pub fn of(alloc: Global, all: Vec<Sig>) -> Result<MetSigs, NoMemory>
        ensures { IfOk result (λ m. m ≡ each_once same_sig all.items) }
    {
        let mut codes = Met::new(alloc);
        let mut firsts = Vec::new(alloc);
        for one in all {
            meet(alloc, &mut codes, &mut firsts, one)?;
        }
        Ok(MetSigs { codes, firsts })
    }

    /// Each once, as first met.
    pub fn firsts(&self) -> &[Sig]
        ensures { result.now ≡ self.now }
    {
        self.firsts.as_slice()
    }

    /// Which of them one is, counted from 0; None for one that wasn't met.
    pub fn place(&self, alloc: Global, one: &Sig) -> Result<Option<usize>, NoMemory>
        ensures { IfOk result (λ p. p ≡ position (same_sig one.now) self.now) }
    {
        let code = code_of(alloc, one)?;
        let place = self.codes.place(code.as_slice());
        Ok(place)
    }

    /// The token of the TypeSpec row of one; 0 for one that wasn't met.
    pub fn token(&self, alloc: Global, one: &Sig) -> Result<u32, NoMemory>
        ensures { IfOk result (λ token. token ≡ row_token TYPE_SPEC (position (same_sig one.now) self.now)) }
    {
        let place = self.place(alloc, one)?;
        let token = row_token(table::TYPE_SPEC, place)?;
        Ok(token)
    }
}
