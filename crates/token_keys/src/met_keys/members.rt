//! Members that are met, which have MemberRef rows (II.22.25).

ghost use Rattle.std.specs.Prelude.{◌≡◌, map, IfOk, OnOk};
ghost use Rattle.std.specs.List.{position};
ghost use Rattle.rules.specs.merge_rules.Refs.{same_member};
ghost use Rattle.rules.specs.merge_rules.Refs.{met_once, each_once, row_token};
ghost use Rattle.token_keys.specs.key_codes.KeyCodes.{member_key_code};
ghost use Rattle.token_keys.specs.key_codes.Keys.{member_key};
ghost use Rattle.il_base.specs.declared.table.TheConstants.{MEMBER_REF};

use crate::key_codes::keys::{MemberKey, add_member_key};
use crate::met_keys::codes::Met;
use crate::met_keys::row_tokens::row_token;
use il_base::{NoMemory, table};
use std::alloc::Global;
use std::marker::Model;

/// Members, each once, in the order in which they were first met. Contracts see their list.
#[derive(Drop)]
pub struct MetMembers {
    codes: Met,
    firsts: Vec<MemberKey>,
}

impl Model for MetMembers {
    ghost use Rattle.std.specs.Prelude.{◌≡◌, List, map};
    ghost use Rattle.std.specs.Coded.{coded_list};
    ghost use Rattle.token_keys.specs.declared.key_codes.keys.MemberKey.{MemberKey};
    ghost use Rattle.token_keys.specs.contracts.key_codes.keys.MemberKey as key;
    ghost use Rattle.token_keys.specs.key_codes.KeyCodes.{member_key_code};
    ghost use Rattle.token_keys.specs.key_codes.Keys.{member_key};

    ghost Value = { List MemberKey };

    ghost coded = { coded_list key.the_row.coded };

    ghost view = { λ m. m.firsts.items };

    ghost invariant = { λ m. m.codes ≡ map member_key_code (map member_key m.firsts.items) };
}

/// The code of one.
fn code_of(alloc: Global, one: &MemberKey) -> Result<Vec<u32>, NoMemory>
    ensures { IfOk result (λ code. code.items ≡ member_key_code (member_key one.now)) }
{
    let mut code = Vec::new(alloc);
    add_member_key(&mut code, one)?;
    Ok(code)
}

/// Puts one at the end, where it wasn't met yet.
fn meet(
    alloc: Global,
    codes: &mut Met,
    firsts: &mut Vec<MemberKey>,
    one: MemberKey,
) -> Result<(), NoMemory>
    requires { codes.old ≡ map member_key_code (map member_key firsts.old.items) }
    ensures firsts { OnOk result (map member_key firsts.new.items ≡ met_once same_member (map member_key firsts.old.items) (member_key one)) }
    ensures codes { OnOk result (codes.new ≡ map member_key_code (map member_key firsts.new.items)) }
{
    let code = code_of(alloc, &one)?;
    if codes.has(code.as_slice()) {
        drop(one);
        return Ok(());
    }
    codes.meet(code)?;
    firsts.push(one)?;
    Ok(())
}

impl MetMembers {
    /// All that are met, in order.
    pub fn of(alloc: Global, all: Vec<MemberKey>) -> Result<MetMembers, NoMemory>
        ensures { IfOk result (λ m. map member_key m ≡ each_once same_member (map member_key all.items)) }
    {
        let mut codes = Met::new(alloc);
        let mut firsts = Vec::new(alloc);
        for one in all {
            meet(alloc, &mut codes, &mut firsts, one)?;
        }
        Ok(MetMembers { codes, firsts })
    }

    /// Each once, as first met.
    pub fn firsts(&self) -> &[MemberKey]
        ensures { result.now ≡ self.now }
    {
        self.firsts.as_slice()
    }

    /// Which of them one is, counted from 0; None for one that wasn't met.
    pub fn place(&self, alloc: Global, one: &MemberKey) -> Result<Option<usize>, NoMemory>
        ensures { IfOk result (λ p. p ≡ position (same_member (member_key one.now)) (map member_key self.now)) }
    {
        let code = code_of(alloc, one)?;
        let place = self.codes.place(code.as_slice());
        Ok(place)
    }

    /// The token of the MemberRef row of one; 0 for one that wasn't met.
    pub fn token(&self, alloc: Global, one: &MemberKey) -> Result<u32, NoMemory>
        ensures { IfOk result (λ token. token ≡ row_token MEMBER_REF (position (same_member (member_key one.now)) (map member_key self.now))) }
    {
        let place = self.place(alloc, one)?;
        let token = row_token(table::MEMBER_REF, place)?;
        Ok(token)
    }
}
