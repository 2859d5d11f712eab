//! Types that are met, which have TypeRef rows (II.22.38).

ghost use Rattle.std.specs.Prelude.{◌≡◌, map, IfOk, OnOk};
ghost use Rattle.std.specs.List.{position};
ghost use Rattle.rules.specs.merge_rules.Refs.{same_id, met_once, each_once, row_token};
ghost use Rattle.token_keys.specs.met_keys.Ids.{id_code};
ghost use Rattle.il_base.specs.declared.table.TheConstants.{TYPE_REF};

use crate::met_keys::codes::Met;
use crate::met_keys::row_tokens::row_token;
use il_base::{NoMemory, TypeId, table};
use std::alloc::Global;
use std::marker::Model;

/// Types by their places among the types of the world, each once, in the order in which they were first met. Contracts see
/// their list.
#[derive(Drop)]
pub struct MetTypes {
    codes: Met,
    firsts: Vec<TypeId>,
}

impl Model for MetTypes {
    ghost use Rattle.std.specs.Prelude.{◌≡◌, List, map};
    ghost use Rattle.std.specs.Coded.{coded_list};
    ghost use Rattle.il_base.specs.declared.ids.TypeId.{TypeId};
    ghost use Rattle.il_base.specs.contracts.ids.TypeId as id;
    ghost use Rattle.token_keys.specs.met_keys.Ids.{id_code};

    ghost Value = { List TypeId };

    ghost coded = { coded_list id.the_row.coded };

    ghost view = { λ m. m.firsts.items };

    ghost invariant = { λ m. m.codes ≡ map id_code m.firsts.items };
}

/// The code of one.
fn code_of(alloc: Global, one: TypeId) -> Result<Vec<u32>, NoMemory>
    ensures { IfOk result (λ code. code.items ≡ id_code one) }
{
    let mut code = Vec::new(alloc);
    code.push(one.0)?;
    Ok(code)
}

/// Puts one at the end, where it wasn't met yet.
fn meet(
    alloc: Global,
    codes: &mut Met,
    firsts: &mut Vec<TypeId>,
    one: TypeId,
) -> Result<(), NoMemory>
    requires { codes.old ≡ map id_code firsts.old.items }
    ensures firsts { OnOk result (firsts.new.items ≡ met_once same_id firsts.old.items one) }
    ensures codes { OnOk result (codes.new ≡ map id_code firsts.new.items) }
{
    let code = code_of(alloc, one)?;
    if codes.has(code.as_slice()) {
        return Ok(());
    }
    codes.meet(code)?;
    firsts.push(one)?;
    Ok(())
}

impl MetTypes {
    /// All that are met, in order.
    pub fn of(alloc: Global, all: &[TypeId]) -> Result<MetTypes, NoMemory>
        ensures { IfOk result (λ m. m ≡ each_once same_id all.now) }
    {
        let mut codes = Met::new(alloc);
        let mut firsts = Vec::new(alloc);
        for one in all {
            meet(alloc, &mut codes, &mut firsts, *one)?;
        }
        Ok(MetTypes { codes, firsts })
    }

    /// Each once, as first met.
    pub fn firsts(&self) -> &[TypeId]
        ensures { result.now ≡ self.now }
    {
        self.firsts.as_slice()
    }

    /// Which of them one is, counted from 0; None for one that wasn't met.
    pub fn place(&self, alloc: Global, one: TypeId) -> Result<Option<usize>, NoMemory>
        ensures { IfOk result (λ p. p ≡ position (same_id one) self.now) }
    {
        let code = code_of(alloc, one)?;
        let place = self.codes.place(code.as_slice());
        Ok(place)
    }

    /// The token of the TypeRef row of one; 0 for one that wasn't met.
    pub fn token(&self, alloc: Global, one: TypeId) -> Result<u32, NoMemory>
        ensures { IfOk result (λ token. token ≡ row_token TYPE_REF (position (same_id one) self.now)) }
    {
        let place = self.place(alloc, one)?;
        let token = row_token(table::TYPE_REF, place)?;
        Ok(token)
    }
}
