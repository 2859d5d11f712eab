//! Methods with arguments that are met, which have MethodSpec rows (II.22.29).

ghost use Rattle.std.specs.Prelude.{◌≡◌, map, IfOk, OnOk};
ghost use Rattle.std.specs.List.{position};
ghost use Rattle.rules.specs.merge_rules.Keys.{same_instance};
ghost use Rattle.rules.specs.merge_rules.Refs.{met_once, each_once, row_token};
ghost use Rattle.token_keys.specs.key_codes.KeyCodes.{instance_key_code};
ghost use Rattle.token_keys.specs.key_codes.Keys.{instance_key};
ghost use Rattle.il_base.specs.declared.table.TheConstants.{METHOD_SPEC};

use crate::key_codes::keys::{InstanceKey, add_instance_key};
use crate::met_keys::codes::Met;
use crate::met_keys::row_tokens::row_token;
use il_base::{NoMemory, table};
use std::alloc::Global;
use std::marker::Model;

/// Methods with arguments, each once, in the order in which they were first met. Contracts see their list.
#[derive(Drop)]
pub struct MetInstances {
    codes: Met,
    firsts: Vec<InstanceKey>,
}

impl Model for MetInstances {
    ghost use Rattle.std.specs.Prelude.{◌≡◌, List, map};
    ghost use Rattle.std.specs.Coded.{coded_list};
    ghost use Rattle.token_keys.specs.declared.key_codes.keys.InstanceKey.{InstanceKey};
    ghost use Rattle.token_keys.specs.contracts.key_codes.keys.InstanceKey as key;
    ghost use Rattle.token_keys.specs.key_codes.KeyCodes.{instance_key_code};
    ghost use Rattle.token_keys.specs.key_codes.Keys.{instance_key};

    ghost Value = { List InstanceKey };

    ghost coded = { coded_list key.the_row.coded };

    ghost view = { λ m. m.firsts.items };

    ghost invariant = { λ m. m.codes ≡ map instance_key_code (map instance_key m.firsts.items) };
}

/// The code of one.
fn code_of(alloc: Global, one: &InstanceKey) -> Result<Vec<u32>, NoMemory>
    ensures { IfOk result (λ code. code.items ≡ instance_key_code (instance_key one.now)) }
{
    let mut code = Vec::new(alloc);
    add_instance_key(&mut code, one)?;
    Ok(code)
}

/// Puts one at the end, where it wasn't met yet.
fn meet(
    alloc: Global,
    codes: &mut Met,
    firsts: &mut Vec<InstanceKey>,
    one: InstanceKey,
) -> Result<(), NoMemory>
    requires { codes.old ≡ map instance_key_code (map instance_key firsts.old.items) }
    ensures firsts { OnOk result (map instance_key firsts.new.items ≡ met_once same_instance (map instance_key firsts.old.items) (instance_key one)) }
    ensures codes { OnOk result (codes.new ≡ map instance_key_code (map instance_key firsts.new.items)) }
{
    let code = code_of(alloc, &one)?;
    if codes.has(code.as_slice()) {
        drop(one);
        return Ok(());
    }
    codes.meet(code)?;
    firsts.push(one)?;
    Ok(())
}

impl MetInstances {
    /// All that are met, in order.
    pub fn of(alloc: Global, all: Vec<InstanceKey>) -> Result<MetInstances, NoMemory>
        ensures { IfOk result (λ m. map instance_key m ≡ each_once same_instance (map instance_key all.items)) }
    {
        let mut codes = Met::new(alloc);
        let mut firsts = Vec::new(alloc);
        for one in all {
            meet(alloc, &mut codes, &mut firsts, one)?;
        }
        Ok(MetInstances { codes, firsts })
    }

    /// Each once, as first met.
    pub fn firsts(&self) -> &[InstanceKey]
        ensures { result.now ≡ self.now }
    {
        self.firsts.as_slice()
    }

    /// Which of them one is, counted from 0; None for one that wasn't met.
    pub fn place(&self, alloc: Global, one: &InstanceKey) -> Result<Option<usize>, NoMemory>
        ensures { IfOk result (λ p. p ≡ position (same_instance (instance_key one.now)) (map instance_key self.now)) }
    {
        let code = code_of(alloc, one)?;
        let place = self.codes.place(code.as_slice());
        Ok(place)
    }

    /// The token of the MethodSpec row of one; 0 for one that wasn't met.
    pub fn token(&self, alloc: Global, one: &InstanceKey) -> Result<u32, NoMemory>
        ensures { IfOk result (λ token. token ≡ row_token METHOD_SPEC (position (same_instance (instance_key one.now)) (map instance_key self.now))) }
    {
        let place = self.place(alloc, one)?;
        let token = row_token(table::METHOD_SPEC, place)?;
        Ok(token)
    }
}
