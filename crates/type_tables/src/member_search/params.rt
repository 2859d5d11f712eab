ghost use Rattle.std.specs.Prelude.{◌≡◌, IfOk};
ghost use Rattle.rules.specs.link_rules.Members.{param_count};
ghost use Rattle.type_tables.specs.member_search.Params.{AreParamCounts};

use crate::member_search::counted::sum;
use il_base::world_model::{AsmRec, token_of};
use il_base::{NoMemory, table};
use std::alloc::Global;
use std::collections::HashMap;

/// How many generic parameters each type or method of an assembly has, by its token (II.22.20).
#[derive(Drop)]
pub struct ParamCounts {
    counts: HashMap<u32, u32>,
}

impl ParamCounts {
    pub fn of(alloc: Global, rec: &AsmRec) -> Result<ParamCounts, NoMemory>
        ensures { IfOk result (AreParamCounts rec.now) }
    {
        let mut counts = HashMap::new(alloc);
        for row in rec.generic_param.as_slice() {
            let before = match counts.get(&row.owner) {
                Some(count) => *count,
                None => 0,
            };
            counts.insert(row.owner, sum(before, 1)?)?;
        }
        Ok(ParamCounts { counts })
    }
}

/// How many generic parameters a type, counted from 0, has.
#[tactic(auto, unfolding(rules::specs::link_rules::Members::param_count))]
pub fn param_count(rec: &AsmRec, params: &ParamCounts, row: u32) -> Result<u32, NoMemory>
    requires { AreParamCounts rec.now params.now }
    ensures { IfOk result (λ count. count ≡ param_count rec.now row) }
{
    let token = token_of(table::TYPE_DEF, row as usize)?;
    match params.counts.get(&token) {
        Some(count) => Ok(*count),
        None => Ok(0),
    }
}
