ghost use Rattle.std.specs.Prelude.{◌≡◌, IfOk};
ghost use Rattle.rules.specs.link_rules.Members.{type_home};

use il_base::world_model::AsmRec;
use il_base::{NoMemory, TypeId};
use rules::link_rules::RowAt;

/// The assembly and row of a type.
#[tactic(auto, unfolding(rules::specs::link_rules::Members::home_from))]
pub fn type_home(all: &[AsmRec], id: TypeId) -> Result<Option<RowAt>, NoMemory>
    ensures { IfOk result (λ at. at ≡ type_home all.now id) }
{
    let mut left = id.0;
    for (a, rec) in all.iter().enumerate() {
        let count = rec.type_def.len();
        if (left as usize) < count {
            let Ok(asm) = u32::try_from(a) else {
                return Err(NoMemory);
            };
            return Ok(Some(RowAt { asm, row: left }));
        }
        left -= count as u32;
    }
    Ok(None)
}
