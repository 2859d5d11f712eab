//! The tokens of kept members.

ghost use Rattle.std.specs.Prelude.{◌≡◌, IfOk};
ghost use Rattle.il_base.specs.declared.table.TheConstants.{METHOD_DEF, FIELD};
ghost use Rattle.rules.specs.merge_rules.Refs.{kept_token, method_at, field_at};

use crate::own_members::fields::field_at;
use crate::own_members::methods::method_at;
use crate::tokens::kept_token;
use il_base::world_model::AsmRec;
use il_base::{FieldId, MethodId, NoMemory, table};
use merge_plan::Numbers;

/// The MethodDef token of a method; 0 for one that goes.
pub(crate) fn kept_method(recs: &[AsmRec], kept: &Numbers, id: MethodId) -> Result<u32, NoMemory>
    ensures { IfOk result (λ token. token ≡ kept_token METHOD_DEF kept.now (method_at recs.now id)) }
{
    let home = method_at(recs, id)?;
    match home {
        None => Ok(0),
        Some(at) => {
            let token = kept_token(table::METHOD_DEF, kept, at)?;
            Ok(token)
        }
    }
}

/// The Field token of a field; 0 for one that goes.
pub(crate) fn kept_field(recs: &[AsmRec], kept: &Numbers, id: FieldId) -> Result<u32, NoMemory>
    ensures { IfOk result (λ token. token ≡ kept_token FIELD kept.now (field_at recs.now id)) }
{
    let home = field_at(recs, id)?;
    match home {
        None => Ok(0),
        Some(at) => {
            let token = kept_token(table::FIELD, kept, at)?;
            Ok(token)
        }
    }
}
