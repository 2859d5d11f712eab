//! MethodSpec rows.

ghost use Rattle.std.specs.Prelude.{◌≡◌, map, IfOk};
ghost use Rattle.token_keys.specs.key_codes.Keys as coded;
ghost use Rattle.restrict.specs.member_rows.Rows.{AreRowParts, method_spec_by, method_specs_by};

use crate::member_rows::parts::RowParts;
use il_base::world_model::{Known, MethodSpecRow};
use il_base::{NoMemory, Seq};
use merge_plan::moved_parts::moved_sigs;
use std::alloc::Global;
use token_keys::key_codes::keys::InstanceKey;

/// The row of a method with arguments.
fn instance_row(
    alloc: Global,
    parts: &RowParts<'_>,
    key: &InstanceKey,
) -> Result<MethodSpecRow, NoMemory>
    requires { AreRowParts parts.now }
    ensures { IfOk result (λ row. row ≡ method_spec_by parts.now (coded.instance_key key.now)) }
{
    let method = parts.keys.of_method(alloc, &key.method)?;
    let args = moved_sigs(alloc, parts.numbers, key.args.as_slice())?;
    Ok(MethodSpecRow {
        method,
        instantiation: Known::Good(args),
    })
}

/// The rows of these methods with arguments, in their order.
fn rows_of(
    alloc: Global,
    parts: &RowParts<'_>,
    instances: &[InstanceKey],
) -> Result<Seq<MethodSpecRow>, NoMemory>
    requires { AreRowParts parts.now }
    ensures { IfOk result (λ rows. rows ≡ map (method_spec_by parts.now) (map coded.instance_key instances.now)) }
{
    let mut rows = Seq::new(alloc);
    for key in instances {
        let row = instance_row(alloc, parts, key)?;
        rows.push(row)?;
    }
    Ok(rows)
}

/// The MethodSpec rows of the output, in the order in which the methods with arguments are first met.
pub fn method_spec_rows(alloc: Global, parts: &RowParts<'_>) -> Result<Seq<MethodSpecRow>, NoMemory>
    requires { AreRowParts parts.now }
    ensures { IfOk result (λ rows. rows ≡ method_specs_by parts.now) }
{
    let instances = parts.keys.instances;
    let rows = rows_of(alloc, parts, instances.firsts())?;
    Ok(rows)
}
