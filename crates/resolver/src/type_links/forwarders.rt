ghost use Rattle.std.specs.Prelude.{IfOk};
ghost use Rattle.resolver.specs.type_links.Forwarding.{AreForwarders};

use crate::type_links::first::keep_first;
use crate::type_links::names::TypeName;
use il_base::world_model::{AsmRec, index_in, table_of};
use il_base::{NoMemory, table};
use std::alloc::Global;
use std::collections::HashMap;

/// The AssemblyRef row, from 0, of the assembly to which an assembly forwards the type of each name (II.22.14); None for a
/// token of row 0.
pub(crate) fn forwarders<'a>(
    alloc: Global,
    rec: &'a AsmRec,
) -> Result<HashMap<TypeName<'a>, Option<u32>>, NoMemory>
    ensures { IfOk result (AreForwarders rec.now) }
{
    let mut rows = HashMap::new(alloc);
    for row in rec.exported_type.as_slice() {
        let name = TypeName {
            namespace: row.namespace.as_slice(),
            name: row.name.as_slice(),
        };
        if table_of(row.implementation) == table::ASSEMBLY_REF {
            keep_first(
                &mut rows,
                name,
                index_in(table::ASSEMBLY_REF, row.implementation),
            )?;
        }
    }
    Ok(rows)
}
