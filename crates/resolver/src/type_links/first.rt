ghost use Rattle.std.specs.Prelude.{OnOk};
ghost use Rattle.resolver.specs.type_links.First.{KeepsFirst};

use il_base::NoMemory;
use std::collections::HashMap;
use std::hash::Hash;

/// Puts a value under a key that has none; a key's first value stays.
pub(crate) fn keep_first<K: Eq + Hash + Drop, V: Drop>(
    map: &mut HashMap<K, V>,
    key: K,
    value: V,
) -> Result<(), NoMemory>
    ensures { OnOk result (KeepsFirst K.eq map.old key value map.new) }
{
    if !map.contains_key(&key) {
        map.insert(key, value)?;
    }
    Ok(())
}
