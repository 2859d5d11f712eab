//! The texts of assemblies by their tokens.

ghost use Rattle.std.specs.Prelude.{◌≡◌, IfOk};
ghost use Rattle.std.specs.Option.{option_copied};
ghost use Rattle.merged_tables.specs.merged_texts.Texts.{AreLoads, AreAllLoads, units_at};

use il_base::NoMemory;
use il_base::world_model::AsmRec;
use std::alloc::Global;
use std::collections::HashMap;

/// The texts of an assembly by the tokens under which `ldstr` loads them.
#[derive(Drop)]
pub(crate) struct Loads<'a> {
    units: HashMap<u32, &'a [u16]>,
}

impl<'a> Loads<'a> {
    /// The first text under each token.
    fn of(alloc: Global, rec: &'a AsmRec) -> Result<Loads<'a>, NoMemory>
        ensures { IfOk result (AreLoads rec.now) }
    {
        let mut units: HashMap<u32, &'a [u16]> = HashMap::new(alloc);
        for text in rec.user.as_slice() {
            if !units.contains_key(&text.token) {
                units.insert(text.token, text.text.as_slice())?;
            }
        }
        Ok(Loads { units })
    }

    /// The text under a token.
    pub(crate) fn get(&self, token: u32) -> Option<&'a [u16]>
        ensures { option_copied result ≡ units_at self.now token }
    {
        self.units.get(&token).copied()
    }
}

/// The texts of all assemblies.
pub(crate) fn all_loads<'a>(alloc: Global, recs: &'a [AsmRec]) -> Result<Vec<Loads<'a>>, NoMemory>
    ensures { IfOk result (λ all. AreAllLoads recs.now all.items) }
{
    let mut all = Vec::new(alloc);
    for rec in recs {
        let loads = Loads::of(alloc, rec)?;
        all.push(loads)?;
    }
    Ok(all)
}
