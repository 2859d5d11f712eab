//! The assemblies of a world with the enclosers of their nested types.

ghost use Rattle.std.specs.Prelude.{◌≡◌, IfOk};
ghost use Rattle.std.specs.Option.{option_map};
ghost use Rattle.type_names.specs.Homes.{row_of};

use crate::nested::Nested;
use il_base::world_model::AsmRec;
use il_base::{NoMemory, Seq, TypeId};
use std::alloc::Global;
use std::marker::Model;

/// The assemblies of a world, the last one the core library, with the enclosers of their nested types. Contracts see the
/// records.
#[derive(Drop)]
pub(crate) struct Assemblies<'a> {
    recs: &'a [AsmRec],
    nested: Seq<Nested<'a>>,
}

impl<'a> Model for Assemblies<'a> {
    ghost use Rattle.std.specs.Prelude.{◌≡◌, List};
    ghost use Rattle.std.specs.Coded.{coded_list};
    ghost use Rattle.il_base.specs.declared.world_model.record.AsmRec.{AsmRec};
    ghost use Rattle.il_base.specs.contracts.world_model.record.AsmRec as asm_rec;

    ghost Value = { List AsmRec };

    ghost coded = { coded_list asm_rec.the_row.coded };

    ghost view = { λ a. a.recs.now };

    ghost invariant = { λ a. a.nested ≡ a.recs.now };
}

impl<'a> Assemblies<'a> {
    pub(crate) fn of(alloc: Global, recs: &'a [AsmRec]) -> Result<Assemblies<'a>, NoMemory>
        ensures { IfOk result (λ a. a ≡ recs.now) }
    {
        let mut nested: Seq<Nested<'a>> = Seq::new(alloc);
        for rec in recs {
            match Nested::of(alloc, rec) {
                Err(_) => return Err(NoMemory),
                Ok(one) => nested.push(one)?,
            }
        }
        Ok(Assemblies { recs, nested })
    }

    /// The records.
    pub(crate) fn recs(&self) -> &'a [AsmRec]
        ensures { result.now ≡ self.now }
    {
        self.recs
    }

    /// The assemblies.
    pub(crate) fn nested(&self) -> &[Nested<'a>]
        ensures { result.now ≡ self.now }
    {
        self.nested.as_slice()
    }

    /// The assembly and the row, from 0, of a type; None where the assemblies have no such type.
    pub(crate) fn row_of(&self, id: TypeId) -> Option<(&Nested<'a>, u32)>
        ensures { option_map (λ p. (p.0.now, p.1)) result ≡ row_of self.now id.0 }
    {
        let mut row = id.0;
        for nested in self.nested.as_slice() {
            let count = nested.rec().type_def.len();
            if (row as usize) < count {
                return Some((nested, row));
            }
            row -= count as u32;
        }
        None
    }
}
