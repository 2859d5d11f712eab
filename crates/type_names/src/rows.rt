//! The types of an assembly by their full names, nested ones by their names alone and their enclosers.

ghost use Rattle.std.specs.Prelude.{◌≡◌, IfOk, OnOk};
ghost use Rattle.std.specs.HashMap.{get};
ghost use Rattle.rules.specs.link_rules.Types.{or_else};
ghost use Rattle.rules.specs.type_rules.Texts.{part_name};
ghost use Rattle.rules.specs.type_rules.Searches.{named_within, nested_along, type_along};
ghost use Rattle.type_names.specs.declared.full_name.FullName.{FullName};
ghost use Rattle.type_names.specs.FullNames.{name_of, same_full_name, row_if};

use crate::full_name::FullName;
use crate::nested::Nested;
use il_base::world_model::{AsmRec, TypeDefRow};
use il_base::{NoMemory, Text};
use std::alloc::Global;
use std::collections::HashMap;
use std::marker::Model;

/// An assembly, and the first type of each name and encloser. Contracts see the record.
#[derive(Drop)]
pub(crate) struct TypeRows<'a> {
    rec: &'a AsmRec,
    /// The row, from 0.
    rows: HashMap<FullName<'a>, u32>,
}

impl<'a> Model for TypeRows<'a> {
    ghost use Rattle.std.specs.Prelude.{◌≡◌};
    ghost use Rattle.std.specs.HashMap.{get};
    ghost use Rattle.il_base.specs.declared.world_model.record.AsmRec.{AsmRec};
    ghost use Rattle.il_base.specs.contracts.world_model.record.AsmRec as asm_rec;
    ghost use Rattle.rules.specs.type_rules.Searches.{named_within};
    ghost use Rattle.type_names.specs.declared.full_name.FullName.{FullName};
    ghost use Rattle.type_names.specs.FullNames.{name_of, same_full_name};

    ghost Value = { AsmRec };

    ghost coded = { asm_rec.the_row.coded };

    ghost view = { λ t. t.rec.now };

    ghost invariant = { λ t. (q : FullName) → get same_full_name t.rows q ≡ named_within t.rec.now q.around (name_of q) };
}

/// The key of a type with this encloser. A nested type's is its name alone (II.22.37).
fn key_of<'a>(around: Option<u32>, ty: &'a TypeDefRow) -> FullName<'a>
    ensures { (result.around ≡ around) × (name_of result ≡ part_name around ty.now) }
{
    let namespace = match around {
        None => ty.namespace.as_slice(),
        Some(_) => &[],
    };
    FullName {
        around,
        namespace,
        name: ty.name.as_slice(),
    }
}

/// Puts a row under its full name, where the name has none yet.
#[tactic(auto, using(crate::proofs::Keeping::kept, crate::proofs::Keeping::put))]
fn put_first<'a>(
    rows: &mut HashMap<FullName<'a>, u32>,
    key: FullName<'a>,
    row: u32,
) -> Result<(), NoMemory>
    ensures { OnOk result ((q : FullName) → get same_full_name rows.new q ≡ or_else (get same_full_name rows.old q) (row_if (same_full_name key.entry q) row)) }
{
    if !rows.contains_key(&key) {
        rows.insert(key, row)?;
    }
    Ok(())
}

impl<'a> TypeRows<'a> {
    pub(crate) fn of(alloc: Global, nested: &Nested<'a>) -> Result<TypeRows<'a>, NoMemory>
        ensures { IfOk result (λ t. t ≡ nested.now) }
    {
        let rec = nested.rec();
        let mut rows = HashMap::new(alloc);
        for (i, ty) in rec.type_def.as_slice().iter().enumerate() {
            let Ok(row) = u32::try_from(i) else {
                return Err(NoMemory);
            };
            put_first(&mut rows, key_of(nested.encloser(row), ty), row)?;
        }
        Ok(TypeRows { rec, rows })
    }

    /// The row, from 0, of the first type with this name in a type of this row, or with this full name where it isn't nested.
    pub(crate) fn row(&self, around: Option<u32>, name: &[u8]) -> Option<u32>
        ensures { result ≡ named_within self.now around name.now }
    {
        let key = FullName {
            around,
            namespace: &[],
            name,
        };
        self.rows.get(&key).copied()
    }

    /// The row, from 0, of the type that a path names: the full name of a type that isn't nested, then the names of
    /// nested types from outside inwards.
    #[tactic(auto, unfolding(rules::specs::type_rules::Searches::type_along, rules::specs::type_rules::Searches::nested_along))]
    pub(crate) fn along(&self, path: &[Text]) -> Option<u32>
        ensures { result ≡ type_along self.now path.now }
    {
        match path {
            [] => None,
            [name, nested @ ..] => {
                if name.as_slice() == b"<Module>".as_slice() {
                    return None;
                }
                match self.row(None, name.as_slice()) {
                    None => None,
                    Some(row) => self.nested_along(row, nested),
                }
            }
        }
    }

    /// The row, from 0, of the nested type that the rest of a path names.
    #[tactic(auto, unfolding(rules::specs::type_rules::Searches::nested_along))]
    fn nested_along(&self, row: u32, path: &[Text]) -> Option<u32>
        ensures { result ≡ nested_along self.now path.now (Some row) }
    {
        let mut at = row;
        for name in path {
            match self.row(Some(at), name.as_slice()) {
                None => return None,
                Some(inner) => at = inner,
            }
        }
        Some(at)
    }
}
