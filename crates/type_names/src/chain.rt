//! A type and its enclosers (II.22.32), from inside outwards.

ghost use Rattle.std.specs.Prelude.{◌≡◌, ◌++◌, length, IfOk, OnOk};
ghost use Rattle.rules.specs.type_rules.Texts.{full_name, row_name};
ghost use Rattle.type_names.specs.Chains.{bare_name, own_name, inner_names, chain_name};

use crate::nested::Nested;
use il_base::world_model::{AsmRec, TypeDefRow};
use il_base::{NoMemory, Seq, Text};
use std::alloc::Global;

/// A type and its enclosers, by their rows from 0.
#[derive(Drop)]
pub(crate) struct Chain {
    /// The type that isn't nested; None where the enclosers go in a circle.
    outermost: Option<u32>,
    /// The nested types, from inside outwards.
    inner: Seq<u32>,
}

impl Chain {
    /// A type and its enclosers, at most as many as the assembly has types.
    #[tactic(auto, unfolding(rules::specs::type_rules::Texts::row_name))]
    pub(crate) fn of(alloc: Global, nested: &Nested, row: u32) -> Result<Chain, NoMemory>
        ensures { IfOk result (λ c. chain_name nested.now c ≡ row_name nested.now (length nested.now.type_def) row) }
    {
        let mut at = row;
        let mut inner = Seq::new(alloc);
        for _step in 0..nested.rec().type_def.len() {
            match nested.encloser(at) {
                None => {
                    return Ok(Chain {
                        outermost: Some(at),
                        inner,
                    });
                }
                Some(around) => {
                    inner.push(at)?;
                    at = around;
                }
            }
        }
        Ok(Chain {
            outermost: None,
            inner,
        })
    }

    /// Puts the names of the types at the end, from outside inwards, with `+` before each but the first.
    pub(crate) fn put(self, rec: &AsmRec, out: &mut Text) -> Result<(), NoMemory>
        ensures { OnOk result (out.new ≡ out.old ++ chain_name rec.now self) }
    {
        let Chain { outermost, inner } = self;
        if let Some(row) = outermost {
            put_own(rec, row, out)?;
        }
        put_inner(rec, inner, out)?;
        Ok(())
    }
}

/// Puts the names of nested types at the end, the last one first, with `+` before each.
fn put_inner(rec: &AsmRec, inner: Seq<u32>, out: &mut Text) -> Result<(), NoMemory>
    ensures { OnOk result (out.new ≡ out.old ++ inner_names rec.now inner) }
{
    let mut left = inner;
    loop {
        match left.pop() {
            None => return Ok(()),
            Some(row) => {
                out.push(b'+')?;
                put_bare(rec, row, out)?;
            }
        }
    }
}

/// The name of a type's row, from 0, without a namespace and without its enclosers.
pub(crate) fn bare_name(rec: &AsmRec, row: u32) -> &[u8]
    ensures { result.now ≡ bare_name rec.now row }
{
    match rec.type_def.get(row as usize) {
        None => &[],
        Some(ty) => ty.name.as_slice(),
    }
}

/// Puts the name of a nested type's row, from 0, at the end, without a namespace.
fn put_bare(rec: &AsmRec, row: u32, out: &mut Text) -> Result<(), NoMemory>
    ensures { OnOk result (out.new ≡ out.old ++ bare_name rec.now row) }
{
    out.extend_from_slice(bare_name(rec, row))?;
    Ok(())
}

/// Puts the name of the row, from 0, of a type that isn't nested at the end.
fn put_own(rec: &AsmRec, row: u32, out: &mut Text) -> Result<(), NoMemory>
    ensures { OnOk result (out.new ≡ out.old ++ own_name rec.now row) }
{
    if let Some(ty) = rec.type_def.get(row as usize) {
        put_full_name(ty, out)?;
    }
    Ok(())
}

/// Puts a type's namespace, if it has one, and its name at the end.
fn put_full_name(row: &TypeDefRow, out: &mut Text) -> Result<(), NoMemory>
    ensures { OnOk result (out.new ≡ out.old ++ full_name row.now) }
{
    if !row.namespace.is_empty() {
        out.extend_from_slice(row.namespace.as_slice())?;
        out.push(b'.')?;
    }
    out.extend_from_slice(row.name.as_slice())?;
    Ok(())
}
