//! A type and its enclosers (II.22.32), from inside outwards.

ghost use Rattle.std.specs.Prelude.{◌≡◌, ◌++◌, slice_get, IfOk, OnOk};
ghost use Rattle.std.specs.Option.{is_some};
ghost use Rattle.rules.specs.type_rules.Texts.{full_name};
ghost use Rattle.rules.specs.mark_rules.Roots.{slashed_name};
ghost use Rattle.mark_parts.specs.mark_tables.Assemblies.{rec_of, IsAssembly};
ghost use Rattle.descriptor_texts.specs.slashed_names.Chains.{bare_name, own_name, inner_names, chain_name};

use il_base::world_model::{AsmRec, TypeDefRow};
use il_base::{NoMemory, Seq, Text};
use mark_parts::mark_tables::assembly::Assembly;
use std::alloc::Global;
use type_tables::member_search::counted::sum;

/// A type and its enclosers, by their rows from 0.
#[derive(Drop)]
pub(crate) struct Chain {
    /// The type that isn't nested; None where the last encloser is no row, or the enclosers go in a circle.
    outermost: Option<u32>,
    /// The nested types, from inside outwards.
    inner: Seq<u32>,
}

/// Whether a row of TypeDef, from 0, is there.
fn is_type(rec: &AsmRec, row: u32) -> bool
    ensures { result ≡ is_some (slice_get rec.now.type_def row) }
{
    rec.type_def.get(row as usize).is_some()
}

impl Chain {
    /// A type and its enclosers.
    pub(crate) fn of(alloc: Global, asm: &Assembly<'_>, row: u32) -> Result<Chain, NoMemory>
        requires { IsAssembly asm.now }
        ensures { IfOk result (λ c. chain_name (rec_of asm.now) c ≡ slashed_name (rec_of asm.now) row) }
    {
        let count = sum(1, asm.scope.rec.type_def.len())?;
        let mut at = row;
        let mut inner = Seq::new(alloc);
        for _step in 0..count {
            let there = is_type(asm.scope.rec, at);
            if !there {
                return Ok(Chain {
                    outermost: None,
                    inner,
                });
            }
            match asm.encloser(at) {
                Ok(None) => {
                    return Ok(Chain {
                        outermost: Some(at),
                        inner,
                    });
                }
                Ok(Some(around)) => {
                    inner.push(at)?;
                    at = around;
                }
                Err(error) => return Err(error),
            }
        }
        Ok(Chain {
            outermost: None,
            inner,
        })
    }

    /// Puts the names of the types at the end, from outside inwards, with `/` before each but the first.
    pub(crate) fn put(self, rec: &AsmRec, out: &mut Text) -> Result<(), NoMemory>
        ensures { OnOk result (out.new ≡ out.old ++ chain_name rec.now self) }
    {
        let Chain { outermost, inner } = self;
        if let Some(row) = outermost {
            put_own(rec, row, out)?;
        }
        put_inner(rec, inner, out)?;
        Ok(())
    }
}

/// Puts the names of nested types at the end, the last one first, with `/` before each.
fn put_inner(rec: &AsmRec, inner: Seq<u32>, out: &mut Text) -> Result<(), NoMemory>
    ensures { OnOk result (out.new ≡ out.old ++ inner_names rec.now inner) }
{
    let mut left = inner;
    loop {
        match left.pop() {
            None => return Ok(()),
            Some(row) => {
                out.push(b'/')?;
                put_bare(rec, row, out)?;
            }
        }
    }
}

/// Puts the name of a nested type's row, from 0, at the end, without a namespace.
fn put_bare(rec: &AsmRec, row: u32, out: &mut Text) -> Result<(), NoMemory>
    ensures { OnOk result (out.new ≡ out.old ++ bare_name rec.now row) }
{
    if let Some(ty) = rec.type_def.get(row as usize) {
        out.extend_from_slice(ty.name.as_slice())?;
    }
    Ok(())
}

/// Puts the name of the row, from 0, of a type that isn't nested at the end.
fn put_own(rec: &AsmRec, row: u32, out: &mut Text) -> Result<(), NoMemory>
    ensures { OnOk result (out.new ≡ out.old ++ own_name rec.now row) }
{
    if let Some(ty) = rec.type_def.get(row as usize) {
        put_full_name(ty, out)?;
    }
    Ok(())
}

/// Puts a type's namespace, if it has one, and its name at the end.
fn put_full_name(row: &TypeDefRow, out: &mut Text) -> Result<(), NoMemory>
    ensures { OnOk result (out.new ≡ out.old ++ full_name row.now) }
{
    if !row.namespace.is_empty() {
        out.extend_from_slice(row.namespace.as_slice())?;
        out.push(b'.')?;
    }
    out.extend_from_slice(row.name.as_slice())?;
    Ok(())
}
