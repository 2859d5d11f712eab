//! The names of types with `+` before the name of a nested type (II.22.32).

ghost use Rattle.std.specs.Prelude.{◌≡◌, ◌++◌, length, IfOk, OnOk};
ghost use Rattle.rules.specs.type_rules.Texts.{full_name, row_name};
ghost use Rattle.type_names.specs.Chains.{bare_name, own_name, inner_names};
ghost use Rattle.mark_parts.specs.mark_tables.Assemblies.{rec_of, IsAssembly};
ghost use Rattle.keep_lists.specs.Chains.{chain_name};

use il_base::world_model::{AsmRec, TypeDefRow};
use il_base::{NoMemory, Seq, Text};
use mark_parts::mark_tables::assembly::Assembly;
use std::alloc::Global;

/// A type and its enclosers, by their rows from 0.
#[derive(Drop)]
struct Chain {
    /// The type that isn't nested; None where the enclosers go in a circle.
    outermost: Option<u32>,
    /// The nested types, from inside outwards.
    inner: Seq<u32>,
}

/// A type and its enclosers, at most as many as the assembly has types.
#[tactic(auto, unfolding(rules::specs::type_rules::Texts::row_name))]
fn chain_of(alloc: Global, asm: &Assembly<'_>, row: u32) -> Result<Chain, NoMemory>
    requires { IsAssembly asm.now }
    ensures { IfOk result (λ c. chain_name (rec_of asm.now) c ≡ row_name (rec_of asm.now) (length (rec_of asm.now).type_def) row) }
{
    let mut at = row;
    let mut inner = Seq::new(alloc);
    for _step in 0..asm.scope.rec.type_def.len() {
        let around = asm.encloser(at)?;
        match around {
            None => {
                return Ok(Chain {
                    outermost: Some(at),
                    inner,
                });
            }
            Some(around) => {
                inner.push(at)?;
                at = around;
            }
        }
    }
    Ok(Chain {
        outermost: None,
        inner,
    })
}

/// Puts the name of a nested type's row, from 0, at the end, without a namespace.
fn put_bare(rec: &AsmRec, row: u32, out: &mut Text) -> Result<(), NoMemory>
    ensures { OnOk result (out.new ≡ out.old ++ bare_name rec.now row) }
{
    if let Some(ty) = rec.type_def.get(row as usize) {
        out.extend_from_slice(ty.name.as_slice())?;
    }
    Ok(())
}

/// Puts the names of nested types at the end, the last one first, with `+` before each.
fn put_inner(rec: &AsmRec, inner: Seq<u32>, out: &mut Text) -> Result<(), NoMemory>
    ensures { OnOk result (out.new ≡ out.old ++ inner_names rec.now inner) }
{
    let mut left = inner;
    loop {
        match left.pop() {
            None => return Ok(()),
            Some(row) => {
                out.push(b'+')?;
                put_bare(rec, row, out)?;
            }
        }
    }
}

/// Puts a type's namespace, if it has one, and its name at the end.
fn put_full_name(row: &TypeDefRow, out: &mut Text) -> Result<(), NoMemory>
    ensures { OnOk result (out.new ≡ out.old ++ full_name row.now) }
{
    if !row.namespace.is_empty() {
        out.extend_from_slice(row.namespace.as_slice())?;
        out.push(b'.')?;
    }
    out.extend_from_slice(row.name.as_slice())?;
    Ok(())
}

/// Puts the name of the row, from 0, of a type that isn't nested at the end.
fn put_own(rec: &AsmRec, row: u32, out: &mut Text) -> Result<(), NoMemory>
    ensures { OnOk result (out.new ≡ out.old ++ own_name rec.now row) }
{
    if let Some(ty) = rec.type_def.get(row as usize) {
        put_full_name(ty, out)?;
    }
    Ok(())
}

/// Puts the names of a type and its enclosers at the end, from outside inwards.
fn put_chain(rec: &AsmRec, chain: Chain, out: &mut Text) -> Result<(), NoMemory>
    ensures { OnOk result (out.new ≡ out.old ++ chain_name rec.now chain) }
{
    let Chain { outermost, inner } = chain;
    if let Some(row) = outermost {
        put_own(rec, row, out)?;
    }
    put_inner(rec, inner, out)?;
    Ok(())
}

/// Puts the name of a type of an assembly, by its row from 0, at the end, with those of its enclosers.
pub(crate) fn put_name(
    alloc: Global,
    asm: &Assembly<'_>,
    row: u32,
    out: &mut Text,
) -> Result<(), NoMemory>
    requires { IsAssembly asm.now }
    ensures { OnOk result (out.new ≡ out.old ++ row_name (rec_of asm.now) (length (rec_of asm.now).type_def) row) }
{
    let chain = chain_of(alloc, asm, row)?;
    put_chain(asm.scope.rec, chain, out)?;
    Ok(())
}
