//! The paths of types (II.22.32): the full name of the outermost type, then the names of nested ones from outside inwards.

ghost use Rattle.std.specs.Prelude.{◌≡◌, ◌∷◌, [], suc, length, reverse, IfOk};
ghost use Rattle.rules.specs.type_rules.Texts.{full_name};
ghost use Rattle.rules.specs.mark_rules.Attributes.{path_within};
ghost use Rattle.mark_parts.specs.mark_tables.Assemblies.{rec_of, IsAssembly};
ghost use Rattle.attribute_values.specs.enum_names.Paths.{chain_path};

use crate::enum_names::full_names::full_name;
use il_base::world_model::TypeDefRow;
use il_base::{NoMemory, Seq, Text};
use mark_parts::mark_tables::assembly::Assembly;
use std::alloc::Global;

/// The names of a type and its enclosers.
#[derive(Drop)]
pub struct Chain {
    /// The full name of the outermost type alone; none where the enclosers lead to no row, or go in a circle.
    pub outermost: Seq<Text>,
    /// The names of the nested types, from inside outwards.
    pub inner: Seq<Text>,
}

/// The full name of a type that isn't nested, alone.
fn one_name(alloc: Global, t: &TypeDefRow) -> Result<Seq<Text>, NoMemory>
    ensures { IfOk result (λ names. names ≡ full_name t.now ∷ []) }
{
    let mut names = Seq::new(alloc);
    let name = full_name(alloc, t)?;
    names.push(name)?;
    Ok(names)
}

/// The names of nested types alone, from inside outwards.
fn chain_without(alloc: Global, inner: Seq<Text>) -> Chain
    ensures { chain_path result ≡ reverse inner }
{
    Chain {
        outermost: Seq::new(alloc),
        inner,
    }
}

/// A copy of a text.
fn copy_text(alloc: Global, text: &Text) -> Result<Text, NoMemory>
    ensures { IfOk result (λ copy. copy ≡ text.now) }
{
    Seq::from_slice(alloc, text.as_slice())
}

/// The names of the type in a row, from 0, and of its enclosers, at most `steps` of them.
fn chain_of(alloc: Global, asm: &Assembly<'_>, steps: usize, row: u32) -> Result<Chain, NoMemory>
    requires { IsAssembly asm.now }
    ensures { IfOk result (λ chain. chain_path chain ≡ path_within (rec_of asm.now) steps row) }
{
    let mut inner: Seq<Text> = Seq::new(alloc);
    let mut at = row;
    for _ in 0..steps {
        let Some(t) = asm.scope.rec.type_def.get(at as usize) else {
            let nowhere = chain_without(alloc, inner);
            return Ok(nowhere);
        };
        match asm.encloser(at) {
            Ok(None) => {
                let outermost = one_name(alloc, t)?;
                return Ok(Chain { outermost, inner });
            }
            Ok(Some(around)) => {
                let name = copy_text(alloc, &t.name)?;
                inner.push(name)?;
                at = around;
            }
            Err(error) => return Err(error),
        }
    }
    let endless = chain_without(alloc, inner);
    Ok(endless)
}

/// The names from outside inwards.
fn path_of_chain(chain: Chain) -> Result<Seq<Text>, NoMemory>
    ensures { IfOk result (λ path. path ≡ chain_path chain) }
{
    let Chain { outermost, inner } = chain;
    let mut path = outermost;
    let mut left = inner;
    loop {
        match left.pop() {
            None => return Ok(path),
            Some(name) => path.push(name)?,
        }
    }
}

/// The path of the type in a row, from 0.
pub fn path_of(alloc: Global, asm: &Assembly<'_>, row: u32) -> Result<Seq<Text>, NoMemory>
    requires { IsAssembly asm.now }
    ensures { IfOk result (λ path. path ≡ path_within (rec_of asm.now) (suc (length (rec_of asm.now).type_def)) row) }
{
    let Some(steps) = asm.scope.rec.type_def.len().checked_add(1) else {
        return Err(NoMemory);
    };
    let chain = chain_of(alloc, asm, steps, row)?;
    let path = path_of_chain(chain)?;
    Ok(path)
}
