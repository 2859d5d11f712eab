//! The types that kinds, arguments and values name.

ghost use Rattle.std.specs.Prelude.{◌≡◌, ◌++◌, IfOk, OnOk};
ghost use Rattle.std.specs.List.{flat_map};
ghost use Rattle.rules.specs.mark_rules.Attributes.{kind_types, arg_types, named_types, value_types};

use crate::attribute_types::named::{add_named, add_text};
use attr_blobs::{Arg, AttrValue, NamedArg, ParamKind};
use il_base::{NoMemory, TypeId};
use std::alloc::Global;
use type_names::TypeNames;

/// Puts the enums that a kind names at the end.
#[tactic(auto, using(crate::proofs::lemmas::attribute_types::Layers::kinds, crate::proofs::lemmas::attribute_types::Lists::none_more))]
fn add_kind(
    alloc: Global,
    names: &TypeNames<'_>,
    from: u32,
    kind: &ParamKind,
    types: &mut Vec<TypeId>,
) -> Result<(), NoMemory>
    ensures { OnOk result (types.new.items ≡ types.old.items ++ kind_types names.now from kind.now) }
{
    match kind {
        ParamKind::Prim(_) => Ok(()),
        ParamKind::Text => Ok(()),
        ParamKind::Typ => Ok(()),
        ParamKind::Boxed => Ok(()),
        ParamKind::Enum { name, .. } => add_named(alloc, names, from, name.as_slice(), types),
        ParamKind::List(inner) => add_kind(alloc, names, from, inner.get(), types),
    }
}

/// Puts the types and the enums that an argument names at the end.
#[cycle(arguments)]
#[tactic(auto, using(crate::proofs::lemmas::attribute_types::Layers::arguments, crate::proofs::lemmas::attribute_types::Lists::two_put, crate::proofs::lemmas::attribute_types::Lists::none_more))]
fn add_arg(
    alloc: Global,
    names: &TypeNames<'_>,
    from: u32,
    arg: &Arg,
    types: &mut Vec<TypeId>,
) -> Result<(), NoMemory>
    ensures { OnOk result (types.new.items ≡ types.old.items ++ arg_types names.now from arg.now) }
{
    match arg {
        Arg::Number(_) => Ok(()),
        Arg::Text(_) => Ok(()),
        Arg::Typ(name) => add_text(alloc, names, from, name, types),
        Arg::Boxed(kind, value) => {
            add_kind(alloc, names, from, kind, types)?;
            add_arg(alloc, names, from, value.get(), types)
        }
        Arg::List(list) => match list {
            None => Ok(()),
            Some(args) => add_args(alloc, names, from, args.as_slice(), types),
        },
    }
}

/// Puts the types and the enums that arguments name at the end.
#[cycle(arguments)]
fn add_args(
    alloc: Global,
    names: &TypeNames<'_>,
    from: u32,
    args: &[Arg],
    types: &mut Vec<TypeId>,
) -> Result<(), NoMemory>
    ensures { OnOk result (types.new.items ≡ types.old.items ++ flat_map (arg_types names.now from) args.now) }
{
    for arg in args {
        add_arg(alloc, names, from, arg, types)?;
    }
    Ok(())
}

/// Puts the types and the enums that a named argument names at the end.
#[tactic(auto, using(crate::proofs::lemmas::attribute_types::Lists::two_put))]
fn add_named_arg(
    alloc: Global,
    names: &TypeNames<'_>,
    from: u32,
    n: &NamedArg,
    types: &mut Vec<TypeId>,
) -> Result<(), NoMemory>
    ensures { OnOk result (types.new.items ≡ types.old.items ++ named_types names.now from n.now) }
{
    add_kind(alloc, names, from, &n.kind, types)?;
    add_arg(alloc, names, from, &n.value, types)
}

/// Puts the types and the enums that named arguments name at the end.
fn add_named_args(
    alloc: Global,
    names: &TypeNames<'_>,
    from: u32,
    named: &[NamedArg],
    types: &mut Vec<TypeId>,
) -> Result<(), NoMemory>
    ensures { OnOk result (types.new.items ≡ types.old.items ++ flat_map (named_types names.now from) named.now) }
{
    for n in named {
        add_named_arg(alloc, names, from, n, types)?;
    }
    Ok(())
}

/// Each type and each enum that a value names, found from an assembly, by its place from 0.
#[tactic(auto, unfolding(rules::specs::mark_rules::Attributes::value_types))]
pub fn value_types(
    alloc: Global,
    names: &TypeNames<'_>,
    from: u32,
    v: &AttrValue,
) -> Result<Vec<TypeId>, NoMemory>
    ensures { IfOk result (λ types. types.items ≡ value_types names.now from v.now) }
{
    let mut types = Vec::new(alloc);
    add_args(alloc, names, from, v.fixed.as_slice(), &mut types)?;
    add_named_args(alloc, names, from, v.named.as_slice(), &mut types)?;
    Ok(types)
}
