//! The dependencies that the arguments of DynamicDependencyAttribute name.

ghost use Rattle.std.specs.Prelude.{◌≡◌, ◌∷◌, map, IfOk};
ghost use Rattle.attr_blobs.specs.declared.value.Arg.{out-Arg};
ghost use Rattle.rules.specs.link_rules.Cycles.{listed};
ghost use Rattle.rules.specs.mark_rules.Annotations.{name_or_empty, by_type, of_member, of_kinds, dependency_by};
ghost use Rattle.attribute_values.specs.dependency_forms.Told.{sought_told, dependency_told};
ghost use Rattle.mark_dependencies.specs.item_dependencies.Forms.{by_one, by_assembly, by_two, sought_by, member_by, member_in, kinds_in};

use attr_blobs::Arg;
use attribute_values::dependency_forms::dependency::{Dependency, Sought};
use il_base::{NoMemory, Seq, Text};
use std::alloc::Global;

/// The number of values of the low 32 bits.
const LOW_BITS: u64 = 0x1_0000_0000;

/// A copy of a text, if there is one.
fn copied(alloc: Global, text: &Option<Text>) -> Result<Option<Text>, NoMemory>
    ensures { IfOk result (λ t. t ≡ text.now) }
{
    match text {
        None => Ok(None),
        Some(text) => {
            let text = Seq::from_slice(alloc, text.as_slice())?;
            Ok(Some(text))
        }
    }
}

/// A copy of a text; null is the empty text.
fn name_or_empty(alloc: Global, text: &Option<Text>) -> Result<Text, NoMemory>
    ensures { IfOk result (λ t. t ≡ name_or_empty text.now) }
{
    match text {
        None => Ok(Seq::new(alloc)),
        Some(text) => {
            let text = Seq::from_slice(alloc, text.as_slice())?;
            Ok(text)
        }
    }
}

/// The type that an argument of type System.Type names; null is the own type.
fn by_type(alloc: Global, text: &Option<Text>) -> Result<Sought, NoMemory>
    ensures { IfOk result (λ s. sought_told s ≡ by_type text.now) }
{
    match text {
        None => Ok(Sought::OwnType),
        Some(text) => {
            let text = Seq::from_slice(alloc, text.as_slice())?;
            Ok(Sought::TypeArgument(text))
        }
    }
}

/// The type that one argument names.
fn by_one(alloc: Global, t: &Arg) -> Result<Option<Sought>, NoMemory>
    ensures { IfOk result (λ s. map sought_told (listed s) ≡ by_one (out-Arg t.now)) }
{
    match t {
        Arg::Number(_) => Ok(None),
        Arg::Text(_) => Ok(None),
        Arg::Typ(text) => {
            let sought = by_type(alloc, text)?;
            Ok(Some(sought))
        }
        Arg::Boxed(_, _) => Ok(None),
        Arg::List(_) => Ok(None),
    }
}

/// The type that a text names in the assembly that an argument names.
fn by_assembly(alloc: Global, text: &Option<Text>, asm: &Arg) -> Result<Option<Sought>, NoMemory>
    ensures { IfOk result (λ s. map sought_told (listed s) ≡ by_assembly text.now (out-Arg asm.now)) }
{
    match asm {
        Arg::Number(_) => Ok(None),
        Arg::Text(asm) => {
            let text = copied(alloc, text)?;
            let asm = copied(alloc, asm)?;
            Ok(Some(Sought::TypeText(text, asm)))
        }
        Arg::Typ(_) => Ok(None),
        Arg::Boxed(_, _) => Ok(None),
        Arg::List(_) => Ok(None),
    }
}

/// The type that two arguments name: its name, and that of its assembly.
fn by_two(alloc: Global, t: &Arg, asm: &Arg) -> Result<Option<Sought>, NoMemory>
    ensures { IfOk result (λ s. map sought_told (listed s) ≡ by_two (out-Arg t.now) (out-Arg asm.now)) }
{
    match t {
        Arg::Number(_) => Ok(None),
        Arg::Text(text) => by_assembly(alloc, text, asm),
        Arg::Typ(_) => Ok(None),
        Arg::Boxed(_, _) => Ok(None),
        Arg::List(_) => Ok(None),
    }
}

/// The type that arguments after the first name.
fn sought_by(alloc: Global, args: &[Arg]) -> Result<Option<Sought>, NoMemory>
    ensures { IfOk result (λ s. map sought_told (listed s) ≡ sought_by (map out-Arg args.now)) }
{
    match args {
        [] => Ok(None),
        [t] => by_one(alloc, t),
        [t, asm] => by_two(alloc, t, asm),
        [_, _, _, ..] => Ok(None),
    }
}

/// A dependency on members with a name.
fn of_member(alloc: Global, sought: Sought, name: &Option<Text>) -> Result<Dependency, NoMemory>
    ensures { IfOk result (λ d. dependency_told d ≡ of_member (sought_told sought) name.now) }
{
    let name = name_or_empty(alloc, name)?;
    Ok(Dependency {
        sought,
        member: Some(name),
        kinds: 0,
    })
}

/// A dependency on members of kinds, which are the low 32 bits of a number.
fn of_kinds(sought: Sought, n: u64) -> Dependency
    ensures { dependency_told result ≡ of_kinds (sought_told sought) n }
{
    Dependency {
        sought,
        member: None,
        kinds: (n % LOW_BITS) as u32,
    }
}

/// A dependency on members with a name in the type that arguments name.
fn member_in(
    alloc: Global,
    name: &Option<Text>,
    args: &[Arg],
) -> Result<Option<Dependency>, NoMemory>
    ensures { IfOk result (λ d. map dependency_told (listed d) ≡ member_in name.now (sought_by (map out-Arg args.now))) }
{
    let found = sought_by(alloc, args)?;
    match found {
        None => Ok(None),
        Some(sought) => {
            let d = of_member(alloc, sought, name)?;
            Ok(Some(d))
        }
    }
}

/// A dependency on members with a name, in the own type where no argument names another.
fn member_by(
    alloc: Global,
    name: &Option<Text>,
    args: &[Arg],
) -> Result<Option<Dependency>, NoMemory>
    ensures { IfOk result (λ d. map dependency_told (listed d) ≡ member_by name.now (map out-Arg args.now)) }
{
    match args {
        [] => {
            let d = of_member(alloc, Sought::OwnType, name)?;
            Ok(Some(d))
        }
        [_, ..] => member_in(alloc, name, args),
    }
}

/// A dependency on members of kinds in the type that arguments name.
fn kinds_in(alloc: Global, n: u64, args: &[Arg]) -> Result<Option<Dependency>, NoMemory>
    ensures { IfOk result (λ d. map dependency_told (listed d) ≡ kinds_in n (sought_by (map out-Arg args.now))) }
{
    let found = sought_by(alloc, args)?;
    match found {
        None => Ok(None),
        Some(sought) => Ok(Some(of_kinds(sought, n))),
    }
}

/// The dependency that a first argument and those after it name.
#[tactic(auto, using(crate::proofs::lemmas::item_dependencies::Forming::member_is, crate::proofs::lemmas::item_dependencies::Forming::kinds_are))]
fn by_first(alloc: Global, first: &Arg, rest: &[Arg]) -> Result<Option<Dependency>, NoMemory>
    ensures { IfOk result (λ d. map dependency_told (listed d) ≡ dependency_by (out-Arg first.now ∷ map out-Arg rest.now)) }
{
    match first {
        Arg::Number(n) => kinds_in(alloc, *n, rest),
        Arg::Text(name) => member_by(alloc, name, rest),
        Arg::Typ(_) => Ok(None),
        Arg::Boxed(_, _) => Ok(None),
        Arg::List(_) => Ok(None),
    }
}

/// The dependency that the arguments of a constructor name; None where they have none of its forms.
pub(crate) fn dependency_by(alloc: Global, args: &[Arg]) -> Result<Option<Dependency>, NoMemory>
    ensures { IfOk result (λ d. map dependency_told (listed d) ≡ dependency_by (map out-Arg args.now)) }
{
    match args {
        [] => Ok(None),
        [first, rest @ ..] => by_first(alloc, first, rest),
    }
}
