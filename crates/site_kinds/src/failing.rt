//! When a source fails at a target.

ghost use Rattle.std.specs.Prelude.{◌≡◌, ◌==◌, ◌&&◌, not, IfOk};
ghost use Rattle.mark_parts.specs.mark_tables.Assemblies.{all_of};
ghost use Rattle.site_kinds.specs.Known.{IsAnnotated};
ghost use Rattle.rules.specs.site_rules.Kinds.{promised};
ghost use Rattle.rules.specs.site_rules.Fails.{is_text_slot, has_all, fails_name, fails_kinds, fails};

use crate::annotated::promised;
use crate::known::Annotated;
use crate::texts::is_text_slot;
use il_base::{MethodId, NoMemory};
use rules::flow_rules::Source;
use rules::site_rules::Target;
use std::alloc::Global;

/// Whether an annotation is missing.
fn promises_nothing(
    alloc: Global,
    annotated: &Annotated<'_>,
    m: MethodId,
    s: &Source,
) -> Result<bool, NoMemory>
    requires { IsAnnotated annotated.now }
    ensures { IfOk result (λ fails. fails ≡ (promised (all_of annotated.now.marker.now) m s.now == 0)) }
{
    let kinds = promised(alloc, annotated, m, s)?;
    Ok(kinds == 0)
}

/// Whether an annotation lacks one of these kinds.
fn lacks_kinds(
    alloc: Global,
    annotated: &Annotated<'_>,
    m: MethodId,
    s: &Source,
    wanted: u32,
) -> Result<bool, NoMemory>
    requires { IsAnnotated annotated.now }
    ensures { IfOk result (λ fails. fails ≡ not (has_all (promised (all_of annotated.now.marker.now) m s.now) wanted)) }
{
    let kinds = promised(alloc, annotated, m, s)?;
    Ok((kinds & wanted) != wanted)
}

/// Whether a source fails where a name is looked for.
fn fails_name(
    alloc: Global,
    annotated: &Annotated<'_>,
    m: MethodId,
    s: &Source,
) -> Result<bool, NoMemory>
    requires { IsAnnotated annotated.now }
    ensures { IfOk result (λ fails. fails ≡ fails_name (all_of annotated.now.marker.now) m s.now) }
{
    match s {
        Source::KnownType(_) => Ok(false),
        Source::KnownHandle(_) => Ok(false),
        Source::KnownText(_) => Ok(false),
        Source::Null => Ok(false),
        Source::Opaque => Ok(true),
        Source::Parameter(_) => promises_nothing(alloc, annotated, m, s),
        Source::Return(_) => promises_nothing(alloc, annotated, m, s),
        Source::Field(_) => promises_nothing(alloc, annotated, m, s),
        Source::TypeParam(_, _) => promises_nothing(alloc, annotated, m, s),
        Source::MethodParam(_) => promises_nothing(alloc, annotated, m, s),
    }
}

/// Whether a known text fails where these kinds of members are asked for.
fn fails_text(
    alloc: Global,
    annotated: &Annotated<'_>,
    to: Target,
    wanted: u32,
) -> Result<bool, NoMemory>
    requires { IsAnnotated annotated.now }
    ensures { IfOk result (λ fails. fails ≡ (not (wanted == 0) && not (is_text_slot (all_of annotated.now.marker.now) to))) }
{
    if wanted == 0 {
        return Ok(false);
    }
    let text = is_text_slot(alloc, annotated, to)?;
    Ok(!text)
}

/// Whether a source fails where these kinds of members are asked for.
fn fails_kinds(
    alloc: Global,
    annotated: &Annotated<'_>,
    m: MethodId,
    s: &Source,
    to: Target,
    wanted: u32,
) -> Result<bool, NoMemory>
    requires { IsAnnotated annotated.now }
    ensures { IfOk result (λ fails. fails ≡ fails_kinds (all_of annotated.now.marker.now) m s.now to wanted) }
{
    match s {
        Source::KnownType(_) => Ok(false),
        Source::KnownHandle(_) => Ok(wanted != 0),
        Source::KnownText(_) => fails_text(alloc, annotated, to, wanted),
        Source::Null => Ok(false),
        Source::Opaque => Ok(wanted != 0),
        Source::Parameter(_) => lacks_kinds(alloc, annotated, m, s, wanted),
        Source::Return(_) => lacks_kinds(alloc, annotated, m, s, wanted),
        Source::Field(_) => lacks_kinds(alloc, annotated, m, s, wanted),
        Source::TypeParam(_, _) => lacks_kinds(alloc, annotated, m, s, wanted),
        Source::MethodParam(_) => lacks_kinds(alloc, annotated, m, s, wanted),
    }
}

/// Whether a source in a slot of the method `m` fails at a target that asks for these kinds of members: nothing is known of it, or its
/// annotation lacks one of them. Where a name is looked for, anything and what has no annotation fails.
#[tactic(auto, unfolding(rules::specs::site_rules::Fails::fails))]
pub fn fails(
    alloc: Global,
    annotated: &Annotated<'_>,
    m: MethodId,
    s: &Source,
    to: Target,
    wanted: u32,
) -> Result<bool, NoMemory>
    requires { IsAnnotated annotated.now }
    ensures { IfOk result (λ is. is ≡ fails (all_of annotated.now.marker.now) m s.now to wanted) }
{
    match to {
        Target::Name(_) => fails_name(alloc, annotated, m, s),
        Target::Param(_, _) => fails_kinds(alloc, annotated, m, s, to, wanted),
        Target::Return(_) => fails_kinds(alloc, annotated, m, s, to, wanted),
        Target::Field(_) => fails_kinds(alloc, annotated, m, s, to, wanted),
        Target::This(_) => fails_kinds(alloc, annotated, m, s, to, wanted),
        Target::TypeArg(_, _) => fails_kinds(alloc, annotated, m, s, to, wanted),
        Target::MethodArg(_, _) => fails_kinds(alloc, annotated, m, s, to, wanted),
        Target::Unreferenced(_) => fails_kinds(alloc, annotated, m, s, to, wanted),
        Target::Override(_) => fails_kinds(alloc, annotated, m, s, to, wanted),
        Target::Reflection(_) => fails_kinds(alloc, annotated, m, s, to, wanted),
    }
}
