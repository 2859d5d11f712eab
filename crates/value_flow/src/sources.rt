//! The sources of a method's body, each once.

ghost use Rattle.std.specs.Prelude.{◌≡◌, [], ◌∷◌, IfOk, OnOk};
ghost use Rattle.std.specs.List.{flat_map};
ghost use Rattle.std.specs.Option.{option_copied};
ghost use Rattle.rules.specs.link_rules.Cycles.{add_all};
ghost use Rattle.rules.specs.flow_rules.Sources.{same_source, turn, from_handle, from_text};
ghost use Rattle.rules.specs.flow_rules.Moves.{parameters, with_known, sources_made, return_of, sources_called, sources_by, sources_of};
ghost use Rattle.value_flow.specs.body_graph.Methods.{setting_in, IsHere};
ghost use Rattle.value_flow.specs.Doings.{move_in};

use crate::body_graph::methods::Method;
use crate::doing::Doing;
use crate::moves::{doing_of, named_use};
use crate::numbers::add_new;
use crate::texts::type_of_text;
use il_base::world_model::MethodUse;
use il_base::{Form, Instr, NoMemory, Operand, Seq, TypeId, Units};
use rules::flow_rules::{Source, Turning};
use std::alloc::Global;
use type_system::Types;

fn add_handle(sources: &mut Seq<Source>, t: TypeId) -> Result<(), NoMemory>
    ensures { OnOk result (sources.new ≡ add_all same_source sources.old (Source.KnownHandle t ∷ Source.KnownType t ∷ [])) }
{
    add_new(sources, Source::KnownHandle(t))?;
    add_new(sources, Source::KnownType(t))
}

fn add_text(
    alloc: Global,
    types: &Types<'_>,
    from: u32,
    sources: &mut Seq<Source>,
    text: Units,
) -> Result<(), NoMemory>
    ensures { OnOk result (sources.new ≡ add_all same_source sources.old (with_known types.now.recs from (Source.KnownText text))) }
{
    let named = type_of_text(alloc, types, from, &text)?;
    add_new(sources, Source::KnownText(text))?;
    match named {
        None => Ok(()),
        Some(t) => add_new(sources, Source::KnownType(t)),
    }
}

/// Adds a source with what is known by it: a handle's type, the type that a text names.
fn add_known(
    alloc: Global,
    types: &Types<'_>,
    from: u32,
    sources: &mut Seq<Source>,
    s: Source,
) -> Result<(), NoMemory>
    ensures { OnOk result (sources.new ≡ add_all same_source sources.old (with_known types.now.recs from s)) }
{
    match s {
        Source::KnownType(t) => add_new(sources, Source::KnownType(t)),
        Source::KnownHandle(t) => add_handle(sources, t),
        Source::KnownText(text) => add_text(alloc, types, from, sources, text),
        Source::Null => add_new(sources, Source::Null),
        Source::Parameter(n) => add_new(sources, Source::Parameter(n)),
        Source::Return(m) => add_new(sources, Source::Return(m)),
        Source::Field(f) => add_new(sources, Source::Field(f)),
        Source::TypeParam(t, n) => add_new(sources, Source::TypeParam(t, n)),
        Source::MethodParam(n) => add_new(sources, Source::MethodParam(n)),
        Source::Opaque => add_new(sources, Source::Opaque),
    }
}

/// Adds what an instruction makes.
fn add_made(
    alloc: Global,
    types: &Types<'_>,
    from: u32,
    sources: &mut Seq<Source>,
    d: Doing,
) -> Result<(), NoMemory>
    ensures { OnOk result (sources.new ≡ add_all same_source sources.old (sources_made types.now.recs from (move_in d))) }
{
    match d {
        Doing::Load(_) => Ok(()),
        Doing::Store(_) => Ok(()),
        Doing::Twice => Ok(()),
        Doing::Back => Ok(()),
        Doing::Make(s) => add_known(alloc, types, from, sources, s),
        Doing::Turn(_) => Ok(()),
        Doing::Nothing => Ok(()),
    }
}

fn add_return(sources: &mut Seq<Source>, u: Option<&MethodUse>) -> Result<(), NoMemory>
    ensures { OnOk result (sources.new ≡ add_all same_source sources.old (return_of (option_copied u.entry))) }
{
    match u {
        None => Ok(()),
        Some(u) => add_new(sources, Source::Return(u.method)),
    }
}

/// Adds the return of a call.
fn add_called(
    m: &Method<'_>,
    sources: &mut Seq<Source>,
    form: Form,
    operand: &Operand,
) -> Result<(), NoMemory>
    requires { IsHere m.now }
    ensures { OnOk result (sources.new ≡ add_all same_source sources.old (sources_called m.now.world.now.recs (setting_in m.now) form operand.now)) }
{
    match form {
        Form::Call => add_return(sources, named_use(m, operand)),
        Form::Nop
        | Form::LdArg
        | Form::LdArgA
        | Form::StArg
        | Form::LdLoc
        | Form::LdLocA
        | Form::StLoc
        | Form::LdNull
        | Form::LdI4
        | Form::LdI8
        | Form::LdStr
        | Form::Dup
        | Form::Pop
        | Form::Br
        | Form::BrIf
        | Form::Switch
        | Form::Leave
        | Form::EndFinally
        | Form::Binary
        | Form::Unary
        | Form::Convert
        | Form::Ret
        | Form::NewObj
        | Form::Throw
        | Form::Cast
        | Form::Box
        | Form::Unbox
        | Form::Field
        | Form::NewArr
        | Form::Elem
        | Form::Indirect
        | Form::LdToken
        | Form::Prefix => Ok(()),
    }
}

/// Adds the sources of an instruction.
#[tactic(auto, using(crate::proofs::Listing::all_append))]
fn add_by(
    alloc: Global,
    types: &Types<'_>,
    m: &Method<'_>,
    owner: Option<TypeId>,
    sources: &mut Seq<Source>,
    i: &Instr,
) -> Result<(), NoMemory>
    requires here { IsHere m.now }
    requires types { types.now ≡ m.now.world.now }
    ensures { OnOk result (sources.new ≡ add_all same_source sources.old (sources_by m.now.world.now.recs (setting_in m.now) owner i.now)) }
{
    let d = doing_of(alloc, m, owner, i)?;
    add_made(alloc, types, m.asm, sources, d)?;
    add_called(m, sources, i.form, &i.operand)
}

fn add_params(sources: &mut Seq<Source>, params: u32) -> Result<(), NoMemory>
    ensures { OnOk result (sources.new ≡ add_all same_source sources.old (parameters params)) }
{
    for k in 0..params {
        add_new(sources, Source::Parameter(k))?;
    }
    Ok(())
}

fn add_code(
    alloc: Global,
    types: &Types<'_>,
    m: &Method<'_>,
    owner: Option<TypeId>,
    sources: &mut Seq<Source>,
) -> Result<(), NoMemory>
    requires here { IsHere m.now }
    requires types { types.now ≡ m.now.world.now }
    ensures { OnOk result (sources.new ≡ add_all same_source sources.old (flat_map (sources_by m.now.world.now.recs (setting_in m.now) owner) m.now.body.now.code)) }
{
    for i in m.body.code.as_slice() {
        add_by(alloc, types, m, owner, sources, i)?;
    }
    Ok(())
}

/// The sources of a method's body, each once, in the order in which they are met first.
#[tactic(auto, unfolding(rules::specs::flow_rules::Moves::sources_of))]
pub(crate) fn sources_of(
    alloc: Global,
    types: &Types<'_>,
    m: &Method<'_>,
    owner: Option<TypeId>,
) -> Result<Seq<Source>, NoMemory>
    requires here { IsHere m.now }
    requires types { types.now ≡ m.now.world.now }
    ensures { IfOk result (λ sources. sources ≡ sources_of m.now.world.now.recs (setting_in m.now) owner) }
{
    let Ok(params) = u32::try_from(m.own.params) else {
        return Err(NoMemory);
    };
    let mut sources = Seq::new(alloc);
    add_new(&mut sources, Source::Null)?;
    add_new(&mut sources, Source::Opaque)?;
    add_params(&mut sources, params)?;
    add_code(alloc, types, m, owner, &mut sources)?;
    Ok(sources)
}

fn from_handle(s: &Source) -> Source
    ensures { result ≡ from_handle s.now }
{
    match s {
        Source::KnownType(_) => Source::Opaque,
        Source::KnownHandle(t) => Source::KnownType(*t),
        Source::KnownText(_) => Source::Opaque,
        Source::Null => Source::Opaque,
        Source::Parameter(_) => Source::Opaque,
        Source::Return(_) => Source::Opaque,
        Source::Field(_) => Source::Opaque,
        Source::TypeParam(t, n) => Source::TypeParam(*t, *n),
        Source::MethodParam(n) => Source::MethodParam(*n),
        Source::Opaque => Source::Opaque,
    }
}

fn from_text(alloc: Global, types: &Types<'_>, from: u32, s: &Source) -> Result<Source, NoMemory>
    ensures { IfOk result (λ t. t ≡ from_text types.now.recs from s.now) }
{
    match s {
        Source::KnownType(_) => Ok(Source::Opaque),
        Source::KnownHandle(_) => Ok(Source::Opaque),
        Source::KnownText(text) => match type_of_text(alloc, types, from, text) {
            Err(error) => Err(error),
            Ok(None) => Ok(Source::Null),
            Ok(Some(t)) => Ok(Source::KnownType(t)),
        },
        Source::Null => Ok(Source::Opaque),
        Source::Parameter(n) => Ok(Source::Parameter(*n)),
        Source::Return(m) => Ok(Source::Return(*m)),
        Source::Field(f) => Ok(Source::Field(*f)),
        Source::TypeParam(_, _) => Ok(Source::Opaque),
        Source::MethodParam(_) => Ok(Source::Opaque),
        Source::Opaque => Ok(Source::Opaque),
    }
}

/// What a call turns a source into.
pub(crate) fn turn(
    alloc: Global,
    types: &Types<'_>,
    from: u32,
    t: Turning,
    s: &Source,
) -> Result<Source, NoMemory>
    ensures { IfOk result (λ made. made ≡ turn types.now.recs from t s.now) }
{
    match t {
        Turning::FromHandle => Ok(from_handle(s)),
        Turning::FromText => from_text(alloc, types, from, s),
    }
}
