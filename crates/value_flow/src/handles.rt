//! The handles that `ldtoken` makes of types.

ghost use Rattle.std.specs.Prelude.{◌≡◌, IfOk};
ghost use Rattle.rules.specs.flow_rules.Sources.{known_handle, own_parameter, handle_of};

use il_base::world_model::{AsmRec, TypeExpr, prim_type};
use il_base::{NoMemory, TypeId};
use rules::flow_rules::Source;
use type_tables::member_search::bases::array_type;

fn known_handle(t: Option<TypeId>) -> Source
    ensures { result ≡ known_handle t }
{
    match t {
        None => Source::Opaque,
        Some(t) => Source::KnownHandle(t),
    }
}

fn own_parameter(owner: Option<TypeId>, n: u32) -> Source
    ensures { result ≡ own_parameter owner n }
{
    match owner {
        None => Source::Opaque,
        Some(t) => Source::TypeParam(t, n),
    }
}

/// The handle of a type in a method of the type `owner`.
#[tactic(auto, unfolding(rules::specs::flow_rules::Sources::handle_of))]
pub(crate) fn handle_of(
    recs: &[AsmRec],
    owner: Option<TypeId>,
    e: &TypeExpr,
) -> Result<Source, NoMemory>
    ensures { IfOk result (λ s. s ≡ handle_of recs.now owner e.now) }
{
    match e {
        TypeExpr::Prim(code) => match prim_type(recs, *code) {
            Err(error) => Err(error),
            Ok(t) => Ok(known_handle(t)),
        },
        TypeExpr::Def(t) => Ok(Source::KnownHandle(*t)),
        TypeExpr::Inst(t, _) => Ok(Source::KnownHandle(*t)),
        TypeExpr::Array(_) => match array_type(recs) {
            Err(error) => Err(error),
            Ok(t) => Ok(known_handle(t)),
        },
        TypeExpr::ByRef(_) => Ok(Source::Opaque),
        TypeExpr::Var(n) => Ok(own_parameter(owner, *n)),
        TypeExpr::MVar(n) => Ok(Source::MethodParam(*n)),
        TypeExpr::Mod { inner, .. } => handle_of(recs, owner, inner.get()),
    }
}
