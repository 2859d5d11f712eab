ghost use Rattle.std.specs.Prelude.{◌≡◌, [], map, IfOk};
ghost use Rattle.il_base.specs.world_model.Worlds.{known_map, all_known, expr_by, sig_expr};
ghost use Rattle.il_base.specs.world_model.Exprs.{subst};
ghost use Rattle.rules.specs.link_rules.Signatures.{names_at, method_type, subst_method, same_method_type};
ghost use Rattle.rules.specs.link_rules.Members.{arguments_of};
ghost use Rattle.type_tables.specs.member_search.Linked.{IsScope};

use crate::member_search::linked::Scope;
use il_base::world_model::{Known, TypeExpr, expr_by};
use il_base::{AsmId, MethodSig, NoMemory, Seq, Sig};
use rules::link_rules::MethodType;
use std::alloc::Global;

/// Whether two signatures of methods are the same.
#[tactic(auto, unfolding(rules::specs::link_rules::Signatures::same_method_type))]
pub fn same_method_type(a: &MethodType, b: &MethodType) -> bool
    ensures { result ≡ same_method_type a.now b.now }
{
    a.this == b.this
        && a.generic == b.generic
        && a.ret.is_same(&b.ret)
        && TypeExpr::are_same(a.params.as_slice(), b.params.as_slice())
}

/// The type that a signature names, with arguments of the type put in, by the links.
fn type_by(
    alloc: Global,
    scope: &Scope<'_>,
    targs: &[TypeExpr],
    sig: &Sig,
) -> Result<Known<TypeExpr>, NoMemory>
    ensures { IfOk result (λ ty. ty ≡ expr_by scope.now.linked.all.now scope.now.linked.links.now scope.now.asm targs.now [] sig.now) }
{
    let asm = AsmId(scope.asm);
    expr_by(
        alloc,
        scope.linked.all,
        scope.linked.links,
        asm,
        sig,
        targs,
        &[],
    )
}

/// The type that a signature names, with arguments of the type put in, or why it names none.
#[tactic(auto, unfolding(il_base::specs::world_model::Worlds::expr_by))]
pub fn sig_type(
    alloc: Global,
    scope: &Scope<'_>,
    targs: &[TypeExpr],
    sig: &Sig,
) -> Result<Known<TypeExpr>, NoMemory>
    requires { IsScope scope.now }
    ensures { IfOk result (λ ty. ty ≡ known_map (subst targs.now []) (sig_expr (names_at scope.now.linked.all.now scope.now.asm scope.now.rec.now) sig.now)) }
{
    type_by(alloc, scope, targs, sig)
}

/// The types that signatures name, with arguments of the type put in, or why the first that is bad names none.
pub fn types_by(
    alloc: Global,
    scope: &Scope<'_>,
    targs: &[TypeExpr],
    sigs: &[Sig],
) -> Result<Known<Seq<TypeExpr>>, NoMemory>
    ensures { IfOk result (λ types. types ≡ all_known (map (expr_by scope.now.linked.all.now scope.now.linked.links.now scope.now.asm targs.now []) sigs.now)) }
{
    let mut types = Seq::new(alloc);
    for sig in sigs {
        match type_by(alloc, scope, targs, sig) {
            Ok(Known::Good(ty)) => types.push(ty)?,
            Ok(Known::Bad(why)) => return Ok(Known::Bad(why)),
            Err(error) => return Err(error),
        }
    }
    Ok(Known::Good(types))
}

/// A method's signature with its types, arguments of the type put in, or why the first that is bad names none.
pub fn method_type(
    alloc: Global,
    scope: &Scope<'_>,
    targs: &[TypeExpr],
    sig: &MethodSig,
) -> Result<Known<MethodType>, NoMemory>
    requires { IsScope scope.now }
    ensures { IfOk result (λ ty. ty ≡ known_map (subst_method targs.now) (method_type (names_at scope.now.linked.all.now scope.now.asm scope.now.rec.now) sig.now)) }
{
    let ret = match type_by(alloc, scope, targs, &sig.ret) {
        Ok(Known::Good(ret)) => ret,
        Ok(Known::Bad(why)) => return Ok(Known::Bad(why)),
        Err(error) => return Err(error),
    };
    match types_by(alloc, scope, targs, sig.params.as_slice()) {
        Ok(Known::Good(params)) => Ok(Known::Good(MethodType {
            this: sig.this,
            generic: sig.generic,
            ret,
            params,
        })),
        Ok(Known::Bad(why)) => Ok(Known::Bad(why)),
        Err(error) => Err(error),
    }
}

/// A method's signature with its types, those of its own type's parameters left open, or why the first that is bad names none.
#[tactic(auto, using(crate::proofs::lemmas::member_search::MethodTypes::method_none))]
pub fn open_method_type(
    alloc: Global,
    scope: &Scope<'_>,
    sig: &MethodSig,
) -> Result<Known<MethodType>, NoMemory>
    requires { IsScope scope.now }
    ensures { IfOk result (λ ty. ty ≡ method_type (names_at scope.now.linked.all.now scope.now.asm scope.now.rec.now) sig.now) }
{
    method_type(alloc, scope, &[], sig)
}

/// The type that a signature names, its parameters left open, or why it names none.
#[tactic(auto, using(crate::proofs::lemmas::member_search::MethodTypes::type_none))]
pub fn open_type(alloc: Global, scope: &Scope<'_>, sig: &Sig) -> Result<Known<TypeExpr>, NoMemory>
    requires { IsScope scope.now }
    ensures { IfOk result (λ ty. ty ≡ sig_expr (names_at scope.now.linked.all.now scope.now.asm scope.now.rec.now) sig.now) }
{
    sig_type(alloc, scope, &[], sig)
}

/// The types that signatures name, their parameters left open, or why the first that is bad names none.
pub fn open_types(
    alloc: Global,
    scope: &Scope<'_>,
    sigs: &[Sig],
) -> Result<Known<Seq<TypeExpr>>, NoMemory>
    requires { IsScope scope.now }
    ensures { IfOk result (λ args. args ≡ arguments_of (names_at scope.now.linked.all.now scope.now.asm scope.now.rec.now) sigs.now) }
{
    let args = types_by(alloc, scope, &[], sigs)?;
    Ok(args)
}
