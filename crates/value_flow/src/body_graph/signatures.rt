//! The signatures of the methods of a world.

ghost use Rattle.std.specs.Prelude.{◌≡◌, Some, slice_get, IfOk};
ghost use Rattle.rules.specs.link_rules.Linked.{IsWorld};
ghost use Rattle.rules.specs.flow_rules.Methods.{is_void, names_void, is_void_sig, called_of, called_by, called_at, called_in};

use base_laws::world_laws::laws::tokens_named;
use il_base::world_model::{AsmRec, Known, MethodUse, TypeExpr, World, table_of};
use il_base::{AsmId, MethodSig, NoMemory, Sig, element, table};
use rules::flow_rules::Called;
use rules::link_rules::RowAt;
use type_tables::member_search::linked::assembly_at;
use type_tables::methods::method_home;

/// Whether a type is `void`, modifiers aside.
#[tactic(auto, unfolding(rules::specs::flow_rules::Methods::is_void))]
fn is_void(e: &TypeExpr) -> bool
    ensures { result ≡ is_void e.now }
{
    match e {
        TypeExpr::Prim(code) => *code == element::VOID,
        TypeExpr::Def(_) => false,
        TypeExpr::Inst(_, _) => false,
        TypeExpr::Array(_) => false,
        TypeExpr::ByRef(_) => false,
        TypeExpr::Var(_) => false,
        TypeExpr::MVar(_) => false,
        TypeExpr::Mod { inner, .. } => is_void(inner.get()),
    }
}

/// Whether a token in a signature of an assembly names `void`.
fn names_void(world: &World, asm: u32, _rec: &AsmRec, token: u32) -> bool
    requires world { IsWorld world.now }
    requires here { slice_get world.now.recs asm ≡ Some _rec.now }
    ensures { result ≡ names_void world.now.recs asm _rec.now token }
{
    if table_of(token) == table::TYPE_SPEC {
        return false;
    }
    tokens_named();
    match world.type_at(AsmId(asm), token) {
        None => false,
        Some(Known::Good(named)) => is_void(named),
        Some(Known::Bad(_)) => false,
    }
}

/// Whether a signature of an assembly is that of `void`, modifiers aside.
#[tactic(auto, unfolding(rules::specs::flow_rules::Methods::is_void_sig))]
fn is_void_sig(world: &World, asm: u32, rec: &AsmRec, sig: &Sig) -> bool
    requires world { IsWorld world.now }
    requires here { slice_get world.now.recs asm ≡ Some rec.now }
    ensures { result ≡ is_void_sig world.now.recs asm rec.now sig.now }
{
    match sig {
        Sig::Prim(code) => *code == element::VOID,
        Sig::Named { token, .. } => names_void(world, asm, rec, *token),
        Sig::Array(_) => false,
        Sig::ByRef(_) => false,
        Sig::Inst { .. } => false,
        Sig::Var(_) => false,
        Sig::MVar(_) => false,
        Sig::Mod { inner, .. } => is_void_sig(world, asm, rec, inner.get()),
        Sig::Pinned(inner) => is_void_sig(world, asm, rec, inner.get()),
    }
}

fn called_of(world: &World, asm: u32, rec: &AsmRec, sig: &MethodSig) -> Called
    requires world { IsWorld world.now }
    requires here { slice_get world.now.recs asm ≡ Some rec.now }
    ensures { result ≡ called_of world.now.recs asm rec.now sig.now }
{
    Called {
        this: sig.this,
        params: sig.params.len(),
        returns: !is_void_sig(world, asm, rec, &sig.ret),
    }
}

fn called_by(world: &World, asm: u32, rec: &AsmRec, sig: &Known<MethodSig>) -> Option<Called>
    requires world { IsWorld world.now }
    requires here { slice_get world.now.recs asm ≡ Some rec.now }
    ensures { result ≡ called_by world.now.recs asm rec.now sig.now }
{
    match sig {
        Known::Bad(_) => None,
        Known::Good(sig) => Some(called_of(world, asm, rec, sig)),
    }
}

/// A method's own signature, as the evaluation stack sees it; None where it has no reading.
#[tactic(auto, unfolding(rules::specs::flow_rules::Methods::called_at))]
pub fn called_at(world: &World, at: RowAt) -> Option<Called>
    requires { IsWorld world.now }
    ensures { result ≡ called_at world.now.recs at }
{
    let Some(rec) = assembly_at(world.recs.as_slice(), at.asm) else {
        return None;
    };
    let Some(row) = rec.method_def.get(at.row as usize) else {
        return None;
    };
    called_by(world, at.asm, rec, &row.signature)
}

/// The signature of the method that is used.
pub fn called_in(world: &World, u: &MethodUse) -> Result<Option<Called>, NoMemory>
    requires { IsWorld world.now }
    ensures { IfOk result (λ called. called ≡ called_in world.now.recs u.now) }
{
    match method_home(world.recs.as_slice(), u.method) {
        Err(error) => Err(error),
        Ok(None) => Ok(None),
        Ok(Some(at)) => Ok(called_at(world, at)),
    }
}
