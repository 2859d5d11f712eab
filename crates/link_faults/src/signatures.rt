//! The types that signatures of members name.

ghost use Rattle.std.specs.Prelude.{◌≡◌, IfOk};
ghost use Rattle.il_base.specs.world_model.Worlds.{known_then, sig_expr, names_by};
ghost use Rattle.rules.specs.link_rules.Members.{good_type};

use crate::scope::Scope;
use il_base::world_model::{Known, TypeExpr, expr_by};
use il_base::{AsmId, NoMemory, Sig};
use std::alloc::Global;

impl Scope<'_> {
    /// The type that a signature of an assembly names, where it names one.
    pub(crate) fn type_of(
        &self,
        alloc: Global,
        asm: AsmId,
        signature: &Sig,
    ) -> Result<Option<TypeExpr>, NoMemory>
        ensures { IfOk result (λ ty. ty ≡ good_type (sig_expr (names_by self.now.all.now self.now.links.now asm.0) signature.now)) }
    {
        match expr_by(alloc, self.all, self.links, asm, signature, &[], &[]) {
            Err(error) => Err(error),
            Ok(Known::Bad(_)) => Ok(None),
            Ok(Known::Good(ty)) => Ok(Some(ty)),
        }
    }

    /// The type that the signature of a field names, where it is good.
    pub(crate) fn type_of_field(
        &self,
        alloc: Global,
        asm: AsmId,
        signature: &Known<Sig>,
    ) -> Result<Option<TypeExpr>, NoMemory>
        ensures { IfOk result (λ ty. ty ≡ good_type (known_then (sig_expr (names_by self.now.all.now self.now.links.now asm.0)) signature.now)) }
    {
        match signature {
            Known::Good(signature) => self.type_of(alloc, asm, signature),
            Known::Bad(_) => Ok(None),
        }
    }
}
