//! What tokens of an assembly name.

ghost use Rattle.std.specs.Prelude.{◌≡◌, Some, slice_get};
ghost use Rattle.std.specs.Option.{option_copied};
ghost use Rattle.rules.specs.link_rules.Linked.{IsWorld};
ghost use Rattle.rules.specs.link_rules.Signatures.{token_type};
ghost use Rattle.rules.specs.mark_rules.Naming.{method_named, field_named};
ghost use Rattle.rules.specs.flow_rules.Counts.{good_one};

use base_laws::world_laws::laws::tokens_named;
use il_base::AsmId;
use il_base::world_model::{AsmRec, FieldUse, Known, MethodUse, TypeExpr, World};

/// The method that a MethodDef, MemberRef or MethodSpec token names, if any.
pub fn method_named<'w>(
    world: &'w World,
    asm: u32,
    _rec: &AsmRec,
    token: u32,
) -> Option<&'w MethodUse>
    requires world { IsWorld world.now }
    requires here { slice_get world.now.recs asm ≡ Some _rec.now }
    ensures { option_copied result ≡ good_one (method_named world.now.recs asm _rec.now token) }
{
    tokens_named();
    match world.method_at(AsmId(asm), token) {
        None => None,
        Some(Known::Good(named)) => Some(named),
        Some(Known::Bad(_)) => None,
    }
}

/// The field that a Field or MemberRef token names, if any.
pub fn field_named<'w>(
    world: &'w World,
    asm: u32,
    _rec: &AsmRec,
    token: u32,
) -> Option<&'w FieldUse>
    requires world { IsWorld world.now }
    requires here { slice_get world.now.recs asm ≡ Some _rec.now }
    ensures { option_copied result ≡ good_one (field_named world.now.recs asm _rec.now token) }
{
    tokens_named();
    match world.field_at(AsmId(asm), token) {
        None => None,
        Some(Known::Good(named)) => Some(named),
        Some(Known::Bad(_)) => None,
    }
}

/// The type that a TypeDef, TypeRef or TypeSpec token names, if any.
pub fn type_named<'w>(world: &'w World, asm: u32, _rec: &AsmRec, token: u32) -> Option<&'w TypeExpr>
    requires world { IsWorld world.now }
    requires here { slice_get world.now.recs asm ≡ Some _rec.now }
    ensures { option_copied result ≡ good_one (token_type world.now.recs asm _rec.now token) }
{
    tokens_named();
    match world.type_at(AsmId(asm), token) {
        None => None,
        Some(Known::Good(named)) => Some(named),
        Some(Known::Bad(_)) => None,
    }
}
