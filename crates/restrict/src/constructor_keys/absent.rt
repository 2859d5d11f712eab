//! Constructors that name nothing.

ghost use Rattle.std.specs.Prelude.{◌≡◌, IfOk};
ghost use Rattle.std.specs.Option.{option_copied, option_map};
ghost use Rattle.rules.specs.mark_rules.Attributes.{ref_sig};
ghost use Rattle.rules.specs.merge_rules.Keys.{good, world_method_sig};
ghost use Rattle.rules.specs.merge_rules.Attributes.{absent_constructor};
ghost use Rattle.token_keys.specs.key_codes.Keys as coded;
ghost use Rattle.token_keys.specs.Keys.{IsKeys, recs_of, place_of, rec_of};
ghost use Rattle.restrict.specs.constructor_keys.Constructors.{absent_with};

use il_base::world_model::{Known, MemberRefRow, MemberSig};
use il_base::{MethodSig, NoMemory, Seq};
use reference_rows::own_members::methods::signature_with;
use std::alloc::Global;
use token_keys::key_codes::keys::{AbsentMethod, MethodKey, TypeKey};
use token_keys::keys::Keys;
use token_keys::signature_rows::laws::signatures_tell;
use token_keys::types::type_key;

/// The signature of a member that is a method.
fn method_sig(row: &MemberRefRow) -> Option<&MethodSig>
    ensures { option_copied result ≡ good (ref_sig row.now) }
{
    match &row.signature {
        Known::Good(MemberSig::Method(sig)) => Some(sig),
        Known::Good(MemberSig::Field(_)) => None,
        Known::Bad(_) => None,
    }
}

/// A method's signature over the types of the world.
fn world_method_sig(alloc: Global, keys: &Keys<'_>, sig: &MethodSig) -> Result<MethodSig, NoMemory>
    requires { IsKeys keys.now }
    ensures { IfOk result (λ s. s ≡ world_method_sig (recs_of keys.now) (place_of keys.now) (rec_of keys.now) sig.now) }
{
    signatures_tell();
    let moved = signature_with(alloc, keys.numbers, sig)?;
    Ok(moved)
}

/// The key of a method that names nothing, by its parent's; None where its signature has no reading.
fn with_parent(
    alloc: Global,
    keys: &Keys<'_>,
    row: &MemberRefRow,
    parent: TypeKey,
) -> Result<Option<MethodKey>, NoMemory>
    requires { IsKeys keys.now }
    ensures { IfOk result (λ k. option_map coded.method_key k ≡ absent_with (recs_of keys.now) (place_of keys.now) (rec_of keys.now) row.now (coded.type_key parent)) }
{
    match method_sig(row) {
        None => {
            drop(parent);
            Ok(None)
        }
        Some(sig) => {
            let name = Seq::from_slice(alloc, row.name.as_slice())?;
            let signature = world_method_sig(alloc, keys, sig)?;
            Ok(Some(MethodKey::Absent(AbsentMethod {
                parent,
                name,
                signature,
            })))
        }
    }
}

/// The key of a constructor that names nothing, by the row of MemberRef; None where its parent or its signature has no reading.
pub(crate) fn absent_constructor(
    alloc: Global,
    keys: &Keys<'_>,
    row: &MemberRefRow,
) -> Result<Option<MethodKey>, NoMemory>
    requires { IsKeys keys.now }
    ensures { IfOk result (λ k. option_map coded.method_key k ≡ absent_constructor (recs_of keys.now) (place_of keys.now) (rec_of keys.now) row.now) }
{
    match type_key(alloc, keys, row.class) {
        Ok(Some(parent)) => with_parent(alloc, keys, row, parent),
        Ok(None) => Ok(None),
        Err(error) => Err(error),
    }
}
