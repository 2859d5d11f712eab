//! What signatures refer to.

ghost use Rattle.std.specs.Prelude.{◌≡◌, ◌++◌, ◌∷◌, [], map, OnOk};
ghost use Rattle.rules.specs.merge_rules.Keys.{world_sig, world_sigs};
ghost use Rattle.rules.specs.merge_rules.Order.{met_sig, met_good_sig, met_method_sig};
ghost use Rattle.token_keys.specs.Keys.{IsKeys, recs_of, place_of, rec_of};

use il_base::world_model::Known;
use il_base::{MethodSig, NoMemory, Sig};
use std::alloc::Global;
use token_keys::keys::Keys;
use token_keys::met_forms::Mets;
use token_keys::sigs::world_sig;

/// Meets a signature that has a reading.
fn meet_one(alloc: Global, keys: &Keys<'_>, sig: &Sig, mets: &mut Mets) -> Result<(), NoMemory>
    requires { IsKeys keys.now }
    ensures { OnOk result (mets.new ≡ mets.old ++ met_sig (world_sig (recs_of keys.now) (place_of keys.now) (rec_of keys.now) sig.now) ∷ []) }
{
    let sig = world_sig(alloc, keys, sig)?;
    mets.push_sig(sig)
}

/// Meets signatures that have readings, in their order.
fn meet_all(alloc: Global, keys: &Keys<'_>, sigs: &[Sig], mets: &mut Mets) -> Result<(), NoMemory>
    requires { IsKeys keys.now }
    ensures { OnOk result (mets.new ≡ mets.old ++ map met_sig (world_sigs (recs_of keys.now) (place_of keys.now) (rec_of keys.now) sigs.now)) }
{
    for sig in sigs {
        meet_one(alloc, keys, sig, mets)?;
    }
    Ok(())
}

/// Meets a field's signature (II.23.2.4); one without a reading names nothing.
#[tactic(auto, using(crate::proofs::lemmas::met_parts::Lists::none_more))]
pub fn meet_sig(
    alloc: Global,
    keys: &Keys<'_>,
    sig: &Known<Sig>,
    mets: &mut Mets,
) -> Result<(), NoMemory>
    requires { IsKeys keys.now }
    ensures { OnOk result (mets.new ≡ mets.old ++ met_good_sig (recs_of keys.now) (place_of keys.now) (rec_of keys.now) sig.now) }
{
    match sig {
        Known::Good(sig) => meet_one(alloc, keys, sig, mets),
        Known::Bad(_) => Ok(()),
    }
}

/// Meets the return type and the parameters of a signature that has a reading.
fn meet_types(
    alloc: Global,
    keys: &Keys<'_>,
    sig: &MethodSig,
    mets: &mut Mets,
) -> Result<(), NoMemory>
    requires { IsKeys keys.now }
    ensures { OnOk result (mets.new ≡ mets.old ++ map met_sig (world_sigs (recs_of keys.now) (place_of keys.now) (rec_of keys.now) (sig.now.ret ∷ sig.now.params))) }
{
    meet_one(alloc, keys, &sig.ret, mets)?;
    meet_all(alloc, keys, sig.params.as_slice(), mets)?;
    Ok(())
}

/// Meets a method's or a property's signature (II.23.2.1, II.23.2.5); one without a reading names nothing.
#[tactic(auto, using(crate::proofs::lemmas::met_parts::Lists::none_more))]
pub fn meet_method_sig(
    alloc: Global,
    keys: &Keys<'_>,
    sig: &Known<MethodSig>,
    mets: &mut Mets,
) -> Result<(), NoMemory>
    requires { IsKeys keys.now }
    ensures { OnOk result (mets.new ≡ mets.old ++ met_method_sig (recs_of keys.now) (place_of keys.now) (rec_of keys.now) sig.now) }
{
    match sig {
        Known::Good(sig) => meet_types(alloc, keys, sig, mets),
        Known::Bad(_) => Ok(()),
    }
}
