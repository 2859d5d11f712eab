//! The members that have MemberRef rows (II.22.25).

ghost use Rattle.std.specs.Prelude.{◌≡◌, ◌++◌, map, IfOk, OnOk};
ghost use Rattle.rules.specs.merge_rules.Refs.{member_of_method, member_of_field, members_of_met, member_refs};
ghost use Rattle.token_keys.specs.key_codes.Keys as coded;
ghost use Rattle.token_keys.specs.met_forms.Told.{met_told};

use il_base::NoMemory;
use std::alloc::Global;
use token_keys::key_codes::keys::{FieldKey, MemberKey, MethodKey};
use token_keys::key_copies::keys::copy_absent;
use token_keys::met_forms::Met;
use token_keys::met_keys::members::MetMembers;

/// Puts a method at the end that isn't named by its own token.
fn push_method(alloc: Global, key: &MethodKey, members: &mut Vec<MemberKey>) -> Result<(), NoMemory>
    ensures { OnOk result (map coded.member_key members.new.items ≡ map coded.member_key members.old.items ++ member_of_method (coded.method_key key.now)) }
{
    match key {
        MethodKey::Own(_) => Ok(()),
        MethodKey::Found(id, owner) => {
            let owner = owner.copy(alloc)?;
            members.push(MemberKey::Method(*id, owner))?;
            Ok(())
        }
        MethodKey::Absent(method) => {
            let copy = copy_absent(alloc, method)?;
            members.push(MemberKey::Absent(copy))?;
            Ok(())
        }
    }
}

/// Puts a field at the end that isn't named by its own token.
fn push_field(alloc: Global, key: &FieldKey, members: &mut Vec<MemberKey>) -> Result<(), NoMemory>
    ensures { OnOk result (map coded.member_key members.new.items ≡ map coded.member_key members.old.items ++ member_of_field (coded.field_key key.now)) }
{
    match key {
        FieldKey::Own(_) => Ok(()),
        FieldKey::Found(id, owner) => {
            let owner = owner.copy(alloc)?;
            members.push(MemberKey::Field(*id, owner))?;
            Ok(())
        }
    }
}

/// Puts the member at the end that what is met has a row for.
fn push_of_met(alloc: Global, met: &Met, members: &mut Vec<MemberKey>) -> Result<(), NoMemory>
    ensures { OnOk result (map coded.member_key members.new.items ≡ map coded.member_key members.old.items ++ members_of_met (met_told met.now)) }
{
    match met {
        Met::Type(_) => Ok(()),
        Met::Sig(_) => Ok(()),
        Met::Method(key) => {
            push_method(alloc, key, members)?;
            Ok(())
        }
        Met::Field(key) => {
            push_field(alloc, key, members)?;
            Ok(())
        }
        Met::Instance(key) => {
            push_method(alloc, &key.method, members)?;
            Ok(())
        }
        Met::Locals(_) => Ok(()),
    }
}

/// The members that have MemberRef rows, each once, as first met.
#[tactic(auto, unfolding(rules::specs::merge_rules::Refs::member_refs))]
pub fn member_refs(alloc: Global, mets: &[Met]) -> Result<MetMembers, NoMemory>
    ensures { IfOk result (λ members. map coded.member_key members ≡ member_refs (map met_told mets.now)) }
{
    let mut all = Vec::new(alloc);
    for met in mets {
        push_of_met(alloc, met, &mut all)?;
    }
    let members = MetMembers::of(alloc, all)?;
    Ok(members)
}
