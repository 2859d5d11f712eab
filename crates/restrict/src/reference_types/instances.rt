//! The methods with arguments that have MethodSpec rows (II.22.29).

ghost use Rattle.std.specs.Prelude.{◌≡◌, ◌++◌, map, IfOk, OnOk};
ghost use Rattle.rules.specs.merge_rules.Refs.{instances_of_met, method_specs};
ghost use Rattle.token_keys.specs.key_codes.Keys as coded;
ghost use Rattle.token_keys.specs.met_forms.Told.{met_told};

use il_base::NoMemory;
use std::alloc::Global;
use token_keys::key_codes::keys::InstanceKey;
use token_keys::key_copies::keys::copy_instance_key;
use token_keys::met_forms::Met;
use token_keys::met_keys::instances::MetInstances;

/// Puts the method with arguments at the end that is met.
fn push_of_met(alloc: Global, met: &Met, all: &mut Vec<InstanceKey>) -> Result<(), NoMemory>
    ensures { OnOk result (map coded.instance_key all.new.items ≡ map coded.instance_key all.old.items ++ instances_of_met (met_told met.now)) }
{
    match met {
        Met::Type(_) => Ok(()),
        Met::Sig(_) => Ok(()),
        Met::Method(_) => Ok(()),
        Met::Field(_) => Ok(()),
        Met::Instance(key) => {
            let copy = copy_instance_key(alloc, key)?;
            all.push(copy)?;
            Ok(())
        }
        Met::Locals(_) => Ok(()),
    }
}

/// The methods with arguments that have MethodSpec rows, each once, as first met.
#[tactic(auto, unfolding(rules::specs::merge_rules::Refs::method_specs))]
pub fn method_specs(alloc: Global, mets: &[Met]) -> Result<MetInstances, NoMemory>
    ensures { IfOk result (λ instances. map coded.instance_key instances ≡ method_specs (map met_told mets.now)) }
{
    let mut all = Vec::new(alloc);
    for met in mets {
        push_of_met(alloc, met, &mut all)?;
    }
    let instances = MetInstances::of(alloc, all)?;
    Ok(instances)
}
