//! What an exception becomes where it leaves a frame.

ghost use Rattle.std.specs.Prelude.{◌≡◌};
ghost use Rattle.rules.specs.step_rules.Raising.{wrapper, wrapper_of};

use il_base::cil_values::{CoreCall, Waits};
use il_base::core_table::CoreName;

/// The exception that wraps what leaves a method that a member of the core library called.
fn wrapper_of(member: CoreCall) -> Option<CoreName>
    ensures { result ≡ wrapper_of member }
{
    match member {
        CoreCall::Create => Some(CoreName::TargetInvocationException),
        CoreCall::CreateOf => Some(CoreName::TargetInvocationException),
        CoreCall::Invoke => Some(CoreName::TargetInvocationException),
        CoreCall::PropertyGet => Some(CoreName::TargetInvocationException),
        CoreCall::PropertySet => Some(CoreName::TargetInvocationException),
        _ => None,
    }
}

/// The exception of the core library that another becomes, as its inner one, where it leaves a frame: what leaves an initializer
/// (II.10.5.3), and what leaves a method that reflection calls.
#[tactic(auto, unfolding(rules::specs::step_rules::Raising::wrapper))]
pub(crate) fn wrapper(waits: &Waits) -> Option<CoreName>
    ensures { result ≡ wrapper waits.now }
{
    match waits {
        Waits::Nothing => None,
        Waits::Makes(_) => None,
        Waits::MakesValue(_) => None,
        Waits::Starts(_) => Some(CoreName::TypeInitializationException),
        Waits::Opens(_, _) => Some(CoreName::TypeInitializationException),
        Waits::Core(member, _) => wrapper_of(*member),
    }
}
