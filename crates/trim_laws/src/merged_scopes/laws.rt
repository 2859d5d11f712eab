ghost use Rattle.trim_laws.specs.merged_scopes.Laws.{MarkedReferencesStand, MetNumbersThere, MetTypesThere};

use merge_laws::merged_standing::laws::{members_stand, types_stand};

/// A law: what kept types meet names types of the world. It does nothing.
pub fn met_types_there()
    ensures { MetTypesThere }
{}

/// A law: each number of a type in what the output refers to names one. It does nothing.
pub fn met_numbers_there()
    ensures { MetNumbersThere }
{}

/// A law: all that the output of a merge refers to stands in what is left, with its scopes. It does nothing.
pub fn references_stand()
    ensures { MarkedReferencesStand }
{
    members_stand();
    types_stand();
}
