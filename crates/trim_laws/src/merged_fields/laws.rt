ghost use Rattle.trim_laws.specs.merged_fields.Laws.{MovesFields};

use merge_laws::merged_owners::laws::owners_stay;

/// A law: a kept field has its flags, its type, moved, and its first bytes. It does nothing.
pub fn fields_move()
    ensures { MovesFields }
{
    owners_stay();
}
