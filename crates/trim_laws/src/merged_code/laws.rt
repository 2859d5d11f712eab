ghost use Rattle.trim_laws.specs.merged_code.Laws.{MovesMethods};

use merge_laws::merged_standing::laws::reference_rows_stand;

/// A law: a kept method has the flags, the signature and the body that it had, moved. It does nothing.
pub fn methods_move()
    ensures { MovesMethods }
{
    reference_rows_stand();
}
