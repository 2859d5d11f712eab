ghost use Rattle.trim_laws.specs.kept_parts.Laws.{CoreStaysPlain, PartsStayed};

use merge_laws::merged_owners::laws::owners_stay;

/// A law: a type of the core library that a part of a kept item names is in the output's world. It does nothing.
pub fn parts_stay()
    ensures { PartsStayed }
{
    owners_stay();
}

/// A law: no part of an item of the core library names a type that only modifiers use. It does nothing.
pub fn core_is_plain()
    ensures { CoreStaysPlain }
{}
