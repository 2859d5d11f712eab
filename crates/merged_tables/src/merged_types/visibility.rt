//! The visibility of types (II.23.1.15).

ghost use Rattle.std.specs.Prelude.{◌≡◌, bit_and};
ghost use Rattle.rules.specs.merge_rules.Names.{is_top_level};
ghost use Rattle.rules.specs.merge_rules.Moved.{without};
ghost use Rattle.resolver.specs.type_links.Index.{IsIndex};
ghost use Rattle.merged_tables.specs.merged_types.Types.{visibility_by};

use il_base::type_flags;
use resolver::type_links::TypeIndex;
use rules::link_rules::RowAt;
use type_tables::member_search::linked::assembly_at;

/// A word of flags without some of them.
pub(crate) fn without(bits: u32, word: u32) -> u32
    ensures { result ≡ without bits word }
{
    word.saturating_sub(word & bits)
}

/// The bits of a word under a mask.
fn under(mask: u32, word: u32) -> u32
    ensures { result ≡ bit_and word mask }
{
    word & mask
}

/// Whether a type is there and isn't nested.
fn is_top_level(index: &TypeIndex<'_>, at: RowAt) -> bool
    requires { IsIndex index.now }
    ensures { result ≡ is_top_level index.now.all.now at }
{
    match assembly_at(index.all, at.asm) {
        None => false,
        Some(_) => match index.encloser(at.asm, at.row) {
            None => true,
            Some(_) => false,
        },
    }
}

/// The flags of a type in the output. Where types become internal, a public type that isn't nested does so, of any input but the first.
pub(crate) fn visibility(index: &TypeIndex<'_>, internal: bool, at: RowAt, flags: u32) -> u32
    requires { IsIndex index.now }
    ensures { result ≡ visibility_by internal index.now.all.now at flags }
{
    if internal
        && at.asm > 0
        && is_top_level(index, at)
        && under(type_flags::VISIBILITY_MASK, flags) == type_flags::PUBLIC
    {
        without(type_flags::VISIBILITY_MASK, flags)
    } else {
        flags
    }
}
