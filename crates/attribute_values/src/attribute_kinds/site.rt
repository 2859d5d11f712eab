//! An assembly of a world in which attributes are read.

ghost use Rattle.std.specs.Prelude.{◌≡◌, IfOk};
ghost use Rattle.rules.specs.link_rules.Types.{definition_at};
ghost use Rattle.attribute_values.specs.attribute_kinds.Sites.{recs_in, place_in, rec_in, IsSite};

use il_base::NoMemory;
use mark_parts::mark_tables::assembly::Assembly;
use mark_parts::mark_tables::marker::Marker;
use resolver::type_links::TypeIndex;
use rules::link_rules::RowAt;
use std::alloc::Global;

/// An assembly of a world, with the tables of the world.
#[derive(Clone, Copy)]
pub struct Site<'a> {
    pub marker: &'a Marker<'a>,
    /// The types of the same world by name.
    pub index: &'a TypeIndex<'a>,
    pub asm: Assembly<'a>,
}

/// The definition that a TypeDef or TypeRef token of the assembly names.
pub fn definition_at(alloc: Global, site: &Site<'_>, token: u32) -> Result<Option<RowAt>, NoMemory>
    requires { IsSite site.now }
    ensures { IfOk result (λ at. at ≡ definition_at (recs_in site.now) (place_in site.now) (rec_in site.now) token) }
{
    let at = site.index.definition_at(alloc, site.asm.scope.asm, token)?;
    Ok(at)
}
