ghost use Rattle.std.specs.Prelude.{◌≡◌, slice_get, MatchResult};
ghost use Rattle.std.specs.Option.{option_copied};
ghost use Rattle.rules.specs.link_rules.Signatures.{token_type};
ghost use Rattle.type_tables.specs.member_search.Linked.{IsScope};

use crate::member_search::names::Names;
use il_base::AsmId;
use il_base::world_model::{AsmRec, BadKind, Known, TypeExpr, TypeLink, type_link_at};

/// Assemblies, with the links of their type tokens.
#[derive(Clone, Copy)]
pub struct Linked<'a> {
    pub all: &'a [AsmRec],
    pub links: &'a [TypeLink],
    /// The members of each assembly by name.
    pub names: &'a [Names<'a>],
}

/// Linked assemblies, and the one of them whose tokens are read.
#[derive(Clone, Copy)]
pub struct Scope<'a> {
    pub linked: Linked<'a>,
    /// Its place, from 0.
    pub asm: u32,
    pub rec: &'a AsmRec,
}

/// The assembly in a place, from 0.
pub fn assembly_at(all: &[AsmRec], asm: u32) -> Option<&AsmRec>
    ensures { option_copied result ≡ slice_get all.now asm }
{
    all.get(asm as usize)
}

impl<'a> Scope<'a> {
    /// What a TypeDef, TypeRef or TypeSpec token names, or why it names nothing.
    pub fn token_type(&self, token: u32) -> Result<&'a TypeExpr, BadKind>
        requires { IsScope self.now }
        ensures { MatchResult result
            (λ e. token_type self.now.linked.all.now self.now.asm self.now.rec.now token ≡ Known.Good e.now)
            (λ why. token_type self.now.linked.all.now self.now.asm self.now.rec.now token ≡ Known.Bad why) }
    {
        match type_link_at(self.linked.all, self.linked.links, AsmId(self.asm), token) {
            None => Err(BadKind::Unresolved),
            Some(Known::Good(named)) => Ok(named),
            Some(Known::Bad(why)) => Err(*why),
        }
    }
}
