ghost use Rattle.std.specs.Prelude.{◌≡◌, slice_get, IfSome};
ghost use Rattle.std.specs.Option.{option_map};
ghost use Rattle.mark_parts.specs.mark_tables.Assemblies.{all_of};
ghost use Rattle.token_keys.specs.Keys.{rec_of};
ghost use Rattle.token_keys.specs.world_keys.Keys.{IsWorldKeys, AreKeysAt};

use crate::keys::Keys;
use mark_parts::mark_tables::marker::Marker;
use merge_plan::moved_parts::NewTokens;

/// A world with its tables, and the numbers of the types that the tokens of each assembly name.
#[derive(Clone, Copy)]
pub struct WorldKeys<'a> {
    pub marker: &'a Marker<'a>,
    pub numbers: &'a [NewTokens],
}

impl<'a> WorldKeys<'a> {
    /// An assembly of the world, by its place from 0.
    pub fn at(&self, asm: u32) -> Option<Keys<'a>>
        requires { IsWorldKeys self.now }
        ensures there { option_map rec_of result ≡ slice_get (all_of self.now.marker.now) asm }
        ensures are { IfSome result (AreKeysAt self.now asm) }
    {
        let numbers = self.numbers;
        let marker = self.marker;
        let found = marker.assembly_at(asm)?;
        Some(Keys {
            marker,
            asm: found,
            numbers: &numbers[asm as usize],
        })
    }
}
