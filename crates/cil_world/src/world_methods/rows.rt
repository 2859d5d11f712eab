//! Tables of rows of all assemblies.

ghost use Rattle.std.specs.Prelude.{◌≡◌};
ghost use Rattle.std.specs.Option.{option_copied};
ghost use Rattle.cil_world.specs.world_methods.Rows.{in_place};

/// What there is in a place, from 0.
pub fn in_place<T>(rows: &[Option<T>], place: u32) -> Option<&T>
    ensures { option_copied result ≡ in_place rows.now place }
{
    match rows.get(place as usize) {
        Some(Some(found)) => Some(found),
        Some(None) => None,
        None => None,
    }
}
