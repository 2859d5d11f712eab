//! How slots and cells keep values (III.1.6), what they hold at first, and which places an access takes. Each answer is that
//! of `rules/specs/step_rules/Integers` and `Stores`.

mod access;
mod fitting;
mod integers;
mod zeros;

pub use access::{Access, access_of, allows, element_access, loaded, stored};
pub use fitting::{all_fit, fits, fits_reference};
pub use integers::{
    cut, held_number, narrowed, number, same_width, shown, width_of, worth, wrapped,
};
pub use zeros::{is_reference, is_value, zero_cells, zero_of, zeros_of};
