//! What closed types hold (I.12.1, II.10.1.2, II.13): the shapes of places, and the cells of objects with what they hold at
//! first. A world that a link gave goes in; each answer is that of `rules/specs/view_rules/Layouts`.

mod cells;
mod closing;
mod flat;
mod kinds;
mod layouts;
mod making;
mod settled;
mod shapes;
mod zeros;

pub use layouts::Layouts;
