//! Steps of simple instructions, many at once. A simple instruction reads and changes the top frame's evaluation stack,
//! arguments, locals and offset alone, with numbers and references, and prints nothing. What it leaves to `step` leaves the state
//! as it is.

mod branches;
mod forms;
mod moves;
mod numbers;
mod slots;
mod steps;
mod stores;
mod values;

pub use steps::quiet_steps;
