// The fields of a saved state that are numbers: a state as these numbers and back, and the range of each, given those before it. The map of
// the keys and the queue stand beside them. The saved line is written from them; docs/SAVED.md numbers them.
#![tactic(auto)]

mod build;
mod list;
mod place;
mod range;

pub use build::state_from;
pub use list::numbers;
pub use place::{HELD_X, HELD_Y, PAUSED};
pub use range::all_fit;

// How many fields are numbers.
pub const COUNT: usize = 55;
