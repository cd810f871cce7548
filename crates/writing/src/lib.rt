// The output of a plan as text: measured, and written on lent bytes. One walk does both, so what was measured is what is written.
#![tactic(auto)]

pub mod arrays;
pub mod line;
pub mod number;
pub mod plan;
pub mod sink;
pub mod stretch;

pub use plan::{Printed, list, measure, write};
