// One listing line, and pages of lines.
#![tactic(auto)]

pub mod line;
mod memory;
mod names;
mod operands;
pub mod page;
mod printed;
mod registers;
mod roomy;
mod step;
pub mod target;
mod text;
mod write;
