// What C and Rust call: the library's answers as numbers, and as records of machine words.
#![tactic(auto)]

pub mod decode;
pub mod fields;
pub mod line;
pub mod modrm;
mod operands;
pub mod page;
mod readings;
mod record;
pub mod sizes;
pub mod step;
mod words;
