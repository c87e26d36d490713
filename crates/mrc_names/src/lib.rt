// The operations' names: their letters end to end, and where each name starts.
#![tactic(auto)]

pub mod names;
mod places;
