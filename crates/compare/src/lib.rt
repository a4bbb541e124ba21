// Comparing two logs, piece by piece, and the line that says what came of it.
#![tactic(auto)]

pub mod comparison;
pub mod line;
mod text;
pub mod verdict;
