// The bus of a board: its windows, the refusals, where a call leads, the machine, and one function for each call. It knows the
// devices by their contracts alone.
#![tactic(auto)]

pub mod board;
pub mod in_place;
pub mod machine;
pub mod refusal;
pub mod reply;
pub mod route;
pub mod well_formed;
