// Scripts and logs: the two formats, the run of script records over lent slices, and what the program does with its input.
// It knows the machine by the bus's contracts alone.
#![tactic(auto)]

pub mod entry;
pub mod format;
pub mod number;
pub mod record;
pub mod run;
