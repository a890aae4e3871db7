//! The command line: what the arguments ask for, what is read for them, and the status and text of
//! each answer.
#![tactic(auto)]

mod errors;
mod inputs;
mod parsing;
mod printing;
mod said;
mod subcommands;

pub use errors::{InputError, error_text};
pub use inputs::{file_in, scenario_in, text_in};
pub use parsing::subcommand_by;
pub use printing::print;
pub use said::{Said, said_by};
pub use subcommands::{Sight, Subcommand};
