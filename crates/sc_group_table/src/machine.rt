//! The transition table of a group's state machine: the group after an executed command, and the
//! effect of the command. Definitions, no logic.
pub use sc_words::Effect;
