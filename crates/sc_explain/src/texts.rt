//! Values as JSON, appended to a text piece by piece, with no tree of JSON between.
mod commands;
mod pieces;
mod values;

pub(crate) use commands::add_command;
pub(crate) use pieces::{ToText, add_json, add_list, add_next, add_word};
