//! Acceptors' reports of accepted commands, read from their texts.
ghost use Rattle.sc_json_text.specs.rows.Commands.{report_json, FitsReport};

use crate::from_text::FromText;
use crate::parts::three_of;
use sc_words::{Command, Report};
use std::alloc::Global;

impl FromText for Report<Command> {
    ghost json_of = { report_json };

    ghost Fits = { FitsReport };

    fn take(alloc: Global, bytes: &[u8]) -> Option<(Report<Command>, &[u8])> {
        let (ballot, slot, value, rest) = three_of(
            alloc,
            bytes,
            br#"{"ballot":"#,
            br#","slot":"#,
            br#","value":"#,
            b"}",
        )?;
        Some((
            Report {
                slot,
                ballot,
                value,
            },
            rest,
        ))
    }
}
