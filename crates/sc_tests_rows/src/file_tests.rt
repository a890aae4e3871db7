//! Files without rows, and files that are none, with their first bad line.
use sc_actor::Journal;
use sc_json_journal::read_file;
use sc_mail::Mail;
use sc_scenario::{Scenario, ScenarioError};
use sc_texts::Reason;
use sc_words::OrderLine;
use std::alloc::Global;
use std::mem::forget;

const EMPTY: &[&[u8]] = &[
    b"scatter 1\nnodes 1\ngroup 0 1\njournal\n",
    b"scatter 1\nnodes 1\ngroup 0 1\n\njournal\n",
    b"scatter 1\nnodes 1\ngroup 0 1\n\n\n# x\njournal\n",
];

// No line `journal` that a line feed ends.
const WITHOUT_DIVIDER: &[(&[u8], u32)] = &[
    (b"", 1),
    (b"\n", 2),
    (b"journal", 2),
    (b"scatter 1\nnodes 1\ngroup 0 1\njournal", 5),
    (b"scatter 1\nnodes 1\ngroup 0 1\njournals\n", 5),
    (b"scatter 1\nnodes 1\ngroup 0 1\n journal\n", 5),
    (b"scatter 1\nnodes 1\ngroup 0 1\njournal\r\n", 5),
    (b"a\nb\nc\nd\ne\nf\ng\nh\ni\n", 10),
    (b"a\nb\nc\nd\ne\nf\ng\nh\ni\nj", 11),
];

// The text before the line `journal` is no scenario, or a line behind it is the text of no row.
const BAD: &[(&[u8], u32, Reason)] = &[
    (b"journal\n", 1, Reason::MissingHeader),
    (b"\njournal\n", 1, Reason::MissingHeader),
    (b"scatter 1\nnodes 1\njournal\n", 3, Reason::MissingPart),
    (b"scatter 1\nnodes 1\n\njournal\n", 4, Reason::MissingPart),
    (
        b"scatter 1\nnodes 1\ngroup 0 1\nclient 1\nget a\njournal\n",
        6,
        Reason::UnendedClient,
    ),
    (b"scatter 1\nfoo\njournal\nx", 2, Reason::UnknownWord),
    (
        b"scatter 1\nnodes 1\ngroup 0 1\njournal\nx",
        5,
        Reason::BadRow,
    ),
    (
        b"scatter 1\nnodes 1\ngroup 0 1\njournal\njournal",
        5,
        Reason::BadRow,
    ),
];

// Returns the number of rows of what was read, or why there is nothing.
fn count_of(
    read: Result<(Scenario, Journal<Mail, OrderLine>), ScenarioError>,
) -> Result<usize, ScenarioError> {
    match read {
        Ok((scenario, rows)) => {
            let count = rows.len();
            forget(scenario);
            forget(rows);
            Ok(count)
        }
        Err(error) => Err(error),
    }
}

// Returns whether a file is none, and its first bad line is this one for this reason.
fn is_bad(alloc: Global, file: &[u8], line: u32, why: Reason) -> bool {
    count_of(read_file(alloc, file)) == Err(ScenarioError::Bad { line, why })
}

#[test]
fn files_without_rows_are_read(rt: HostRuntime) {
    for file in EMPTY {
        assert!(rt; count_of(read_file(rt.alloc(), file)) == Ok(0));
    }
}

#[test]
fn files_that_are_none_name_their_first_bad_line(rt: HostRuntime) {
    for (file, line) in WITHOUT_DIVIDER {
        assert!(rt; is_bad(rt.alloc(), file, *line, Reason::MissingJournal));
    }
    for (file, line, why) in BAD {
        assert!(rt; is_bad(rt.alloc(), file, *line, *why));
    }
}
