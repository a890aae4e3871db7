//! The groups, entries and logs of a journal, row by row (`decided`), and what an arc holds after
//! some rows (`scans`).
#![tactic(auto)]

pub mod decided;
pub mod scans;

pub use decided::{DecidingRow, deciding_rows, entries_of, log_at};
pub use scans::{
    Page, Part, Shown, entries_count_logs, ordered, page, pages_follow, parts, scan, scan_lines,
    scans_show, walks_share_arcs,
};
