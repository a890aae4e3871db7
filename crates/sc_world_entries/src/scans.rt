//! Ordered scans: what an arc of the ring holds after some rows, part by part across the groups
//! that share it, each part with the length of its group's log; and the text of a scan, in pages.
mod laws;
mod orders;
mod pages;
mod paging;
mod printing;
mod scans;
mod walking;

pub use laws::{entries_count_logs, pages_follow, scans_show, walks_share_arcs};
pub use orders::ordered;
pub use pages::Page;
pub use paging::page;
pub use printing::scan_lines;
pub use scans::{Shown, scan};
pub use walking::{Part, parts};
