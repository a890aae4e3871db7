//! The laws of scans: the parts share the arc, the pairs are the map's, and pages make the list.
ghost use Rattle.sc_world_entries.specs.scans.Laws.{EntriesCountLogs, PagesFollow, ScansShow, WalksShareArcs};

/// Shows that the walk of an arc through a ring that covers shares the arc out: each part lies
/// within the range of its group, each position of the arc lies in exactly one part, and no other
/// position lies in any.
pub fn walks_share_arcs()
    ensures { WalksShareArcs }
{}

/// Shows that, where the entries of rows are the logs of their groups, a scan may count a group's
/// entries instead of looking up its log.
pub fn entries_count_logs()
    ensures { EntriesCountLogs }
{}

/// Shows that a scan of rows that make one map, and whose entries are the logs of their groups, is
/// right: its parts share the arc out; the pairs of all parts are those of the map after the
/// history whose keys the arc holds, each key once; and each part is what its group's log gives at
/// its slot, with the outcome of a decided transaction that the log lacks.
pub fn scans_show()
    ensures { ScansShow }
{
    walks_share_arcs();
}

/// Shows that the pages of a list whose keys differ make the list, in pages of at least one pair:
/// where a page leaves pairs, they are what comes behind the key that it gives; where it leaves
/// none, it gives no key. So the pages from the start on, each behind the key that the one before
/// it gave, until one gives none, are the list.
pub fn pages_follow()
    ensures { PagesFollow }
{}
