//! The law of entries: what the entries of all logs make of the groups and of the ring, where each
//! entry is allowed by what the entries before it record. This is nested consensus without mail
//! (Scatter, SOSP 2011, multi-group operations). Definitions and laws; no code that runs.
ghost use Rattle.sc_law_entries.specs.ring.RingLaws.{EntriesKeepTheRing, EntriesKeepThePromises};
ghost use Rattle.sc_law_entries.specs.ring.RingLaws.{AllowedEntriesStayAllowed, AllowedListsAppend};
ghost use Rattle.sc_law_entries.specs.ring.RingLaws.{DrawsAreOfOneLog};
ghost use Rattle.sc_law_entries.specs.ring.RingExample.{MergeIsAllowed, SplitIsAllowed};

/// Shows that after every list of allowed entries, from groups in place (`BeginInPlace`), the ring
/// covers; that the effective record of each range's group is not gone, has the range's arc and
/// names its two neighbours, itself where it is alone; and that a group that serves a key is the
/// group of the range that holds the key's position.
pub fn entries_keep_the_ring()
    ensures { EntriesKeepTheRing }
{}

/// Shows that after every list of allowed entries, from groups in place, each lock, vote and
/// decision is as the stories record it: a coordinator is as it was at the entry that began its
/// transaction until it decides, a participant is as it was frozen from its Yes to the end, and a
/// watcher watches.
pub fn entries_keep_the_promises()
    ensures { EntriesKeepThePromises }
{}

/// Shows that a name occurs in the Begins and Splits of one group's log alone.
pub fn draws_are_of_one_log()
    ensures { DrawsAreOfOneLog }
{}

/// Shows that what allows an entry only grows: an entry that is allowed stays allowed after more
/// allowed entries, from groups in place.
pub fn allowed_entries_stay_allowed()
    ensures { AllowedEntriesStayAllowed }
{}

/// Shows that lists that are allowed one after another are allowed as one list.
pub fn allowed_lists_append()
    ensures { AllowedListsAppend }
{}

/// Shows a list of entries to which the laws apply: a merge with a watcher, with calls before,
/// between and after.
pub fn merge_is_allowed()
    ensures { MergeIsAllowed }
{}

/// Shows a second list of entries to which the laws apply: a split that is given up, and ordered
/// again under another name.
pub fn split_is_allowed()
    ensures { SplitIsAllowed }
{}
