//! Pairs and client tables of groups that are merged.
ghost use Rattle.std.specs.Prelude.{◌≡◌, OnOk};
ghost use Rattle.sc_words.specs.ideal.IdealStore.{with_pairs};
ghost use Rattle.sc_words.specs.ideal.Clients.{joined_with};

use crate::store::{ClientTable, Store};
use sc_base::{OutOfMemory, Pairs, SeenList};

/// Adds another group's pairs and client table to those of this group. With the table, a request
/// that the other group has applied is not applied again.
///
/// After `Err(OutOfMemory)` the contract says nothing of the two, so they may only be dropped.
pub fn take_over(
    store: &mut Store,
    clients: &mut ClientTable,
    pairs: &Pairs,
    seen: &SeenList,
) -> Result<(), OutOfMemory>
    ensures pairs { OnOk result (store.new ≡ with_pairs store.old pairs.now) }
    ensures clients { OnOk result (clients.new ≡ joined_with clients.old seen.now) }
{
    store.join(pairs)?;
    clients.join(seen)?;
    Ok(())
}
