//! The shared value, which moves from port to port.
ghost use Rattle.std.specs.Prelude.{◌≡◌, [], true, IfOk};
ghost use Rattle.sc_thread_ports.specs.exchange.Addressed.{all_addressed};

use crate::turn::Listed;
use sc_actor::{Event, Parcel};
use sc_base::{OutOfMemory, Sequence};
use sc_thread_ledger::Ledger;
use std::alloc::Global;

/// A row without the number of its maker.
pub struct BareRow<M, O> {
    /// The event of the row.
    pub event: Event<O>,
    /// The mails that the row sends.
    pub sent: Sequence<M>,
}

/// The journal, its counted bytes and the pending mail. One port at a time has it. It is in a box,
/// so that a turn moves a pointer.
///
/// Each delivery in the journal is of mail to the row's maker, and only the network's rows lose and
/// repeat mail.
#[derive(Drop)]
pub struct Exchange<M: Parcel + Drop, O: Drop> {
    /// The ledger, which has the rows and what is pending.
    pub ledger: Box<Ledger<M, O>>,
    ghost addressed: { all_addressed M.receiver [] ledger.value.rows.items ≡ true },
}

impl<M: Parcel + Drop, O: Drop> Listed for Exchange<M, O> {
    ghost use Rattle.sc_thread_ports.specs.exchange.BareRows.{bare_rows};

    type Entry = BareRow<M, O>;

    ghost entries = { λ e. bare_rows e.ledger.value.rows.items };

    fn count(&self) -> u64 {
        self.ledger.len() as u64
    }
}

impl<M: Parcel + Drop, O: Drop> Exchange<M, O> {
    /// Returns an exchange of `actors` actors, whose journal is empty.
    pub(crate) fn new(alloc: Global, actors: u32) -> Result<Exchange<M, O>, OutOfMemory>
        ensures { IfOk result (λ e. e.ledger.value.rows.items ≡ []) }
    {
        let ledger = Box::new(alloc, Ledger::new(alloc, actors))?;
        Ok(Exchange { ledger })
    }
}
