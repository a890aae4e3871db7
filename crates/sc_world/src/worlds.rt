//! What a journal of a scenario leaves.
ghost use Rattle.std.specs.Prelude.{◌≡◌};
ghost use Rattle.sc_meaning.specs.sound.Players.{parties, as_nodes, Lawful};
ghost use Rattle.sc_meaning.specs.sound.Soundness.{IsSoundThroughout};
ghost use Rattle.sc_law_refusal.specs.refusal.Journals.{RefusesWithCause};
ghost use Rattle.sc_texts.specs.chance.KeyStream.{two_words};

use crate::party::Party;
use sc_actor::Journal;
use sc_base::Sequence;
use sc_mail::Mail;
use sc_scenario::Scenario;
use sc_words::OrderLine;
use std::marker::Model;

/// The replay of a lawful journal of a scenario: the nodes and then the clients as their rows leave
/// them, the number of skipped lines, and whether no mail is pending. Each prefix of the journal is
/// sound, each refusal in it has its cause, and its rows and mails are fewer than 2^31 each.
///
/// Contracts see the scenario and the rows. That these are lawful and sound, and refuse with cause,
/// holds of every world (`stands`).
#[derive(Drop)]
pub struct World<'a> {
    pub(crate) scenario: &'a Scenario,
    pub(crate) rows: &'a Journal<Mail, OrderLine>,
    pub(crate) parties: Sequence<Party>,
    pub(crate) skipped: u64,
    pub(crate) quiet: bool,
}

impl<'a> Model for World<'a> {
    ghost use Rattle.sc_world.specs.Worlds.{Standing, WorldHolds};

    ghost Value = { Standing };

    ghost view = { λ w. record { scenario = w.scenario.now; rows = w.rows.now } };

    ghost invariant = { λ w. WorldHolds w.scenario.now w.rows.now w.parties w.skipped w.quiet };
}

impl<'a> World<'a> {
    /// Shows that the rows are a lawful journal of the scenario, that each prefix of it is sound,
    /// and that each of its refusals has its cause. It has no effect.
    pub fn stands(&self)
        ensures lawful { Lawful as_nodes two_words self.now.scenario self.now.rows }
        ensures sound { IsSoundThroughout as_nodes self.now.scenario self.now.rows }
        ensures refuses { RefusesWithCause as_nodes self.now.scenario self.now.rows }
    {
        let _kept = self.quiet;
    }

    /// Returns the nodes and then the clients, in the order of their numbers, each as its rows
    /// leave it.
    pub fn parties(&self) -> &[Party]
        ensures { result.now ≡ parties as_nodes self.now.scenario self.now.rows }
    {
        self.parties.as_slice()
    }
}
