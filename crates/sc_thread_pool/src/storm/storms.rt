//! Storms, whose steps are drawn.
ghost use Rattle.std.specs.Prelude.{◌≡◌};
ghost use Rattle.sc_texts.specs.chance.KeyStream.{two_words, after_step};
ghost use Rattle.sc_thread_ledger.specs.declared.spots.Look.{Look};
ghost use Rattle.sc_thread_pool.specs.storm.Deeds.{deed_of, Shows};

use crate::storm::deeds::{Deed, deed_by, deed_shown};
use sc_texts::Chance;
use sc_thread_ports::{Glance, Look};
use std::marker::Model;

/// A storm: it draws its steps, each by the two words that the generator gives for the storm's
/// number. Contracts see its number and which step is next.
#[derive(Drop)]
pub struct Storm {
    chance: Chance,
}

impl Model for Storm {
    ghost use Rattle.sc_texts.specs.chance.KeyStream.{ChanceStep};

    ghost Value = { ChanceStep };

    ghost view = { λ s. s.chance };
}

impl Storm {
    /// Returns the storm with this number, at its first step.
    pub fn start(number: u64) -> Storm
        ensures { result ≡ record { number = number; step = 0 } }
    {
        Storm {
            chance: Chance::start(number),
        }
    }

    /// Draws the two words of the next step.
    pub fn draw(&mut self) -> (u32, u32)
        ensures words { result ≡ two_words self.old.number self.old.step }
        ensures next { self.new ≡ after_step self.old }
    {
        self.chance.draw()
    }

    /// Draws the two words of the next step, and returns what this step does. `actors` are the
    /// numbers of the actors in their order, and `look` is what the network's port has seen
    /// pending. Mail to other actors is passed over. It takes no memory.
    pub fn deed(&mut self, look: &Look, actors: &[u32]) -> Deed
        ensures deed { result
            ≡ deed_of actors.now look.now (two_words self.old.number self.old.step) }
        ensures next { self.new ≡ after_step self.old }
    {
        let (first, second) = self.draw();
        deed_by(look, actors, first % 16, second)
    }
}

/// Returns what a step with these words does. `actors` are the numbers of the actors in their
/// order. Of what is pending a glance is enough: the number of mails that were sent, and the copy
/// that the second word picks.
pub fn deed_at(glance: &Glance, actors: &[u32], words: (u32, u32)) -> Deed
    ensures { (look : Look) → Shows actors.now words.1 look glance.now →
        result ≡ deed_of actors.now look words }
{
    let (first, second) = words;
    deed_shown(glance, actors, first % 16, second)
}
