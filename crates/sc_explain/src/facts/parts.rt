//! Cuts of the ring, and how a lock binds a group, appended to a text.
ghost use Rattle.std.specs.Prelude.{◌≡◌, ◌++◌, codes, OnOk};
ghost use Rattle.serde_json.specs.Written.{compact_text};
ghost use Rattle.sc_json_text.specs.rows.Names.{draw_json};
ghost use Rattle.sc_explain.specs.facts.Facts.{cut_json, hold_json};

use crate::facts::facts::Hold;
use crate::texts::{ToText, add_next, add_word};
use sc_base::{Draw, OutOfMemory};
use sc_meaning::Cut;

impl ToText for Cut {
    ghost json_of = { cut_json };

    fn add_to(&self, text: &mut Vec<u8>) -> Result<(), OutOfMemory> {
        add_next(text, b"[", &self.group)?;
        add_next(text, b",", &self.arc)?;
        add_word(text, b"]")
    }
}

// Appends a fixed word, a transaction, and the end of an object.
fn add_bound(text: &mut Vec<u8>, word: &[u8], tx: &Draw) -> Result<(), OutOfMemory>
    ensures { OnOk result (text.new.items ≡ text.old.items
        ++ (word.now ++ (compact_text (draw_json tx.now) ++ codes "}"))) }
{
    add_next(text, word, tx)?;
    add_word(text, b"}")
}

impl ToText for Hold {
    ghost json_of = { hold_json };

    fn add_to(&self, text: &mut Vec<u8>) -> Result<(), OutOfMemory> {
        match self {
            Hold::Free => add_word(text, br#""Free""#),
            Hold::Coordinating(tx) => add_bound(text, br#"{"Coordinating":"#, tx),
            Hold::Promised(tx) => add_bound(text, br#"{"Promised":"#, tx),
            Hold::Watching(tx) => add_bound(text, br#"{"Watching":"#, tx),
        }
    }
}
