//! What a node queues for the votes that it receives.
ghost use Rattle.std.specs.Prelude.{◌≡◌};
ghost use Rattle.sc_words.specs.declared.commands.commands.Command.TheVariants.{RecordVote};

use sc_base::Draw;
use sc_words::{Command, Vote};

/// Returns the record of a vote, which the leader of a coordinator queues. What the vote decides is
/// sent only once the log has the record.
pub fn record_of(tx: Draw, vote: Vote, by: u16) -> Command
    ensures { result ≡ RecordVote tx vote by }
{
    Command::RecordVote { tx, vote, by }
}
