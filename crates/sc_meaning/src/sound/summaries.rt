//! How far a request came, as a report says it.
ghost use Rattle.std.specs.Prelude.{◌≡◌};
ghost use Rattle.sc_meaning.specs.sound.Summary.{got_by};

use sc_base::Reply;
use sc_scenario::Progress;

/// Returns how far a request came: replied where there is a reply, else unanswered where its client
/// waits for it, else unsent.
pub fn got_by(reply: Option<Reply>, waits: bool) -> Progress
    ensures { result ≡ got_by reply waits }
{
    match reply {
        Some(reply) => Progress::Replied(reply),
        None => {
            if waits {
                Progress::Unanswered
            } else {
                Progress::Unsent
            }
        }
    }
}
