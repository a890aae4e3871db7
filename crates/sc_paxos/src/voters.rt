//! The kept votes of a proposal in flight.
ghost use Rattle.std.specs.Prelude.{◌≡◌, Some, length};
ghost use Rattle.sc_base.specs.Majority.{is_majority};
ghost use Rattle.sc_words.specs.paxos.Votes.{kept_voters, add_voter, voters_after};

use sc_base::Members;

/// Returns the kept votes after one of a node: that of a member is kept, once.
pub(crate) fn voters_after(members: &Members, node: u16, voters: Option<Members>) -> Option<Members>
    ensures { result ≡ voters_after members.now node voters }
{
    if !members.has(node) {
        return voters;
    }
    match voters {
        None => Some(Members::one(node)),
        Some(kept) => Some(with_voter(node, kept)),
    }
}

/// Returns the kept voters with one more, if it is not there and there is room for it.
fn with_voter(node: u16, mut kept: Members) -> Members
    ensures { Some result ≡ add_voter node (Some kept) }
{
    let _ = kept.add(node);
    kept
}

/// Returns whether the kept voters are a majority of the members.
pub(crate) fn are_majority(members: &Members, voters: &Option<Members>) -> bool
    ensures { result ≡ is_majority members.now (kept_voters voters.now) }
{
    match voters {
        None => members.is_majority(&[]),
        Some(kept) => members.is_majority(kept.as_slice()),
    }
}

/// Returns how many voters are kept.
pub(crate) fn count_of(voters: &Option<Members>) -> u8
    ensures { result ≡ length (kept_voters voters.now) }
{
    match voters {
        None => 0,
        Some(kept) => kept.len(),
    }
}
