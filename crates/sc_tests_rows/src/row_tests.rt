//! Texts of rows of every shape, and texts that are nearly one.
use sc_json_fast::common_row;
use sc_json_journal::{RowError, read_row};
use std::alloc::{AllocError, Global};
use std::mem::forget;

// A text in pieces.
type Pieces = &'static [&'static [u8]];

const LINK: &[u8] = br#"{"group":"0.2","members":[1,2]}"#;

const OFFER: &[u8] =
    br#"{"arc":[0,7],"body":"Merge","by":1,"coord":"0.1","members":[1],"part":"0.2"}"#;

const FIRST_OF_WATCH: &[u8] = br#"{"by":1,"coord":"0.1","members":[1,2],"next":"#;

const LAST_OF_WATCH: &[u8] = br#","old":"0.1","part":"0.2"}"#;

const CALLED: &[u8] = br#"{"Accept":{"ballot":[1,2],"command":{"Call":{"client":1,"op":"#;

const CALLED_SO: &[u8] = br#","seq":2}},"group":"0.1","slot":3}}"#;

const ASKED: &[u8] = br#"{"Request":{"client":64,"group":"0.1","op":"#;

const ASKED_SO: &[u8] = br#","seq":1000}}"#;

const ANSWERED: &[u8] = br#"{"Answer":{"answer":"#;

const ANSWERED_SO: &[u8] = br#","group":"0.1","seq":1}}"#;

const LEARNT: &[u8] = br#"{"Learn":{"command":"#;

const LEARNT_SO: &[u8] = br#","group":"4.1","slot":4294967295}}"#;

/// What mails say, of shapes that are read with no JSON between.
const COMMON_BODIES: &[Pieces] = &[
    &[ASKED, br#"{"Get":{"key":"a"}}"#, ASKED_SO],
    &[ASKED, br#"{"Put":{"key":"!~","value":"x"}}"#, ASKED_SO],
    &[ASKED, br#"{"Del":{"key":"a"}}"#, ASKED_SO],
    &[ASKED, br#"{"Add":{"key":"a","value":"x"}}"#, ASKED_SO],
    &[
        ASKED,
        br#"{"Cas":{"expect":"x","key":"a","value":"y"}}"#,
        ASKED_SO,
    ],
    &[ANSWERED, br#"{"Value":{"old":null}}"#, ANSWERED_SO],
    &[ANSWERED, br#"{"Value":{"old":"null"}}"#, ANSWERED_SO],
    &[ANSWERED, br#"{"NotLeader":{"hint":1}}"#, ANSWERED_SO],
    &[ANSWERED, br#"{"NotLeader":{"hint":null}}"#, ANSWERED_SO],
    &[ANSWERED, br#"{"Stale":{"last":2}}"#, ANSWERED_SO],
    &[br#"{"Prepare":{"ballot":[2,9],"from_slot":0,"group":"0.1"}}"#],
    &[br#"{"Promise":{"ballot":[2,2],"group":"0.1","reports":[]}}"#],
    &[CALLED, br#"{"Get":{"key":"a"}}"#, CALLED_SO],
    &[
        CALLED,
        br#"{"Cas":{"expect":"x","key":"a","value":"y"}}"#,
        CALLED_SO,
    ],
    &[br#"{"Accepted":{"ballot":[1,1],"group":"0.1","slot":1}}"#],
    &[br#"{"Nack":{"group":"32.4294967295","promised":[4294967295,32]}}"#],
    &[LEARNT, br#""Noop""#, LEARNT_SO],
    &[
        LEARNT,
        br#"{"Call":{"client":1,"op":{"Del":{"key":"a"}},"seq":3}}"#,
        LEARNT_SO,
    ],
    &[br#"{"Ask":{"from_slot":1,"group":"0.1"}}"#],
];

/// What mails say, of the other shapes, and of a common one with bytes that a string has a
/// backslash before.
const OTHER_BODIES: &[Pieces] = &[
    &[ASKED, br#"{"Get":{"key":"\"\\"}}"#, ASKED_SO],
    &[
        ANSWERED,
        br#"{"NotMine":{"arc":[0,7],"succ":"#,
        LINK,
        b"}}",
        ANSWERED_SO,
    ],
    &[
        ANSWERED,
        br#"{"Gone":{"into":{"group":"0.1","lo":0,"members":[1]}}}"#,
        ANSWERED_SO,
    ],
    &[
        br#"{"Promise":{"ballot":[2,2],"group":"0.1","reports":[{"ballot":[1,1],"slot":2,"#,
        br#""value":{"RecordWatch":{"by":9,"tx":"1.1","vote":"Yes"}}}]}}"#,
    ],
    &[LEARNT, br#"{"Join":{"node":2,"order":1}}"#, LEARNT_SO],
    &[LEARNT, br#"{"Leave":{"node":2,"order":1}}"#, LEARNT_SO],
    &[
        LEARNT,
        br#"{"Split":{"at":7,"child":"1.1","order":1}}"#,
        LEARNT_SO,
    ],
    &[
        LEARNT,
        br#"{"Begin":{"body":"Merge","order":0,"tx":"9.1"}}"#,
        LEARNT_SO,
    ],
    &[
        LEARNT,
        br#"{"Begin":{"body":{"Repart":{"at":5}},"order":0,"tx":"9.1"}}"#,
        LEARNT_SO,
    ],
    &[
        LEARNT,
        br#"{"Prepared":{"offer":"#,
        OFFER,
        br#","tx":"1.1"}}"#,
        LEARNT_SO,
    ],
    &[
        LEARNT,
        br#"{"RecordVote":{"by":2,"tx":"1.1","vote":{"No":"Apart"}}}"#,
        LEARNT_SO,
    ],
    &[LEARNT, br#"{"GiveUp":{"tx":"1.1"}}"#, LEARNT_SO],
    &[
        LEARNT,
        br#"{"Finish":{"outcome":"Divided","tx":"3.2"}}"#,
        LEARNT_SO,
    ],
    &[
        LEARNT,
        br#"{"Watched":{"tx":"3.2","watch":"#,
        FIRST_OF_WATCH,
        LINK,
        LAST_OF_WATCH,
        b"}}",
        LEARNT_SO,
    ],
    &[
        LEARNT,
        br#"{"RecordWatch":{"by":3,"tx":"1.1","vote":"Ended"}}"#,
        LEARNT_SO,
    ],
    &[
        br#"{"Install":{"base":{"clients":[[1,2,{"old":null}]],"core":{"arc":[0,7],"begun":0,"#,
        br#""born":["1.1"],"decided":[["1.2","Abort"]],"first":4,"gone":null,"id":"0.2","#,
        br#""lock":"Free","members":[3,4],"pred":"#,
        LINK,
        br#","succ":"#,
        LINK,
        br#","voted":[["1.1","Ended"]]},"pairs":[["a","b"]]},"group":"0.2","#,
        br#""sets":[[4],[3,4]],"slot":2}}"#,
    ],
    &[br#"{"TxPrepare":{"offer":"#, OFFER, br#","tx":"1.1"}}"#],
    &[br#"{"TxVote":{"coord":"0.1","part":"0.2","tx":"1.1","vote":{"No":{"TooMany":{"n":10}}}}}"#],
    &[br#"{"TxOutcome":{"outcome":{"Migrated":{"node":2}},"part":"1.2","tx":"1.3"}}"#],
    &[br#"{"TxElsewhere":{"coord":"1.1","hint":3,"tx":"5.2"}}"#],
    &[
        br#"{"TxWatch":{"tx":"1.1","watch":"#,
        FIRST_OF_WATCH,
        LINK,
        LAST_OF_WATCH,
        b"}}",
    ],
    &[br#"{"TxWatched":{"coord":"0.1","part":"0.2","tx":"1.1","vote":"Yes"}}"#],
    &[br#"{"Told":{"order":1,"result":{"Refused":{"NotLeader":{"hint":null}}}}}"#],
];

const EVENTS: &[Pieces] = &[
    &[br#"{"Deliver":0}"#],
    &[br#"{"Deliver":4294967295}"#],
    &[br#""Tick""#],
    &[br#""Go""#],
    &[br#""Crash""#],
    &[br#"{"Drop":12}"#],
    &[br#"{"Again":9}"#],
    &[br#"{"Told":{"number":1,"order":{"Join":{"group":"0.1","node":3}}}}"#],
    &[br#"{"Told":{"number":2,"order":{"Merge":{"group":"0.1"}}}}"#],
];

/// What nearly is what a mail says.
const BAD_BODIES: &[Pieces] = &[
    &[],
    &[br#"{"Ask":{"from_slot":01,"group":"0.1"}}"#],
    &[br#"{"Ask":{"from_slot":+1,"group":"0.1"}}"#],
    &[br#"{"Ask":{"from_slot":1.0,"group":"0.1"}}"#],
    &[br#"{"Ask":{"from_slot":-1,"group":"0.1"}}"#],
    &[br#"{"Ask":{"from_slot":4294967296,"group":"0.1"}}"#],
    &[br#"{"Ask":{"from_slot": 1,"group":"0.1"}}"#],
    &[br#"{"Ask":{"group":"0.1","from_slot":1}}"#],
    &[br#"{"Ask":{"from_slot":1}}"#],
    &[br#"{"Ask":{"from_slot":1,"group":"0.1","slot":1}}"#],
    &[br#"{"Ask":{"from_slot":1,"group":"0.1"}"#],
    &[br#"{"Ask":{"from_slot":1,"group":"0.01"}}"#],
    &[br#"{"Ask":{"from_slot":1,"group":"65536.1"}}"#],
    &[br#"{"Ask":{"from_slot":1,"group":"0.1.1"}}"#],
    &[br#"{"Ask":{"from_slot":1,"group":"0"}}"#],
    &[br#"{"ask":{"from_slot":1,"group":"0.1"}}"#],
    &[br#"{"Nack":{"group":"0.1","promised":[1,2,3]}}"#],
    &[br#"{"Nack":{"group":"0.1","promised":[1,65536]}}"#],
    &[br#""Ask""#],
    &[ASKED, br#"{"Get":{"key":""}}"#, ASKED_SO],
    &[ASKED, br#"{"Get":{"key":"\u0061"}}"#, ASKED_SO],
    &[ASKED, br#"{"Get":{"key":"a b"}}"#, ASKED_SO],
    &[ASKED, br#"{"Get":{"key":a}}"#, ASKED_SO],
    &[ASKED, br#"{"Get":{"key":"a"}}}"#, ASKED_SO],
    &[ANSWERED, br#"{"Value":{"old":nil}}"#, ANSWERED_SO],
    &[ANSWERED, br#"{"Value":{"old":""}}"#, ANSWERED_SO],
    &[LEARNT, br#"{"Noop":null}"#, LEARNT_SO],
    &[LEARNT, br#""Call""#, LEARNT_SO],
];

const BAD_EVENTS: &[Pieces] = &[
    &[],
    &[br#"{"Deliver":007}"#],
    &[br#"{"Deliver":"7"}"#],
    &[br#"{"Deliver":}"#],
    &[br#"{"Deliver":7},"more":{"Deliver":7}"#],
    &[br#""tick""#],
    &[br#"{"Tick":null}"#],
];

/// The rest of a row behind its event, and of one behind its mails, that is none.
const BAD_ENDS: &[Pieces] = &[
    &[br#","sent":[],"who":1} "#],
    &[br#","sent":[],"who":1}}"#],
    &[br#","sent":[],"who":1"#],
    &[br#","sent":[],"who":01}"#],
    &[br#","sent":[ ],"who":1}"#],
    &[br#","sent":[,],"who":1}"#],
    &[br#","sent":[],"who":4294967296}"#],
    &[br#","sent":null,"who":1}"#],
    &[br#","sent":{},"who":1}"#],
    &[br#","who":1,"sent":[]}"#],
    &[br#","sent":[],"sent":[],"who":1}"#],
    &[b",\"sent\":[],\"who\":1}\r"],
];

// Adds the pieces of a text to a text.
fn add(text: &mut Vec<u8>, pieces: &[&[u8]]) -> Result<(), AllocError> {
    for piece in pieces {
        text.extend_from_slice(piece)?;
    }
    Ok(())
}

// Returns the text of these parts.
fn joined(
    alloc: Global,
    first: &[u8],
    pieces: &[&[u8]],
    last: &[u8],
) -> Result<Vec<u8>, AllocError> {
    let mut text = Vec::new(alloc);
    add(&mut text, &[first])?;
    add(&mut text, pieces)?;
    add(&mut text, &[last])?;
    Ok(text)
}

// Returns 1 where a text is the text of a row, 0 where it is not, and 255 where it runs out of
// memory.
fn answer_of(alloc: Global, first: &[u8], pieces: &[&[u8]], last: &[u8]) -> u8 {
    let Ok(text) = joined(alloc, first, pieces, last) else {
        return 255;
    };
    match read_row(alloc, text.as_slice()) {
        Ok(row) => {
            forget(row);
            1
        }
        Err(RowError::NoRow) => 0,
        Err(RowError::OutOfMemory) => 255,
    }
}

const FIRST: &[u8] = br#"{"event":{"Deliver":7},"sent":[{"body":"#;

const LAST: &[u8] = br#","from":1,"to":33}],"who":1}"#;

// Returns whether the row of a mail that says this is read with no JSON between.
fn is_common(alloc: Global, body: &[&[u8]]) -> bool {
    let Ok(text) = joined(alloc, FIRST, body, LAST) else {
        return false;
    };
    match common_row(alloc, text.as_slice()) {
        Some(row) => {
            forget(row);
            true
        }
        None => false,
    }
}

// Returns the text of a row with one mail that says this.
fn mail_answer(alloc: Global, body: &[&[u8]]) -> u8 {
    answer_of(alloc, FIRST, body, LAST)
}

// Returns the text of a row with two mails that say this.
fn mails_answer(alloc: Global, body: &[&[u8]]) -> u8 {
    let mut twice = Vec::new(alloc);
    if add(&mut twice, body).is_err()
        || add(&mut twice, &[br#","from":1,"to":2},{"body":"#]).is_err()
        || add(&mut twice, body).is_err()
    {
        return 255;
    }
    mail_answer(alloc, &[twice.as_slice()])
}

#[test]
fn mails_of_every_shape_are_read(rt: HostRuntime) {
    for bodies in &[COMMON_BODIES, OTHER_BODIES] {
        for body in *bodies {
            assert_eq!(rt; mail_answer(rt.alloc(), body), 1);
            assert_eq!(rt; mails_answer(rt.alloc(), body), 1);
        }
    }
}

#[test]
fn common_mails_are_read_with_no_json_between(rt: HostRuntime) {
    for body in COMMON_BODIES {
        assert!(rt; is_common(rt.alloc(), body));
    }
    for body in OTHER_BODIES {
        assert!(rt; !is_common(rt.alloc(), body));
    }
}

#[test]
fn other_spellings_of_mails_are_not_read(rt: HostRuntime) {
    for body in BAD_BODIES {
        assert_eq!(rt; mail_answer(rt.alloc(), body), 0);
        assert_eq!(rt; mails_answer(rt.alloc(), body), 0);
    }
}

#[test]
fn rows_of_every_event_are_read(rt: HostRuntime) {
    for event in EVENTS {
        let answer = answer_of(
            rt.alloc(),
            br#"{"event":"#,
            event,
            br#","sent":[],"who":0}"#,
        );
        assert_eq!(rt; answer, 1);
    }
}

#[test]
fn other_spellings_of_rows_are_not_read(rt: HostRuntime) {
    for event in BAD_EVENTS {
        let answer = answer_of(
            rt.alloc(),
            br#"{"event":"#,
            event,
            br#","sent":[],"who":0}"#,
        );
        assert_eq!(rt; answer, 0);
    }
    for end in BAD_ENDS {
        assert_eq!(rt; answer_of(rt.alloc(), br#"{"event":"Tick""#, end, b""), 0);
    }
}
