//! Two nodes and a client that are stepped by hand: their rows are those that another program
//! prints of the same schedule, and an audit takes them.
ghost use Rattle.std.specs.Prelude.{◌≡◌};
ghost use Rattle.sc_actor.specs.Mail.{mails};
ghost use Rattle.sc_scenario.specs.scenario.Valid.{IsValid};

use crate::scenarios::scenario_of;
use sc_actor::{Event, Input, Row, are_few};
use sc_base::{Dup, MOST_REQUESTS};
use sc_by_hand::{Hand, SCENARIO, act};
use sc_client::ClientCore;
use sc_json_journal::row_text;
use sc_mail::Mail;
use sc_node::{NodeCore, are_in_order};
use sc_scenario::Scenario;
use sc_words::{OrderLine, Route};
use sc_world::{Party, ReplayError};
use std::alloc::Global;
use std::mem::forget;
use std::process::Abort;

const ROWS: &[&[u8]] = &[
    b"{\"event\":\"Go\",\"sent\":[{\"body\":{\"Request\":{\"client\":1,\"group\":\"0.1\",\"op\":\
        {\"Put\":{\"key\":\"a\",\"value\":\"x\"}},\"seq\":1}},\"from\":33,\"to\":1}],\"who\":33}",
    b"{\"event\":{\"Deliver\":1},\"sent\":[{\"body\":{\"Accept\":{\"ballot\":[1,1],\"command\":\
        {\"Call\":{\"client\":1,\"op\":{\"Put\":{\"key\":\"a\",\"value\":\"x\"}},\"seq\":1}},\
        \"group\":\"0.1\",\"slot\":1}},\"from\":1,\"to\":1},{\"body\":{\"Accept\":{\"ballot\":\
        [1,1],\"command\":{\"Call\":{\"client\":1,\"op\":{\"Put\":{\"key\":\"a\",\"value\":\"x\"\
        }},\"seq\":1}},\"group\":\"0.1\",\"slot\":1}},\"from\":1,\"to\":2}],\"who\":1}",
    b"{\"event\":{\"Deliver\":2},\"sent\":[{\"body\":{\"Accepted\":{\"ballot\":[1,1],\"group\":\
        \"0.1\",\"slot\":1}},\"from\":1,\"to\":1}],\"who\":1}",
    b"{\"event\":{\"Deliver\":3},\"sent\":[{\"body\":{\"Accepted\":{\"ballot\":[1,1],\"group\":\
        \"0.1\",\"slot\":1}},\"from\":2,\"to\":1}],\"who\":2}",
    b"{\"event\":{\"Deliver\":4},\"sent\":[],\"who\":1}",
    b"{\"event\":{\"Deliver\":5},\"sent\":[{\"body\":{\"Answer\":{\"answer\":{\"Value\":{\"old\":\
        null}},\"group\":\"0.1\",\"seq\":1}},\"from\":1,\"to\":33},{\"body\":{\"Learn\":\
        {\"command\":{\"Call\":{\"client\":1,\"op\":{\"Put\":{\"key\":\"a\",\"value\":\"x\"}},\
        \"seq\":1}},\"group\":\"0.1\",\"slot\":1}},\"from\":1,\"to\":2}],\"who\":1}",
    b"{\"event\":{\"Deliver\":6},\"sent\":[],\"who\":33}",
    b"{\"event\":{\"Deliver\":7},\"sent\":[],\"who\":2}",
];

// Returns two nodes and a client of a scenario, as they are created.
fn born(rt: &impl Abort, alloc: Global, scenario: &Scenario) -> Hand<Party>
    ensures { result.log.wire ≡ mails result.log.rows }
{
    let groups = &scenario.groups;
    assert!(rt; groups.len() == 1 && scenario.clients.len() == 1);
    assert!(rt; are_in_order(groups.as_slice()));
    let core = &groups.at(0).core;
    let known = Route {
        group: core.id,
        lo: core.arc.lo(),
        members: core.members,
    };
    let requests = &scenario.clients.at(0).ops;
    assert!(rt; requests.len() <= MOST_REQUESTS);
    let first = NodeCore::born(alloc, 1, groups, false).expect(rt, "memory");
    let second = NodeCore::born(alloc, 2, groups, false).expect(rt, "memory");
    let asks = requests.dup(alloc).expect(rt, "memory");
    let client = ClientCore::born(alloc, 1, asks, known).expect(rt, "memory");
    let (first, second) = (Party::Node(first), Party::Node(second));
    Hand::new(alloc, first, second, Party::Client(client))
}

fn have_texts(
    rt: &impl Abort,
    alloc: Global,
    rows: &[Row<Mail, OrderLine>],
    texts: &[&[u8]],
) -> bool {
    if rows.len() != texts.len() {
        return false;
    }
    for (i, row) in rows.iter().enumerate() {
        let text = row_text(alloc, row).expect(rt, "memory");
        let is_so = i < texts.len() && text.as_slice() == texts[i];
        forget(text);
        if !is_so {
            return false;
        }
    }
    true
}

// Returns the row that an audit names, or 0 where the rows are lawful.
fn named(rt: &impl Abort, alloc: Global, hand: &Hand<Party>, scenario: &Scenario) -> u32
    requires { IsValid scenario.now }
{
    assert!(rt; are_few(hand.log.rows.as_slice()));
    match hand.audited(alloc, scenario) {
        Ok(world) => {
            forget(world);
            0
        }
        Err(ReplayError::BadRow { at }) => at,
        Err(ReplayError::OutOfMemory) => panic!(rt; "memory"),
    }
}

#[test]
fn a_put_by_hand_makes_eight_lawful_rows_and_a_tick_is_none(rt: HostRuntime) {
    let alloc = rt.alloc();
    let scenario = scenario_of(&rt, alloc, SCENARIO);
    let mut hand = born(&rt, alloc, &scenario);
    hand.run(alloc, 1000).expect(&rt, "memory");
    let are_rows = have_texts(&rt, alloc, hand.log.rows.as_slice(), ROWS);
    let before = named(&rt, alloc, &hand, &scenario);
    let node = &mut hand.first;
    act(alloc, 1, node, Event::Tick, &Input::Tick, &mut hand.log).expect(&rt, "memory");
    let behind = named(&rt, alloc, &hand, &scenario);
    forget(hand);
    forget(scenario);
    assert!(rt; are_rows && before == 0 && behind == 9);
}
