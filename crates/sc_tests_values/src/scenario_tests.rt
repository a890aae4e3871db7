//! Texts that are scenarios, and texts that are not.
use crate::{REFUSED, Refused};
use sc_base::{Draw, Op};
use sc_scenario::{ClientList, GroupList, Scenario, ScenarioError, SchedLine, read_scenario};
use sc_words::Order;
use std::alloc::Global;
use std::mem::forget;
use std::process::Abort;

const ALL_LINES: &[u8] =
    b"scatter 1\nnodes 3\ngroup 7 3 1\nclient 5\nput a x\nget a\ndel a\nend\nclient 2\nend\ngo 5\ndeliver n3 1\ndrop c5 4294967295\nagain 9\ntick c2\ncrash 3\norder 3 join 2 0.1\norder 1 leave 3 32.4294967295\nsettle 1000000\n";

fn are_clients_read(clients: &ClientList) -> bool {
    match clients.as_slice() {
        [one, other] => one.client == 2 && other.client == 5 && other.ops.len() == 3,
        _ => false,
    }
}

fn is_group_read(groups: &GroupList) -> bool {
    match groups.as_slice() {
        [base] => {
            base.core.arc.lo() == 7 && base.core.first == 1 && base.core.members.len() == 2
        }
        _ => false,
    }
}

// The node that gets an order, the order's number, whether it is a join, and the node and the group
// of the join or leave.
type NodeOrder = (u16, u32, bool, u16, Draw);

fn node_order(line: &SchedLine) -> Option<NodeOrder> {
    match line {
        SchedLine::Told { node, line } => match &line.order {
            Order::Join { node: other, group } => Some((*node, line.number, true, *other, *group)),
            Order::Leave { node: other, group } => {
                Some((*node, line.number, false, *other, *group))
            }
            _ => None,
        },
        _ => None,
    }
}

const JOIN: NodeOrder = (3, 1, true, 2, Draw { node: 0, count: 1 });

const LEAVE: NodeOrder = (
    1,
    2,
    false,
    3,
    Draw {
        node: 32,
        count: 4_294_967_295,
    },
);

fn is_early_form_read(scenario: &Scenario) -> bool {
    let lines = scenario.lines.as_slice();
    scenario.nodes == 3
        && lines.len() == 9
        && node_order(&lines[6]) == Some(JOIN)
        && node_order(&lines[7]) == Some(LEAVE)
        && are_clients_read(&scenario.clients)
        && is_group_read(&scenario.groups)
}

// What a scenario must be: all lines of the early form, two conditional writes, or one `free` line
// with these numbers of deliveries and workers.
#[derive(Clone, Copy)]
enum Wanted {
    Early,
    Conditional,
    Free(u32, u32),
}

// Returns whether the text is a scenario, and the one that it must be.
fn is_read(rt: &impl Abort, alloc: Global, text: &[u8], wanted: Wanted) -> bool {
    let scenario = read_scenario(alloc, text).expect(rt, "a scenario");
    let is_read = match wanted {
        Wanted::Early => is_early_form_read(&scenario),
        Wanted::Conditional => has_conditional_writes(&scenario),
        Wanted::Free(most, workers) => is_free_line(scenario.lines.as_slice(), (most, workers)),
    };
    forget(scenario);
    is_read
}

#[test]
fn the_early_form_is_read(rt: HostRuntime) {
    assert!(rt; is_read(&rt, rt.alloc(), ALL_LINES, Wanted::Early));
}

// Returns the first bad line of a text and the number of its reason, or zeros where the text is a
// scenario.
fn error_of(alloc: Global, text: &[u8]) -> (u32, u8) {
    match read_scenario(alloc, text) {
        Ok(scenario) => {
            forget(scenario);
            (0, 0)
        }
        Err(ScenarioError::Bad { line, why }) => (line, why.code()),
        Err(ScenarioError::OutOfMemory) => (0, 255),
    }
}

// Returns whether a text with these line feeds behind it is refused at this line for this reason.
fn is_refused(rt: &impl Abort, alloc: Global, refused: &Refused) -> bool {
    let (text, feeds, line, why) = *refused;
    let mut whole = Vec::from_slice(alloc, text).expect(rt, "memory");
    for _ in 0..feeds {
        whole.push(b'\n').expect(rt, "memory");
    }
    let found = error_of(alloc, &whole);
    forget(whole);
    found == (line, why)
}

#[test]
fn bad_texts_name_their_first_bad_line_and_its_lowest_reason(rt: HostRuntime) {
    for refused in REFUSED {
        assert!(rt; is_refused(&rt, rt.alloc(), refused));
    }
}

// The lines of `ALL_LINES`, with a comment, tabs, carriage returns, empty lines, and no line feed
// at the end.
const LOOSE: &[u8] =
    b" scatter\t1 \r\n# x\r\nnodes  3\n\n \t\r\ngroup 7 3 1\nclient 5\n\tput a x\nget a\ndel a\nend\n\
        client 2\nend\ngo 5\ndeliver n3 1\ndrop c5 4294967295\nagain 9\ntick c2\ncrash 3\n\
        order 3 join 2 0.1\n#\norder 1 leave 3 32.4294967295\nsettle 1000000\r";

#[test]
fn blanks_and_comments_change_nothing(rt: HostRuntime) {
    assert!(rt; is_read(&rt, rt.alloc(), LOOSE, Wanted::Early));
}

const CONDITIONAL: &[u8] = b"scatter 2\nnodes 1\ngroup 0 1\nclient 1\nadd a x\ncas a x z\nend\n";

fn is_add_and_cas(ops: &[Op]) -> bool {
    match ops {
        [Op::Add { .. }, Op::Cas { expect, value, .. }] => {
            expect.bytes() == b"x".as_slice() && value.bytes() == b"z".as_slice()
        }
        _ => false,
    }
}

fn has_conditional_writes(scenario: &Scenario) -> bool {
    match scenario.clients.as_slice() {
        [asks] => scenario.version == 2 && is_add_and_cas(asks.ops.as_slice()),
        _ => false,
    }
}

#[test]
fn version_two_has_conditional_writes(rt: HostRuntime) {
    assert!(rt; is_read(&rt, rt.alloc(), CONDITIONAL, Wanted::Conditional));
}

fn is_free_line(lines: &[SchedLine], counts: (u32, u32)) -> bool {
    match lines {
        [SchedLine::Free { most, workers }] => *most == counts.0 && *workers == counts.1,
        _ => false,
    }
}

const FREE: &[(&[u8], Wanted)] = &[
    (
        b"scatter 1\nnodes 1\ngroup 0 1\nfree 100 4\n",
        Wanted::Free(100, 4),
    ),
    (
        b"scatter 1\nnodes 1\ngroup 0 1\nfree 1 1\n",
        Wanted::Free(1, 1),
    ),
    (
        b"scatter 1\nnodes 1\ngroup 0 1\nfree 1000000 16\n",
        Wanted::Free(1_000_000, 16),
    ),
];

#[test]
fn free_lines_are_read(rt: HostRuntime) {
    for (text, wanted) in FREE {
        assert!(rt; is_read(&rt, rt.alloc(), text, *wanted));
    }
}
