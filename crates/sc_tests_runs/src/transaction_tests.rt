//! Splits and transactions between groups, through a whole run: worked rows with their reports, and
//! groups that split and merge while several workers deliver.

use crate::run_tests::{TableRow, check_rows};
use crate::thread_tests::{Case, check_same};

// A request that the parent executed is asked again after a split: the child answers it as before,
// from its client table.
const REPEAT_AFTER_SPLIT: &[u8] =
    b"scatter 1\nnodes 2\ngroup 0 1 2\nclient 1\nput m x\nend\ngo 1\ndeliver n1 1\n\
        deliver n1 1\ndeliver n2 1\ndeliver n1 1\ndeliver n1 1\ndrop c1 1\n\
        order 1 split 0.1 1828716544\nsettle 100\ntick c1\nsettle 100\n";

const REPEAT_AFTER_SPLIT_REPORT: &[u8] =
    b"scatter report 1\nreply 1 1 put none\norder 1 done\nring 0 group 0.1 members 1\n\
        ring 1828716544 group 1.1 members 2\nrows 23\nmail 22\ndelivered 19\nskipped 0\n\
        quiet yes\n";

const SPLIT_AT_ITS_START: &[u8] = b"scatter 1\nnodes 2\ngroup 0 1 2\norder 1 split 0.1 0\n";

const SPLIT_AT_ITS_START_REPORT: &[u8] =
    b"scatter report 1\norder 1 refused 4 bad-boundary\nring 0 group 0.1 members 1 2\nrows 1\n\
        mail 1\ndelivered 0\nskipped 0\nquiet yes\n";

const SPLIT_WITH_A_WATCHER: &[u8] =
    b"scatter 1\nnodes 3\ngroup 0 1 2\ngroup 2147483648 3\norder 1 split 0.1 1073741824\n\
        settle 100\n";

const SPLIT_WITH_A_WATCHER_REPORT: &[u8] =
    b"scatter report 1\norder 1 committed\nring 0 group 0.1 members 1\n\
        ring 1073741824 group 1.1 members 2\nring 2147483648 group 0.2 members 3\nrows 18\n\
        mail 19\ndelivered 17\nskipped 0\nquiet yes\n";

const MERGE_ALONE: &[u8] = b"scatter 1\nnodes 1\ngroup 0 1\norder 1 merge 0.1\n";

const MERGE_ALONE_REPORT: &[u8] =
    b"scatter report 1\norder 1 refused 3 no-neighbour\nring 0 group 0.1 members 1\nrows 1\n\
        mail 1\ndelivered 0\nskipped 0\nquiet yes\n";

const MERGE_OF_TWO: &[u8] =
    b"scatter 1\nnodes 2\ngroup 0 1\ngroup 2147483648 2\norder 1 merge 0.1\nsettle 100\n";

const MERGE_OF_TWO_REPORT: &[u8] =
    b"scatter report 1\norder 1 committed\nring 0 group 0.1 members 1 2\nrows 13\nmail 13\n\
        delivered 12\nskipped 0\nquiet yes\n";

// Both vote No.
const CROSSED_MERGES: &[u8] =
    b"scatter 1\nnodes 2\ngroup 0 1\ngroup 2147483648 2\norder 1 merge 0.1\norder 2 merge 0.2\n\
        settle 100\n";

const CROSSED_MERGES_REPORT: &[u8] =
    b"scatter report 1\norder 1 aborted\norder 2 aborted\nring 0 group 0.1 members 1\n\
        ring 2147483648 group 0.2 members 2\nrows 18\nmail 18\ndelivered 16\nskipped 0\n\
        quiet yes\n";

const MERGE_WITH_A_WATCHER: &[u8] =
    b"scatter 1\nnodes 3\ngroup 0 1\ngroup 1073741824 2\ngroup 2147483648 3\norder 1 merge 0.1\n\
        settle 100\n";

const MERGE_WITH_A_WATCHER_REPORT: &[u8] =
    b"scatter report 1\norder 1 committed\nring 0 group 0.1 members 1 2\n\
        ring 2147483648 group 0.3 members 3\nrows 22\nmail 22\ndelivered 21\nskipped 0\n\
        quiet yes\n";

// The eighth tick gives up; the participant's Yes comes after it.
const GIVEN_UP: &[u8] =
    b"scatter 1\nnodes 2\ngroup 0 1\ngroup 2147483648 2\norder 1 merge 0.1\ndeliver n1 1\n\
        deliver n1 1\ndrop n2 1\ntick n1\ntick n1\ntick n1\ntick n1\ntick n1\ntick n1\ntick n1\n\
        tick n1\nsettle 100\n";

const GIVEN_UP_REPORT: &[u8] = b"scatter report 1\norder 1 aborted\nring 0 group 0.1 members 1\n\
        ring 2147483648 group 0.2 members 2\nrows 29\nmail 21\ndelivered 19\nskipped 0\n\
        quiet yes\n";

// The vote commits first, and to give up then does nothing.
const GIVEN_UP_TOO_LATE: &[u8] =
    b"scatter 1\nnodes 2\ngroup 0 1\ngroup 2147483648 2\norder 1 repart 0.1 1677721600\n\
        deliver n1 1\ndeliver n1 1\ndeliver n2 1\ndeliver n2 1\ndeliver n2 1\ntick n1\ntick n1\n\
        tick n1\ntick n1\ntick n1\ntick n1\ntick n1\ndeliver n1 1\ntick n1\nsettle 100\n";

const GIVEN_UP_TOO_LATE_REPORT: &[u8] =
    b"scatter report 1\norder 1 committed\nring 0 group 0.1 members 1\n\
        ring 1677721600 group 0.2 members 2\nrows 41\nmail 33\ndelivered 32\nskipped 0\n\
        quiet yes\n";

// The Yes is on its way to the coordinator's leader, which crashes; another records it.
const LEADER_CRASHES: &[u8] =
    b"scatter 1\nnodes 4\ngroup 0 1 2 3\ngroup 2147483648 4\norder 1 merge 0.1\nsettle 11\n\
        crash 1\ntick n2\nsettle 100\ntick n4\nsettle 100\n";

const LEADER_CRASHES_REPORT: &[u8] =
    b"scatter report 1\norder 1 committed\nring 0 group 0.1 members 1 2 3 4\nrows 32\nmail 35\n\
        delivered 28\nskipped 0\nquiet yes\n";

// Moved there and back, with a key that moves along.
const BOUNDARY_MOVES: &[u8] =
    b"scatter 1\nnodes 2\ngroup 0 1\ngroup 2147483648 2\nclient 1\nput m x\nend\nclient 2\n\
        get m\nend\nclient 3\nget m\nend\ngo 1\nsettle 100\norder 1 repart 0.1 1677721600\n\
        settle 100\ngo 2\nsettle 100\norder 1 repart 0.1 2147483648\nsettle 100\ngo 3\n\
        settle 100\n";

const BOUNDARY_MOVES_REPORT: &[u8] =
    b"scatter report 1\nreply 1 1 put none\nreply 2 1 get value x\nreply 3 1 get value x\n\
        order 1 committed\norder 2 committed\nring 0 group 0.1 members 1\n\
        ring 2147483648 group 0.2 members 2\nrows 41\nmail 38\ndelivered 36\nskipped 0\n\
        quiet yes\n";

const MIGRATED: &[u8] =
    b"scatter 1\nnodes 4\ngroup 0 1 2 3\ngroup 2147483648 4\ncrash 3\norder 1 migrate 0.1 3\n\
        settle 1000\n";

const MIGRATED_REPORT: &[u8] =
    b"scatter report 1\norder 1 committed\nring 0 group 0.1 members 1 2\n\
        ring 2147483648 group 0.2 members 3 4\nrows 19\nmail 24\ndelivered 17\nskipped 0\n\
        quiet yes\n";

// A promised leader parks a request whose key it does not hold yet, until the boundary has moved.
const PARKED: &[u8] = b"scatter 1\nnodes 2\ngroup 0 1\ngroup 2147483648 2\nclient 1\nput m x\nend\n\
        order 1 repart 0.1 1677721600\ndeliver n1 1\ndeliver n1 1\ndeliver n2 1\ndeliver n2 1\n\
        deliver n2 1\ndeliver n1 1\ndeliver n1 1\ngo 1\nsettle 100\n";

const PARKED_REPORT: &[u8] =
    b"scatter report 1\nreply 1 1 put none\norder 1 committed\nring 0 group 0.1 members 1\n\
        ring 1677721600 group 0.2 members 2\nrows 19\nmail 18\ndelivered 17\nskipped 0\n\
        quiet yes\n";

const ORDERS_REFUSED: &[u8] =
    b"scatter 1\nnodes 2\ngroup 0 1\norder 2 join 2 0.1\norder 1 join 1 0.1\n\
        order 1 leave 2 0.1\norder 1 leave 1 0.1\norder 1 split 0.1 5\norder 1 repart 0.1 5\n";

const ORDERS_REFUSED_REPORT: &[u8] =
    b"scatter report 1\norder 1 refused 1 not-leader\norder 2 refused 9 is-member\n\
        order 3 refused 6 not-member\norder 4 refused 7 last-member\n\
        order 5 refused 7 last-member\norder 6 refused 3 no-neighbour\n\
        ring 0 group 0.1 members 1\nrows 6\nmail 6\ndelivered 0\nskipped 0\nquiet yes\n";

// Mail of a merge that has ended comes once more.
const LATE_AND_DOUBLED: &[u8] =
    b"scatter 1\nnodes 2\ngroup 0 1\ngroup 2147483648 2\norder 1 merge 0.1\nsettle 100\n\
        again 3\nagain 6\nagain 10\nsettle 100\n";

const LATE_AND_DOUBLED_REPORT: &[u8] =
    b"scatter report 1\norder 1 committed\nring 0 group 0.1 members 1 2\nrows 20\nmail 14\n\
        delivered 16\nskipped 0\nquiet yes\n";

const ROWS: &[TableRow] = &[
    (REPEAT_AFTER_SPLIT, 0, REPEAT_AFTER_SPLIT_REPORT),
    (SPLIT_AT_ITS_START, 0, SPLIT_AT_ITS_START_REPORT),
    (SPLIT_WITH_A_WATCHER, 0, SPLIT_WITH_A_WATCHER_REPORT),
    (MERGE_ALONE, 0, MERGE_ALONE_REPORT),
    (MERGE_OF_TWO, 0, MERGE_OF_TWO_REPORT),
    (CROSSED_MERGES, 0, CROSSED_MERGES_REPORT),
    (MERGE_WITH_A_WATCHER, 0, MERGE_WITH_A_WATCHER_REPORT),
    (GIVEN_UP, 0, GIVEN_UP_REPORT),
    (GIVEN_UP_TOO_LATE, 0, GIVEN_UP_TOO_LATE_REPORT),
    (LEADER_CRASHES, 6, LEADER_CRASHES_REPORT),
    (BOUNDARY_MOVES, 0, BOUNDARY_MOVES_REPORT),
    (MIGRATED, 0, MIGRATED_REPORT),
    (PARKED, 0, PARKED_REPORT),
    (ORDERS_REFUSED, 0, ORDERS_REFUSED_REPORT),
    (LATE_AND_DOUBLED, 0, LATE_AND_DOUBLED_REPORT),
];

#[test]
fn groups_split_merge_move_a_boundary_and_hand_over_a_member(rt: HostRuntime) {
    check_rows(&rt, rt.alloc(), ROWS);
}

const POLICY_SPLITS: &[u8] =
    b"scatter 1\nnodes 8\ngroup 0 1 2 3 4 5 6 7 8\npolicy\ntick n1\nsettle 100\n";

const POLICY_SPLITS_REPORT: &[u8] = b"scatter report 1\nring 0 group 0.1 members 1 2 3 4\n\
        ring 2147483648 group 1.1 members 5 6 7 8\nrows 24\nmail 23\ndelivered 23\nskipped 0\n\
        quiet yes\n";

const POLICY_MERGES: &[u8] =
    b"scatter 1\nnodes 2\ngroup 0 1\ngroup 2147483648 2\npolicy\ntick n1\nsettle 100\n";

const POLICY_MERGES_REPORT: &[u8] =
    b"scatter report 1\nring 0 group 0.1 members 1 2\nrows 13\nmail 12\ndelivered 12\n\
        skipped 0\nquiet yes\n";

const NO_POLICY: &[u8] =
    b"scatter 1\nnodes 2\ngroup 0 1\ngroup 2147483648 2\ntick n1\nsettle 100\n";

const NO_POLICY_REPORT: &[u8] =
    b"scatter report 1\nring 0 group 0.1 members 1\nring 2147483648 group 0.2 members 2\n\
        rows 1\nmail 0\ndelivered 0\nskipped 0\nquiet yes\n";

const POLICY_ROWS: &[TableRow] = &[
    (POLICY_SPLITS, 0, POLICY_SPLITS_REPORT),
    (POLICY_MERGES, 0, POLICY_MERGES_REPORT),
    (NO_POLICY, 0, NO_POLICY_REPORT),
];

#[test]
fn with_a_policy_leaders_split_and_merge_their_groups(rt: HostRuntime) {
    check_rows(&rt, rt.alloc(), POLICY_ROWS);
}

// Two groups merge and a boundary moves while a client of each of three groups asks, in a line of
// deliveries by several workers.
const MERGED_WHILE_ASKED: &[u8] =
    b"scatter 1\nnodes 3\ngroup 0 1\ngroup 1073741824 2\ngroup 1744830464 3\nclient 1\nput a v\n\
        get a\nend\nclient 2\nput m v\nget m\nend\nclient 3\nput ! v\nget !\nend\ngo 1\ngo 2\n\
        go 3\norder 1 merge 0.1\norder 3 repart 0.3 4026531840\n";

const MERGED_REPLIES: &[u8] =
    b"scatter report 1\nreply 1 1 put none\nreply 1 2 get value v\nreply 2 1 put none\n\
        reply 2 2 get value v\nreply 3 1 put none\nreply 3 2 get value v\norder 1 ";

// What is still asked is asked again.
const ASKED_AGAIN: &[u8] = b"tick c1\ntick c2\nsettle 1000\n";

const BUSY: &[Case] = &[(MERGED_WHILE_ASKED, ASKED_AGAIN, MERGED_REPLIES)];

#[test]
fn replies_stand_while_groups_merge_under_several_workers(rt: HostRuntime) {
    check_same(&rt, rt.alloc(), BUSY);
}
