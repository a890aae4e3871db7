use crate::groups::numbered;
use sc_base::{Members, RingArc};
use sc_client_table::Routes;
use sc_words::{Link, Route};
use std::alloc::Global;
use std::mem::forget;
use std::process::Abort;

/// Returns the route to a group with two members whose arc starts at `lo`.
fn route(count: u32, lo: u32, least: u16, other: u16) -> Route {
    let mut members = Members::one(least);
    let _ = members.add(other);
    Route {
        group: numbered(count),
        lo,
        members,
    }
}

/// Notes that a group has the arc of this length from `lo` on, and which group is next.
fn hear(rt: &impl Abort, routes: &mut Routes, count: u32, (lo, length): (u32, u64), next: Route) {
    let arc = RingArc::try_new(lo, length).expect(rt, "an arc");
    let link = Link {
        group: next.group,
        members: next.members,
    };
    routes
        .not_mine(numbered(count), &arc, &link)
        .expect(rt, "memory");
}

/// Returns routes to group 1 from 0 on, group 2 from 2^30 on and group 3 from 2^31 on.
fn three(rt: &impl Abort, alloc: Global) -> Routes {
    let mut routes = Routes::start(alloc, route(1, 0, 1, 2)).expect(rt, "memory");
    hear(rt, &mut routes, 1, (0, 1 << 30), route(2, 1 << 30, 4, 5));
    hear(
        rt,
        &mut routes,
        2,
        (1 << 30, 1 << 30),
        route(3, 1 << 31, 7, 8),
    );
    routes
}

/// Returns whether these groups are chosen for these positions.
fn chooses(routes: &Routes, rows: &[(u32, u32)]) -> bool {
    for (p, count) in rows {
        if routes.choose(*p) != numbered(*count) {
            return false;
        }
    }
    true
}

// Routes are not dropped: the process ends soon.

#[test]
fn the_nearest_start_at_or_before_is_chosen(rt: HostRuntime) {
    let mut routes = three(&rt, rt.alloc());
    let last = (1 << 30) - 1;
    let rows = [(0, 1), (last, 1), (1 << 30, 2), (1 << 31, 3)];
    let chooses_first = chooses(&routes, &rows);
    hear(&rt, &mut routes, 1, (100, 1 << 30), route(2, 1 << 30, 4, 5));
    let chooses_then = chooses(&routes, &[(99, 3), (100, 1)]);
    forget(routes);
    assert!(rt; chooses_first && chooses_then);
}

#[test]
fn among_equals_the_last_is_chosen(rt: HostRuntime) {
    let mut routes = Routes::start(rt.alloc(), route(1, 7, 1, 2)).expect(&rt, "memory");
    hear(&rt, &mut routes, 1, (7, 1 << 32), route(2, 7, 4, 5));
    let chooses = chooses(&routes, &[(8, 2)]);
    forget(routes);
    assert!(rt; chooses);
}

/// Shows that the members of group 2 are asked in turn. Group 9 is not known.
#[test]
fn nodes_are_asked_one_after_another(rt: HostRuntime) {
    let mut routes = three(&rt, rt.alloc());
    let two = numbered(2);
    let first = [routes.after(two), routes.target(two)];
    let prefers = routes.prefer(two, 6);
    let then = [routes.after(two), routes.after(numbered(9))];
    let prefers_unknown = routes.prefer(numbered(9), 1);
    forget(routes);
    assert!(rt; first == [Some(5), Some(5)] && prefers);
    assert!(rt; then == [Some(4), None] && !prefers_unknown);
}

/// Shows that group 2 is forgotten once it was taken over by group 4.
#[test]
fn a_group_that_is_gone_is_forgotten(rt: HostRuntime) {
    let mut routes = three(&rt, rt.alloc());
    let into = route(4, 5, 11, 12);
    routes.gone(numbered(2), &into).expect(&rt, "memory");
    let targets = [routes.target(numbered(2)), routes.target(numbered(4))];
    let chooses = chooses(&routes, &[(1 << 30, 4)]);
    forget(routes);
    assert!(rt; targets == [None, Some(11)] && chooses);
}
