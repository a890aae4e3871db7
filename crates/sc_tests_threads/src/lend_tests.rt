//! Work that is lent to threads which stay alive.
ghost use Rattle.std.specs.Prelude.{◌≡◌, ◌/◌, All};
ghost use Rattle.std.specs.Thread.{IsSync};
ghost use Rattle.sc_thread_work.specs.lend.Offices.{IsHelperOf, IsLenderOf};

use crate::watches::{pause, watch};
use sc_thread_work::{Helper, Labour, Lender, Office, help_all, open};
use std::alloc::Global;
use std::mem;
use std::process::Abort;
use std::sync::Wait;
use std::sync::atomic::{AtomicU64, Ordering};
use std::thread::{Threads, join, join_mut};
use std::time::Clock;

// A number that has to be halved.
#[derive(Drop)]
struct Half {
    number: u32,
}

impl Labour for Half {
    ghost use Rattle.std.specs.Prelude.{◌≡◌, ◌/◌};

    ghost leaves = { λ x y. y.number ≡ x.number / 2 };
}

fn halved(half: Half) -> Half
    ensures { result.number ≡ half.number / 2 }
{
    let Half { number } = half;
    Half { number: number / 2 }
}

fn help<R: Threads + Wait + Sync>(rt: &R, office: &Office<Half>, helpers: Vec<Helper<Half>>)
    requires { All (λ p. IsHelperOf office.now p) helpers.items }
{
    let _ = help_all(
        rt,
        office,
        &|half: Half| -> Half
            ensures { result.number ≡ half.number / 2 }
        { halved(half) },
        helpers,
    );
}

fn collect<R: Wait>(rt: &R, office: &Office<Half>, lender: &mut Lender<Half>, number: u64) -> u32
    requires { IsLenderOf office.now lender.old }
    ensures { IsLenderOf office.now lender.new }
{
    let half = office.collect(
        rt,
        &|half: Half| -> Half
            ensures { result.number ≡ half.number / 2 }
        { halved(half) },
        lender,
        number,
    );
    half.number
}

// Lends three numbers, collects them from the last to the first, and returns what came back, zeros
// where one was not lent.
fn lend_three<R: Wait>(rt: &R, office: &Office<Half>, lender: &mut Lender<Half>) -> [u32; 3]
    requires { IsLenderOf office.now lender.old }
{
    let first = office.lend(rt, lender, Half { number: 10 });
    let second = office.lend(rt, lender, Half { number: 20 });
    let third = office.lend(rt, lender, Half { number: 30 });
    let (Ok(first), Ok(second), Ok(third)) = (first, second, third) else {
        return [0, 0, 0];
    };
    let third = collect(rt, office, lender, third);
    let second = collect(rt, office, lender, second);
    let first = collect(rt, office, lender, first);
    let _ = office.close(rt);
    [first, second, third]
}

// Lends and helps at the same time.
fn at_once<R: Threads + Wait + Sync>(
    rt: &R,
    alloc: Global,
    office: &Office<Half>,
    lender: &mut Lender<Half>,
    helpers: &mut Vec<Helper<Half>>,
) -> [u32; 3]
    requires lender { IsLenderOf office.now lender.old }
    requires helpers { All (λ p. IsHelperOf office.now p) helpers.old.items }
{
    let mut lending = || -> [u32; 3]
        requires { IsSync R.row × IsLenderOf office.now lender.now }
    { lend_three(rt, office, lender) };
    let mut helping = ||
        requires { IsSync R.row × All (λ p. IsHelperOf office.now p) helpers.now.items }
    { help(rt, office, mem::replace(helpers, Vec::new(alloc))) };
    let (_, numbers) = join_mut(rt, &mut helping, &mut lending);
    numbers
}

// Returns what comes back of three numbers with this number of helpers.
fn three<R: Threads + Wait + Abort + Sync>(rt: &R, alloc: Global, hands: usize) -> [u32; 3] {
    let (office, mut lender, mut helpers) = open::<Half>(alloc, 3, hands).expect(rt, "memory");
    at_once(rt, alloc, &office, &mut lender, &mut helpers)
}

#[test]
fn what_is_lent_comes_back_worked(rt: HostRuntime) {
    for hands in [0, 1, 2, 3] {
        assert!(rt; three(&rt, rt.alloc(), hands) == [5, 10, 15]);
    }
}

// Helps, and counts the loans that it works.
fn help_counting<R: Threads + Wait + Sync>(
    rt: &R,
    office: &Office<Half>,
    helpers: Vec<Helper<Half>>,
    helped: &AtomicU64,
)
    requires { All (λ p. IsHelperOf office.now p) helpers.items }
{
    let _ = help_all(
        rt,
        office,
        &|half: Half| -> Half
            ensures { result.number ≡ half.number / 2 }
        {
            helped.fetch_add(1, Ordering::SeqCst);
            halved(half)
        },
        helpers,
    );
}

// Lends to a helper that sleeps by then, waits until it has helped, and closes the office when it
// sleeps again.
fn lend_to_a_sleeper<R: Wait + Abort + Clock>(
    rt: &R,
    office: &Office<Half>,
    lender: &mut Lender<Half>,
    helped: &AtomicU64,
)
    requires { IsLenderOf office.now lender.old }
{
    pause(rt);
    let _ = office.lend(rt, lender, Half { number: 10 });
    watch(
        rt,
        helped,
        "the one that helps was not woken by what was lent",
    );
    pause(rt);
    let _ = office.close(rt);
}

fn helped_and_lent<R: Threads + Wait + Abort + Clock + Sync>(
    rt: &R,
    office: &Office<Half>,
    lender: &mut Lender<Half>,
    helpers: Vec<Helper<Half>>,
    helped: &AtomicU64,
)
    requires lender { IsLenderOf office.now lender.old }
    requires helpers { All (λ p. IsHelperOf office.now p) helpers.items }
{
    join(
        rt,
        ||
            requires { All (λ p. IsHelperOf office.now p) helpers.items }
        { help_counting(rt, office, helpers, helped) },
        || lend_to_a_sleeper(rt, office, lender, helped),
    );
}

fn by_a_sleeper<R: Threads + Wait + Abort + Clock + Sync>(
    rt: &R,
    office: &Office<Half>,
    lender: &mut Lender<Half>,
    helpers: Vec<Helper<Half>>,
)
    requires lender { IsLenderOf office.now lender.old }
    requires helpers { All (λ p. IsHelperOf office.now p) helpers.items }
{
    let helped = AtomicU64::new(0);
    let ended = AtomicU64::new(0);
    join(
        rt,
        || watch(rt, &ended, "the one that helps was not woken by the end"),
        ||
            requires { (IsLenderOf office.now lender.now) × All (λ p. IsHelperOf office.now p) helpers.items }
        {
            helped_and_lent(rt, office, lender, helpers, &helped);
            ended.store(1, Ordering::SeqCst);
        },
    );
}

#[test]
fn one_that_sleeps_is_woken_by_a_loan_and_by_the_end(rt: HostRuntime) {
    let (office, mut lender, helpers) = open::<Half>(rt.alloc(), 3, 1).expect(&rt, "memory");
    by_a_sleeper(&rt, &office, &mut lender, helpers);
}
