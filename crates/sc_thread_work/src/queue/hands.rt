//! Threads that work through one queue until it is empty.
ghost use Rattle.std.specs.Prelude.{◌≡◌, ◌<◌, ◌≤◌, ◌-◌, ◌+◌, true, [], List, length, map, All, vec_len, ℕ, IfOk, OnOk, slice_set};
ghost use Rattle.crossbeam_queue.specs.Fifo.{Held};
ghost use Rattle.crossbeam_queue.specs.Passes.{view, IsPassOf, ruled_capacity};
ghost use Rattle.sc_thread_work.specs.queue.Hands.{all_parts, hand, opener, taker, numbered, works, with_put, KnowsWhole, IsWorkedOff};
ghost use Rattle.sc_thread_work.specs.queue.TakenItems.{AllGiven, AllInside, AllFree, AllThere, Did, Gathers, filled};

use crate::queue::rule::{Cut, Hand, Item, OneHolder, Puts, Takes};
use crossbeam_queue::{Pass, RuledArrayQueue};
use std::alloc::{AllocError, Global};
use std::sync::Wait;
use std::thread;
use std::thread::Threads;

/// A queue under the rule `OneHolder`.
pub(crate) type Bench<T> = RuledArrayQueue<Item<T>, Hand<T>, OneHolder<T>>;

/// A pass to the queue. It has no bytes at run time; contracts read off it what was put and taken
/// by it.
pub type Holder<T> = Pass<Item<T>, Hand<T>>;

// Puts one more element. There is room, since the queue holds at most what this pass has put.
fn put<T: Drop, R: Wait>(rt: &R, bench: &Bench<T>, pass: &mut Holder<T>, work: T, place: usize)
    requires pass { IsPassOf bench.now pass.old }
    requires puts { (view pass.old).puts ≡ true }
    requires next { place ≡ length (view pass.old).put }
    requires room { place < ruled_capacity bench.now }
    ensures pass { IsPassOf bench.now pass.new }
    ensures put { view pass.new
        ≡ with_put (view pass.old) (record { place = place; work = work }) }
{
    match bench.push_as::<Puts<T>, R>(rt, pass, Item { place, work }) {
        Ok(()) => {}
        Err(_) => unreachable!(),
    }
}

// Puts all elements, each with its place.
fn put_all<T: Drop, R: Wait>(rt: &R, bench: &Bench<T>, pass: &mut Holder<T>, all: Vec<T>)
    requires pass { IsPassOf bench.now pass.old }
    requires fresh { view pass.old ≡ opener }
    requires room { vec_len all ≤ ruled_capacity bench.now }
    ensures pass { IsPassOf bench.now pass.new }
    ensures put { view pass.new ≡ hand all_parts true (numbered 0 all.items) [] 0 }
{
    let mut place = 0;
    for work in all {
        put(rt, bench, pass, work, place);
        place += 1;
    }
}

// Splits off `many` passes that take.
fn cut<T: Drop>(
    alloc: Global,
    bench: &Bench<T>,
    pass: &mut Holder<T>,
    many: usize,
) -> Result<Vec<Holder<T>>, AllocError>
    requires pass { IsPassOf bench.now pass.old }
    requires parts { ((view pass.old).parts ≡ all_parts) × (many < all_parts) }
    ensures pass { IsPassOf bench.now pass.new }
    ensures left { IfOk result (λ v. view pass.new
        ≡ hand (all_parts - many) (view pass.old).puts (view pass.old).put (view pass.old).taken
        (view pass.old).passes) }
    ensures each { IfOk result (λ v. (vec_len v ≡ many)
        × All (λ p. IsPassOf bench.now p × (view p ≡ taker)) v.items) }
{
    let mut passes = Vec::new(alloc);
    for _ in 0..many {
        passes.push(bench.another::<Cut<T>>(pass))?;
    }
    Ok(passes)
}

/// What one thread has done: its pass, its results with their places, and whether it ended because
/// the queue was empty.
#[derive(Drop)]
pub(crate) struct Done<T, X> {
    pub pass: Holder<T>,
    pub kept: Vec<Item<X>>,
    pub whole: bool,
}

// Takes items and works them until the queue is empty, or there is no memory to keep another
// result. The memory is reserved before an item is taken, so no item is lost.
fn work<T: Drop, X: Drop, F: Fn(T) -> X, R: Wait>(
    rt: &R,
    alloc: Global,
    bench: &Bench<T>,
    f: &F,
    mut pass: Holder<T>,
) -> Done<T, X>
    requires calls { F.IsAlwaysCallable f.now }
    requires pass { IsPassOf bench.now pass }
    requires part { 0 < (view pass).parts }
    ensures pass { IsPassOf bench.now result.pass }
    ensures did { Did F.Fn f.now (view pass) (view result.pass) result.kept.items }
    ensures whole { result.whole ≡ true → Held 0 (KnowsWhole (view result.pass)) }
{
    let mut kept = Vec::new(alloc);
    for _ in rt.forever() {
        if kept.reserve(1).is_err() {
            return Done {
                pass,
                kept,
                whole: false,
            };
        }
        match bench.pop_as::<Takes<T>, R>(rt, &mut pass) {
            Some(item) => {
                let Item { place, work: taken } = item;
                kept.push_reserved(Item {
                    place,
                    work: f(taken),
                });
            }
            None => return Done {
                pass,
                kept,
                whole: true,
            },
        }
    }
    unreachable!()
}

// Writes one result at its place.
fn keep<X: Drop>(slots: &mut Vec<Option<X>>, place: usize, work: X)
    requires { place < vec_len slots.old }
    ensures { slots.new.items ≡ slice_set slots.old.items place (Some work) }
{
    slots[place] = Some(work);
}

// Writes each result at its place.
fn fill<X: Drop>(slots: &mut Vec<Option<X>>, kept: Vec<Item<X>>)
    requires { AllInside (vec_len slots.old) kept.items }
    ensures { slots.new.items ≡ filled slots.old.items kept.items }
{
    for item in kept {
        let Item { place, work } = item;
        keep(slots, place, work);
    }
}

// Returns `many` empty slots.
fn vacant<X: Drop>(alloc: Global, many: usize) -> Result<Vec<Option<X>>, AllocError>
    ensures len { IfOk result (λ v. vec_len v ≡ many) }
    ensures free { IfOk result (λ v. AllFree v.items) }
{
    let mut slots = Vec::new(alloc);
    for _ in 0..many {
        slots.push(None)?;
    }
    Ok(slots)
}

// Returns the contents of the slots, in order.
fn unwrapped<X: Drop>(alloc: Global, slots: Vec<Option<X>>) -> Result<Vec<X>, AllocError>
    requires { AllThere slots.items }
    ensures { IfOk result (λ v. map (λ x. Some x) v.items ≡ slots.items) }
{
    let mut all = Vec::new(alloc);
    for slot in slots {
        match slot {
            Some(one) => all.push(one)?,
            None => unreachable!(),
        }
    }
    Ok(all)
}

// Works with each of these passes, one in the caller's thread and each other one in a thread of its
// own, where one can be started.
fn by_threads<T: Send + Drop, X: Send + Drop, F: Fn(T) -> X + Sync, R: Threads + Wait + Sync>(
    rt: &R,
    alloc: Global,
    bench: &Bench<T>,
    f: &F,
    passes: Vec<Holder<T>>,
) -> Result<Vec<Done<T, X>>, AllocError>
    requires calls { F.IsAlwaysCallable f.now }
    requires passes { All (λ p. IsPassOf bench.now p × (view p ≡ taker)) passes.items }
    ensures len { IfOk result (λ v. vec_len v ≡ vec_len passes) }
    ensures each { IfOk result (λ v. All (λ d. IsPassOf bench.now d.pass
        × Did F.Fn f.now taker (view d.pass) d.kept.items) v.items) }
{
    thread::map_vec(rt, passes, &|pass| work(rt, alloc, bench, f, pass))
}

// Takes in the pass and the results of one thread.
fn gather_one<T: Drop, X: Drop, F: Fn(T) -> X>(
    bench: &Bench<T>,
    f: &F,
    pass: &mut Holder<T>,
    kept: &mut Vec<Item<X>>,
    done: Done<T, X>,
) -> Result<(), AllocError>
    requires pass { IsPassOf bench.now pass.old }
    requires part { 0 < (view pass.old).parts }
    requires done { IsPassOf bench.now done.pass
        × Did F.Fn f.now taker (view done.pass) done.kept.items }
    ensures pass { IsPassOf bench.now pass.new }
    ensures more { OnOk result ((parts passes : ℕ) (put : List (Item T)) →
        Gathers F.Fn f.now parts passes put (view pass.old) kept.old.items →
        Gathers F.Fn f.now (parts + 1) (passes + 1) put (view pass.new) kept.new.items) }
{
    let Done {
        pass: other,
        kept: mut theirs,
        whole: _,
    } = done;
    bench.absorb::<Cut<T>>(pass, other);
    kept.append(&mut theirs)?;
    Ok(())
}

// Takes in the passes and the results of all threads.
fn gather<T: Drop, X: Drop, F: Fn(T) -> X>(
    bench: &Bench<T>,
    f: &F,
    pass: &mut Holder<T>,
    kept: &mut Vec<Item<X>>,
    all: Vec<Done<T, X>>,
) -> Result<(), AllocError>
    requires pass { IsPassOf bench.now pass.old }
    requires part { 0 < (view pass.old).parts }
    requires done { All (λ d. IsPassOf bench.now d.pass
        × Did F.Fn f.now taker (view d.pass) d.kept.items) all.items }
    requires before { (parts : ℕ) × (passes : ℕ) × (put : List (Item T))
        × Gathers F.Fn f.now parts passes put (view pass.old) kept.old.items }
    ensures pass { IsPassOf bench.now pass.new }
    ensures more { OnOk result ((parts passes : ℕ) (put : List (Item T)) →
        Gathers F.Fn f.now parts passes put (view pass.old) kept.old.items →
        Gathers F.Fn f.now (parts + vec_len all) (passes + vec_len all) put (view pass.new)
        kept.new.items) }
{
    for done in all {
        gather_one(bench, f, pass, kept, done)?;
    }
    Ok(())
}

/// What the calls returned, in the order of the elements, and the pass that put them into the queue
/// and has taken in all passes that took.
#[derive(Drop)]
pub struct WorkedOff<T, X> {
    /// What the calls returned, in the order of the elements.
    pub given: Vec<X>,
    /// The pass that put the elements and has taken in the others.
    pub holder: Holder<T>,
}

// Works what is left in the queue, with the pass that has all parts again, and puts the results
// into order.
fn finish<T: Drop, X: Drop, F: Fn(T) -> X, R: Wait>(
    rt: &R,
    alloc: Global,
    bench: &Bench<T>,
    f: &F,
    pass: Holder<T>,
    mut kept: Vec<Item<X>>,
    many: usize,
) -> Result<WorkedOff<T, X>, AllocError>
    requires calls { F.IsAlwaysCallable f.now }
    requires pass { IsPassOf bench.now pass }
    requires many { many ≡ length (works (view pass).put) }
    requires gathered { Gathers F.Fn f.now all_parts (view pass).passes
        (numbered 0 (works (view pass).put)) (view pass) kept.items }
    ensures len { IfOk result (λ o. vec_len o.given ≡ length (works (view pass).put)) }
    ensures each { IfOk result (λ o. AllGiven F.Fn f.now (works (view pass).put) o.given.items) }
    ensures once { IfOk result (λ o. IsWorkedOff (works (view pass).put) (view o.holder)) }
    ensures passes { IfOk result (λ o. (view o.holder).passes ≡ (view pass).passes) }
{
    let mut slots = vacant(alloc, many)?;
    let last = work(rt, alloc, bench, f, pass);
    if !last.whole {
        return Err(AllocError);
    }
    let Done {
        pass: holder,
        kept: mut rest,
        whole: _,
    } = last;
    kept.append(&mut rest)?;
    fill(&mut slots, kept);
    let given = unwrapped(alloc, slots)?;
    Ok(WorkedOff { given, holder })
}

/// Returns what calls of `f` return with the elements of `all`, in their order. Each element is put
/// once into one queue, from which `threads` threads take, the caller's among them; then the caller
/// works what is left. The pass that is returned shows that each element was put once, at its
/// place, and taken once, and, where there is an element, that `threads` passes took from the
/// queue beside it.
///
/// Where no thread can be started, the calls run one after another. `Err(AllocError)`: there was no
/// memory for the queue, its passes or the results, and elements that were not worked yet are
/// dropped.
pub fn work_off<T: Send + Drop, X: Send + Drop, F: Fn(T) -> X + Sync, R: Threads + Wait + Sync>(
    rt: &R,
    alloc: Global,
    all: Vec<T>,
    threads: usize,
    f: &F,
) -> Result<WorkedOff<T, X>, AllocError>
    requires calls { F.IsAlwaysCallable f.now }
    requires threads { threads < all_parts }
    ensures len { IfOk result (λ o. vec_len o.given ≡ vec_len all) }
    ensures each { IfOk result (λ o. AllGiven F.Fn f.now all.items o.given.items) }
    ensures once { IfOk result (λ o. IsWorkedOff all.items (view o.holder)) }
    ensures passes { IfOk result
        (λ o. 0 < length all.items → (view o.holder).passes ≡ threads) }
{
    let many = all.len();
    let (bench, mut pass) = Bench::ruled(alloc, many.max(1))?;
    put_all(rt, &bench, &mut pass, all);
    if many == 0 {
        return Ok(WorkedOff {
            given: Vec::new(alloc),
            holder: pass,
        });
    }
    let mut kept = Vec::new(alloc);
    let passes = cut(alloc, &bench, &mut pass, threads)?;
    let done = by_threads(rt, alloc, &bench, f, passes)?;
    gather(&bench, f, &mut pass, &mut kept, done)?;
    let off = finish(rt, alloc, &bench, f, pass, kept, many)?;
    Ok(off)
}
