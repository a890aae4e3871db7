//! Lending, helping and taking back.
ghost use Rattle.std.specs.Prelude.{◌≡◌, ◌<◌, ◌+◌, ◌++◌, [], ◌∷◌, All, true, length, vec_len, IfOk, IfErr, IfSome, MatchOption};
ghost use Rattle.std.specs.Fn.{FnReturns};
ghost use Rattle.crossbeam_queue.specs.Passes.{view, IsPassOf};
ghost use Rattle.sc_thread_work.specs.lend.Lending.{MayGiveBack, Finished, IsLeft, with_back};
ghost use Rattle.sc_thread_work.specs.lend.Offices.{IsLenderOf, IsHelperOf, IsClosed, IsFull, collected_by, lent_by, room_of};

use crate::lend::lender::Lender;
use crate::lend::rule::{Clerk, GivesBack, Hire, Labour, Lending, Lends, Loan, Takes};
use crossbeam_queue::{Pass, RuledArrayQueue};
use std::alloc::{AllocError, Global};
use std::sync::atomic::{AtomicU64, Ordering};
use std::sync::{OnceLock, OnceToken, Wait};
use std::thread;
use std::thread::Threads;

/// The number of looks of a helper before it sleeps: more than there are loans at one time, so that
/// it comes to each loan that nobody has begun.
const LOOKS_TO_HELP: u32 = 32;

/// The number of looks of the lender before it sleeps.
const LOOKS_TO_COLLECT: u32 = 1_000;

/// A queue of loans under the rule `Lending`.
pub type Bench<T> = RuledArrayQueue<Loan<T>, Clerk<T>, Lending<T>>;

/// A pass of a helper.
pub type Helper<T> = Pass<Loan<T>, Clerk<T>>;

/// The proof that an office is closed. It has no bytes at run time.
pub type Closed<'a> = OnceToken<'a, ()>;

// Returns the loan with its work worked by `f`, or unchanged where it was worked before.
fn finished<T: Labour, F: Fn(T) -> T>(f: &F, loan: Loan<T>) -> Loan<T>
    requires calls { F.IsAlwaysCallable f.now }
    requires leaves { (x y : T) → FnReturns F.Fn f.now (x, tt) y → T.leaves x y }
    ensures { Finished T.leaves loan result }
{
    if loan.done {
        return loan;
    }
    let Loan {
        number,
        done: _,
        work,
    } = loan;
    Loan {
        number,
        done: true,
        work: f(work),
    }
}

// Gives a loan back to the queue. The queue has room for all that is lent at one time; where it is
// full all the same, this waits.
fn give_back<T: Labour, R: Wait>(
    rt: &R,
    bench: &Bench<T>,
    pass: &mut Pass<Loan<T>, Clerk<T>>,
    loan: Loan<T>,
)
    requires pass { IsPassOf bench.now pass.old }
    requires may { MayGiveBack T.leaves (view pass.old) loan }
    requires out { 0 < (view pass.old).out }
    ensures pass { IsPassOf bench.now pass.new }
    ensures back { view pass.new ≡ with_back (view pass.old) }
{
    let mut next = loan;
    for _ in rt.forever() {
        match bench.push_as::<GivesBack<T>, R>(rt, pass, next) {
            Ok(()) => return,
            Err(again) => {
                next = again;
                thread::yield_now();
            }
        }
    }
    unreachable!()
}

// Returns the low 32 bits of a count, on which a sleep waits.
fn low(count: u64) -> u32 {
    (count % (1 << 32)) as u32
}

/// A place where work is lent: the queue, a flag that is set once when the office is closed, and
/// two counters on which threads sleep. One counts what is lent and the close, the other what is
/// given back. No contract speaks of these counters or of the counts of sleepers: they only save
/// looks.
#[derive(Drop)]
pub struct Office<T: Labour> {
    pub(crate) bench: Bench<T>,
    bell: AtomicU64,
    asleep: AtomicU64,
    pub(crate) closed: OnceLock<()>,
    returns: AtomicU64,
    awaited: AtomicU64,
}

impl<T: Labour> Office<T> {
    // Takes the first loan in the queue, works it where nobody has, and gives it back. Returns
    // whether it was worked here, or `None` where the queue was empty.
    fn help_once<F: Fn(T) -> T, R: Wait>(
        &self,
        rt: &R,
        f: &F,
        helper: &mut Helper<T>,
    ) -> Option<bool>
        requires calls { F.IsAlwaysCallable f.now }
        requires leaves { (x y : T) → FnReturns F.Fn f.now (x, tt) y → T.leaves x y }
        requires pass { IsHelperOf self.now helper.old }
        ensures pass { IsHelperOf self.now helper.new }
    {
        let Some(loan) = self.bench.pop_as::<Takes<T>, R>(rt, helper) else {
            return None;
        };
        let fresh = !loan.done;
        let left = finished(f, loan);
        give_back(rt, &self.bench, helper, left);
        self.returns.fetch_add(1, Ordering::SeqCst);
        if self.awaited.load(Ordering::SeqCst) != 0 {
            self.returns.wake_all();
        }
        Some(fresh)
    }

    // Looks for a loan that nobody has worked, and works it. Returns whether it found one.
    fn help_some<F: Fn(T) -> T, R: Wait>(&self, rt: &R, f: &F, helper: &mut Helper<T>) -> bool
        requires calls { F.IsAlwaysCallable f.now }
        requires leaves { (x y : T) → FnReturns F.Fn f.now (x, tt) y → T.leaves x y }
        requires pass { IsHelperOf self.now helper.old }
        ensures pass { IsHelperOf self.now helper.new }
    {
        for _ in 0..LOOKS_TO_HELP {
            match self.help_once(rt, f, helper) {
                Some(true) => return true,
                Some(false) => {}
                None => return false,
            }
        }
        false
    }

    // Helps until the office is closed, and sleeps where there is nothing to work.
    fn help<F: Fn(T) -> T, R: Wait>(&self, rt: &R, f: &F, mut helper: Helper<T>) -> Closed<'_>
        requires calls { F.IsAlwaysCallable f.now }
        requires leaves { (x y : T) → FnReturns F.Fn f.now (x, tt) y → T.leaves x y }
        requires pass { IsHelperOf self.now helper }
        ensures closed { IsClosed self.now result.of }
    {
        for _ in rt.forever() {
            let rung = self.bell.load(Ordering::SeqCst);
            if let Some(closed) = self.closed.witness() {
                return closed;
            }
            if !self.help_some(rt, f, &mut helper) {
                self.asleep.fetch_add(1, Ordering::SeqCst);
                self.bell.park(rt, low(rung));
                self.asleep.fetch_sub(1, Ordering::SeqCst);
            }
        }
        unreachable!()
    }

    /// Closes the office for good, wakes the helpers so that they can end, and returns the proof
    /// that it is closed.
    pub fn close<R: Wait>(&self, rt: &R) -> Closed<'_>
        ensures closed { IsClosed self.now result.of }
    {
        let closed = self.closed.init(rt, || ());
        self.bell.fetch_add(1, Ordering::SeqCst);
        self.bell.wake_all();
        closed
    }

    /// Lends a piece of work, and returns its number, counted from 0 among all that this lender has
    /// lent. `Err`: the work is handed back and nothing is lent; this comes only where as many
    /// loans are out as there is room for, or no number is left.
    pub fn lend<R: Wait>(&self, rt: &R, lender: &mut Lender<T>, work: T) -> Result<u64, T>
        requires pass { IsLenderOf self.now lender.old }
        ensures pass { IsLenderOf self.now lender.new }
        ensures ok { IfOk result (λ number. (number ≡ length (lent_by lender.old))
            × (lent_by lender.new ≡ lent_by lender.old ++ work ∷ [])) }
        ensures err { IfErr result (λ back. (back ≡ work) × (lent_by lender.new ≡ lent_by lender.old)) }
        ensures collected { collected_by lender.new ≡ collected_by lender.old }
        ensures full { IfErr result (λ _. IsFull self.now lender.old) }
    {
        let number = lender.next;
        if number == u64::MAX {
            return Err(work);
        }
        let loan = Loan {
            number,
            done: false,
            work,
        };
        match self
            .bench
            .push_as::<Lends<T>, R>(rt, &mut lender.pass, loan)
        {
            Ok(()) => {
                lender.next = number + 1;
                self.ring();
                Ok(number)
            }
            Err(back) => {
                let Loan {
                    number: _,
                    done: _,
                    work,
                } = back;
                Err(work)
            }
        }
    }

    // Counts a new loan, and wakes one helper, if any sleeps.
    fn ring(&self) {
        self.bell.fetch_add(1, Ordering::SeqCst);
        if self.asleep.load(Ordering::SeqCst) != 0 {
            self.bell.wake_one();
        }
    }

    // Takes one loan and returns it if it has the number `wanted`. Where nobody has worked it, it
    // is worked here first; a loan of another number is given back.
    fn look<F: Fn(T) -> T, R: Wait>(
        &self,
        rt: &R,
        f: &F,
        lender: &mut Lender<T>,
        wanted: u64,
    ) -> Option<T>
        requires calls { F.IsAlwaysCallable f.now }
        requires leaves { (x y : T) → FnReturns F.Fn f.now (x, tt) y → T.leaves x y }
        requires pass { IsLenderOf self.now lender.old }
        ensures pass { IsLenderOf self.now lender.new }
        ensures same { lent_by lender.new ≡ lent_by lender.old }
        ensures collected { MatchOption result (collected_by lender.new ≡ collected_by lender.old)
            (λ _. collected_by lender.new ≡ collected_by lender.old + 1) }
        ensures left { IfSome result
            (λ left. IsLeft T.leaves (lent_by lender.old) wanted left) }
    {
        let Some(loan) = self.bench.pop_as::<Takes<T>, R>(rt, &mut lender.pass) else {
            return None;
        };
        let left = finished(f, loan);
        if left.number != wanted {
            give_back(rt, &self.bench, &mut lender.pass, left);
            return None;
        }
        let Loan {
            number: _,
            done: _,
            work,
        } = left;
        Some(work)
    }

    // Looks several times for what is left of the loan `wanted`.
    fn looks<F: Fn(T) -> T, R: Wait>(
        &self,
        rt: &R,
        f: &F,
        lender: &mut Lender<T>,
        wanted: u64,
    ) -> Option<T>
        requires calls { F.IsAlwaysCallable f.now }
        requires leaves { (x y : T) → FnReturns F.Fn f.now (x, tt) y → T.leaves x y }
        requires pass { IsLenderOf self.now lender.old }
        ensures pass { IsLenderOf self.now lender.new }
        ensures same { lent_by lender.new ≡ lent_by lender.old }
        ensures collected { MatchOption result (collected_by lender.new ≡ collected_by lender.old)
            (λ _. collected_by lender.new ≡ collected_by lender.old + 1) }
        ensures left { IfSome result
            (λ left. IsLeft T.leaves (lent_by lender.old) wanted left) }
    {
        for _ in 0..LOOKS_TO_COLLECT {
            if let Some(work) = self.look(rt, f, lender, wanted) {
                return Some(work);
            }
        }
        None
    }

    /// Takes back what is left of the work that was lent under the number `wanted`, and works it
    /// here where nobody has begun it. It may block for ever: no clause says that the loan comes
    /// back.
    pub fn collect<F: Fn(T) -> T, R: Wait>(
        &self,
        rt: &R,
        f: &F,
        lender: &mut Lender<T>,
        wanted: u64,
    ) -> T
        requires calls { F.IsAlwaysCallable f.now }
        requires leaves { (x y : T) → FnReturns F.Fn f.now (x, tt) y → T.leaves x y }
        requires pass { IsLenderOf self.now lender.old }
        ensures pass { IsLenderOf self.now lender.new }
        ensures same { lent_by lender.new ≡ lent_by lender.old }
        ensures collected { collected_by lender.new ≡ collected_by lender.old + 1 }
        ensures left { IsLeft T.leaves (lent_by lender.old) wanted result }
    {
        for _ in rt.forever() {
            let seen = self.returns.load(Ordering::SeqCst);
            if let Some(work) = self.looks(rt, f, lender, wanted) {
                return work;
            }
            self.awaited.store(1, Ordering::SeqCst);
            self.returns.park(rt, low(seen));
            self.awaited.store(0, Ordering::SeqCst);
        }
        unreachable!()
    }
}

/// Runs the helpers until the office is closed, each in a thread of its own where one can be
/// started. Returns for each the proof that the office is closed. `Err(AllocError)`: there was no
/// memory, and there may be no helper.
pub fn help_all<'a, T: Labour + Send, F: Fn(T) -> T + Sync, R: Threads + Wait + Sync>(
    rt: &R,
    office: &'a Office<T>,
    f: &F,
    helpers: Vec<Helper<T>>,
) -> Result<Vec<Closed<'a>>, AllocError>
    requires calls { F.IsAlwaysCallable f.now }
    requires leaves { (x y : T) → FnReturns F.Fn f.now (x, tt) y → T.leaves x y }
    requires passes { All (λ p. IsHelperOf office.now p) helpers.items }
    ensures len { IfOk result (λ v. vec_len v ≡ vec_len helpers) }
    ensures closed { IfOk result (λ v. All (λ c. IsClosed office.now c.of) v.items) }
{
    thread::map_vec(rt, helpers, &|helper| office.help(rt, f, helper))
}

// Splits off `many` passes for helpers.
fn hired<T: Labour>(
    alloc: Global,
    bench: &Bench<T>,
    pass: &mut Pass<Loan<T>, Clerk<T>>,
    many: usize,
) -> Result<Vec<Helper<T>>, AllocError>
    requires pass { IsPassOf bench.now pass.old }
    ensures pass { IsPassOf bench.now pass.new }
    ensures same { view pass.new ≡ view pass.old }
    ensures each { IfOk result (λ v. (vec_len v ≡ many) × All (λ p. IsPassOf bench.now p) v.items) }
{
    let mut passes = Vec::new(alloc);
    for _ in 0..many {
        passes.push(bench.another::<Hire<T>>(pass))?;
    }
    Ok(passes)
}

/// Returns a new office with room for `room` loans at one time, its lender, and the passes of
/// `helpers` helpers.
pub fn open<T: Labour>(
    alloc: Global,
    room: usize,
    helpers: usize,
) -> Result<(Office<T>, Lender<T>, Vec<Helper<T>>), AllocError>
    requires { 0 < room }
    ensures pass { IfOk result (λ o. IsLenderOf o.0 o.1) }
    ensures fresh { IfOk result
        (λ o. (room_of o.0 ≡ room) × (lent_by o.1 ≡ []) × (collected_by o.1 ≡ 0)) }
    ensures helpers { IfOk result
        (λ o. (vec_len o.2 ≡ helpers) × All (λ p. IsHelperOf o.0 p) o.2.items) }
{
    let (bench, mut pass) = Bench::ruled(alloc, room)?;
    let passes = hired(alloc, &bench, &mut pass, helpers)?;
    let office = Office {
        bench,
        bell: AtomicU64::new(0),
        asleep: AtomicU64::new(0),
        closed: OnceLock::new(),
        returns: AtomicU64::new(0),
        awaited: AtomicU64::new(0),
    };
    Ok((office, Lender { pass, next: 0 }, passes))
}
