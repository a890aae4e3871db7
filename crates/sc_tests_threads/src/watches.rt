//! Time limits for threads that wait for each other.

use std::process::Abort;
use std::sync::atomic::{AtomicU64, Ordering};
use std::thread::sleep;
use std::time::{Clock, Duration};

// Waits until the count is not 0, for at most 20 seconds, and ends the test where it stays 0.
pub(crate) fn watch<R: Abort + Clock>(rt: &R, count: &AtomicU64, missed: &str) {
    for turn in 0..1_000 {
        let _ = turn;
        if count.load(Ordering::SeqCst) != 0 {
            return;
        }
        sleep(rt, Duration::from_millis(20));
    }
    panic!(rt; "{missed} within 20 seconds");
}

// Takes so long that a thread that goes to sleep is asleep by then.
pub(crate) fn pause<R: Clock>(rt: &R) {
    sleep(rt, Duration::from_millis(100));
}
