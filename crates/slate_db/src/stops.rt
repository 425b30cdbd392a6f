// What tells a thread that runs on and on to stop.
use std::rt::Clock;
use std::sync::{Condvar, Mutex, Wait};
use std::time::Duration;

/// Tells the threads of `Db::run_flusher` and `DbReader::run_poller` to stop. Threads share it by reference. SlateDB's own
/// tasks have a cancellation token for it.
pub struct Stop {
    stopped: Mutex<bool>,
    changed: Condvar,
}

impl Drop for Stop {
    fn drop(self) {
        let Stop {
            stopped: _,
            changed: _,
        } = self;
    }
}

impl Stop {
    /// Nothing is stopped yet. It takes no memory.
    pub fn new() -> Stop {
        Stop {
            stopped: Mutex::new(false),
            changed: Condvar::new(),
        }
    }

    /// Stops each thread that goes by it, at once where it sleeps, and else after its present call.
    pub fn stop<R: Wait>(&self, rt: &R) {
        *self.stopped.lock(rt) = true;
        self.changed.notify_all();
    }

    /// Whether it was stopped.
    pub fn is_stopped<R: Wait>(&self, rt: &R) -> bool {
        *self.stopped.lock(rt)
    }

    /// Sleeps for so many milliseconds, or until it is stopped, and answers whether it was.
    pub(crate) fn sleep<R: Wait + Clock>(&self, rt: &R, interval_ms: u64) -> bool {
        let interval = Duration::from_millis(interval_ms);
        let stopped = self.stopped.lock(rt);
        let (stopped, _) = self
            .changed
            .wait_timeout_while(rt, stopped, interval, |stopped| !*stopped);
        *stopped
    }
}
