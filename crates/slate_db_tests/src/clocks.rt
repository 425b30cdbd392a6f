// Tests of clocks.
use slate_receivers::{Clock, HandClock, SystemClock};
use slate_types::Seq;
use std::cell::Cell;
use std::io::ErrorKind;
use std::test::Fail;
use std::time::Duration;
use std::{io, rt};

#[test]
fn moments_given_by_hand(rt: HostRuntime) -> Result<(), Fail> {
    let mut clock = HandClock::new(Seq::of(vec![in rt.alloc(); 5, -3]?));
    assert!(rt; (clock.now_ms(), clock.now_ms(), clock.now_ms()) == (5, -3, -3));
    assert!(rt; HandClock::new(Seq::of(Vec::new(rt.alloc()))).now_ms() == 0);
    Ok(())
}

/// A runtime that tells these seconds in turn, and can't be read where there are none.
#[derive(Drop)]
struct Told {
    seconds: [Option<u64>; 3],
    next: Cell<usize>,
}

impl rt::Clock for Told {
    fn monotonic(&self) -> io::Result<Duration> {
        self.since_1970()
    }

    fn since_1970(&self) -> io::Result<Duration> {
        let next = self.next.get();
        self.next.set(next.wrapping_add(1));
        match self.seconds.as_slice().get(next) {
            Some(Some(seconds)) => Ok(Duration::from_secs(*seconds)),
            _ => Err(io::Error::from(ErrorKind::Unsupported)),
        }
    }
}

#[test]
fn clock_of_the_system(rt: HostRuntime) {
    let told = Told {
        seconds: [None, Some(2), Some(u64::MAX)],
        next: Cell::new(0),
    };
    let mut clock = SystemClock::new(told);
    assert!(rt;
        (
            clock.now_ms(),
            clock.now_ms(),
            clock.now_ms(),
            clock.now_ms()
        ) == (0, 2000, 2000, 2000)
    );
    assert!(rt; SystemClock::new(rt).now_ms() > 1_600_000_000_000);
}
