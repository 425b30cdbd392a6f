// Tickers: how long each waits, with jitter, and when it is due.
ghost use Rattle.std.specs.Prelude.{◌≡◌, ◌<◌, ◌^◌, ◌+ℤ◌, pos, IfOk};
ghost use Rattle.slate_dispatch.specs.Tickers.{wait_of, first_dues, IsTicker};

use slate_types::NoMemory;
use std::alloc::Global;

/// How often a handler is given a message without being sent one. SlateDB's `MessageTickerDef`.
#[derive(Clone, Copy, Debug, PartialEq, Eq)]
pub struct TickerDef {
    /// How long it waits, in milliseconds.
    pub interval_ms: u64,
    /// By how much a wait may differ from the interval, in thousandths of the interval: 0 for none, and at most 1000.
    pub jitter_thousandths: u32,
}

impl TickerDef {
    /// How long it waits after its message was taken, in milliseconds. `random` is any word.
    fn wait(&self, random: u64) -> u128
        requires { IsTicker self.now }
        ensures value { result ≡ wait_of self.now random }
        ensures small { result < 2 ^ 66 }
    {
        let interval = u128::from(self.interval_ms);
        let spread = interval * u128::from(self.jitter_thousandths) / 1000;
        interval - spread + u128::from(random) % (2 * spread + 1)
    }

    /// When it is due again after its message was taken at this moment.
    pub(crate) fn next_due(&self, moment: i64, random: u64) -> i128
        requires { IsTicker self.now }
        ensures { result ≡ moment +ℤ pos (wait_of self.now random) }
    {
        i128::from(moment) + self.wait(random) as i128
    }
}

/// When each ticker is due first: its interval after a moment.
pub(crate) fn first_dues(
    alloc: Global,
    tickers: &[TickerDef],
    moment: i64,
) -> Result<Vec<i128>, NoMemory>
    ensures { IfOk result (λ dues. dues.items ≡ first_dues moment tickers.now) }
{
    let dues = tickers
        .iter()
        .map(|ticker| i128::from(moment) + i128::from(ticker.interval_ms))
        .collect(alloc)?;
    Ok(dues)
}
