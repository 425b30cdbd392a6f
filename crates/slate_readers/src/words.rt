// The words of a live session.
ghost use Rattle.std.specs.Prelude.{◌≡◌, map, string_bytes};
ghost use Rattle.slate_readers.specs.Words.{live_words_of, reader_count};

use slate_script::{RunOptions, SessionWords, read_words};
use slate_text::read_number;

/// What the words of the command line ask for where the first of them is `live`.
#[derive(Clone, Copy, Debug, PartialEq, Eq)]
pub struct LiveWords {
    /// How many readers take views, from 1 to 16.
    pub readers: u32,
    /// The options of the run.
    pub options: RunOptions,
}

/// The most readers that words may ask for.
const MAX_READERS: u32 = 16;

/// What words ask for: `live --readers N`, with a number from 1 to 16 in decimal digits, and then options as a session's. None
/// exactly where they don't spell that. It takes no memory.
pub fn read_live_words(words: &[String]) -> Option<LiveWords>
    ensures { result ≡ live_words_of (map string_bytes words.now) }
{
    let (first, behind) = words.split_first()?;
    let (option, behind) = behind.split_first()?;
    let (count, others) = behind.split_first()?;
    if first.as_str() != "live" || option.as_str() != "--readers" {
        return None;
    }
    let readers = read_count(count.as_bytes())?;
    match read_words(others)? {
        SessionWords::Script(options) => Some(LiveWords { readers, options }),
        SessionWords::Generator { .. } => None,
    }
}

/// A number of readers.
fn read_count(digits: &[u8]) -> Option<u32>
    ensures { result ≡ reader_count digits.now }
{
    let count = u32::try_from(read_number(digits)?).ok()?;
    if count == 0 || count > MAX_READERS {
        return None;
    }
    Some(count)
}
