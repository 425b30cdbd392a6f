// What the words of the command line ask for: the options of a run, or the commands of the generator.
ghost use Rattle.std.specs.Prelude.{◌≡◌, map, string_bytes};
ghost use Rattle.std.specs.Option.{option_map};
ghost use Rattle.slate_script.specs.declared.options.SessionWords.TheVariants.{Script};
ghost use Rattle.slate_script.specs.Options.{generator_of, length_of, nothing_given, operator_of, options_of, run_options, takes_bare, with_option, words_of};

use crate::MAX_GENERATED;
use slate_text::read_number;
use slate_types::ConcatOperator;

/// How the handles of a run are opened.
#[derive(Clone, Copy, Debug, PartialEq, Eq)]
pub struct Options {
    /// From this many unflushed bytes of keys and values on a write is refused.
    pub max_unflushed_bytes: u64,
    /// Whether handles are to register a compactor.
    pub compactor: bool,
    /// Whether handles are to register a compaction worker.
    pub compaction_worker: bool,
    /// Whether handles are to register a collector.
    pub collector: bool,
}

/// What the words of the command line say of a run.
#[derive(Clone, Copy, Debug, PartialEq, Eq)]
pub struct RunOptions {
    /// The merge operator that its writes and reads are given, where there is one.
    pub operator: Option<ConcatOperator>,
    /// How many bytes of a key are the prefix of its segment, at least one, where its keys are in segments. That is the
    /// length of a `FixedPrefix`.
    pub segments: Option<u8>,
    /// How its handles are opened.
    pub options: Options,
}

/// What the words of the command line ask for.
#[derive(Clone, Copy, Debug, PartialEq, Eq)]
pub enum SessionWords {
    /// A run of the script that the source gives, with these options.
    Script(RunOptions),
    /// A run of the commands that `generate` makes of this seed and count, without options, and a summary in place of
    /// the replies.
    Generator { seed: u64, count: u16 },
}

/// The limit of unflushed bytes where no word says one.
const DEFAULT_LIMIT: u64 = 1_073_741_824;

/// The values of the options that were read so far.
#[derive(Clone, Copy)]
struct Given {
    operator: Option<ConcatOperator>,
    segments: Option<u8>,
    limit: Option<u64>,
    is_bare: bool,
}

/// The operator with this name.
fn read_operator(name: &str) -> Option<ConcatOperator>
    ensures { result ≡ operator_of name.now }
{
    if name == "concat" {
        Some(ConcatOperator)
    } else {
        None
    }
}

/// The length of a prefix that these digits spell: from 1 to 255.
fn read_length(digits: &str) -> Option<u8>
    ensures { result ≡ length_of digits.now }
{
    let length = u8::try_from(read_number(digits.as_bytes())?).ok()?;
    if length == 0 {
        return None;
    }
    Some(length)
}

const NOTHING_GIVEN: Given = Given {
    operator: None,
    segments: None,
    limit: None,
    is_bare: false,
};

/// Whether a word is the option without a value, and it isn't given already.
fn takes_bare(given: Given, word: &str) -> bool
    ensures { result ≡ takes_bare given word.now }
{
    word == "--bare" && !given.is_bare
}

/// With the option that a word and its value spell, unless it is given already.
fn with_option(given: Given, word: &str, value: &str) -> Option<Given>
    ensures { result ≡ with_option given word.now value.now }
{
    if word == "--merge" && given.operator.is_none() {
        let operator = Some(read_operator(value)?);
        Some(Given { operator, ..given })
    } else if word == "--segments" && given.segments.is_none() {
        let segments = Some(read_length(value)?);
        Some(Given { segments, ..given })
    } else if word == "--limit" && given.limit.is_none() {
        let limit = Some(read_number(value.as_bytes())?);
        Some(Given { limit, ..given })
    } else {
        None
    }
}

/// The options of a run to which these are given.
fn run_options(given: Given) -> RunOptions
    ensures { result ≡ run_options given }
{
    RunOptions {
        operator: given.operator,
        segments: given.segments,
        options: Options {
            max_unflushed_bytes: given.limit.unwrap_or(DEFAULT_LIMIT),
            compactor: !given.is_bare,
            compaction_worker: !given.is_bare,
            collector: !given.is_bare,
        },
    }
}

impl Default for RunOptions {
    /// The options of a run where no word says one.
    fn default() -> RunOptions
        ensures { result ≡ run_options nothing_given }
    {
        run_options(NOTHING_GIVEN)
    }
}

/// What words ask for: `gen SEED COUNT` the commands of the generator, with a number below 2^64 and one of at most
/// `MAX_GENERATED`, and a list of options, also an empty one, the script of the source. None exactly where they spell neither.
///
/// The options: `--merge concat` gives the operator that
/// appends each operand, `--segments N` the length of the prefixes by which keys are in segments, from 1 to 255, and
/// `--limit N` the limit of unflushed bytes, below 2^64; each number is one or more decimal digits. `--bare` has no value: with
/// it no handle registers a compactor, a compaction worker or a collector. Without them there is no operator, keys are in no
/// segments, the limit is 1,073,741,824, and each handle registers all three. They may stand in any order, each at most once.
/// Any other words are refused, so also one without its value. It takes no memory.
pub fn read_words(words: &[String]) -> Option<SessionWords>
    ensures { result ≡ words_of (map string_bytes words.now) }
{
    let Some((word, behind)) = words.split_first() else {
        return read_script_words(words);
    };
    if word.as_str() == "gen" {
        read_generator(behind)
    } else {
        read_script_words(words)
    }
}

/// The seed and the count of puts of a generator.
fn read_generator(words: &[String]) -> Option<SessionWords>
    ensures { result ≡ generator_of (map string_bytes words.now) }
{
    let [seed, count] = words else {
        return None;
    };
    let seed = read_number(seed.as_bytes())?;
    let count = u16::try_from(read_number(count.as_bytes())?).ok()?;
    if count > MAX_GENERATED {
        return None;
    }
    Some(SessionWords::Generator { seed, count })
}

/// The options of a script.
fn read_script_words(words: &[String]) -> Option<SessionWords>
    ensures { result ≡ option_map Script (options_of (map string_bytes words.now)) }
{
    let options = read_options(words)?;
    Some(SessionWords::Script(options))
}

/// The options that words spell.
fn read_options(words: &[String]) -> Option<RunOptions>
    ensures { result ≡ options_of (map string_bytes words.now) }
{
    let mut given = NOTHING_GIVEN;
    let mut rest = words;
    while let [word, behind @ ..] = rest {
        if takes_bare(given, word.as_str()) {
            given.is_bare = true;
            rest = behind;
        } else {
            let [value, others @ ..] = behind else {
                return None;
            };
            given = with_option(given, word.as_str(), value.as_str())?;
            rest = others;
        }
    }
    Some(run_options(given))
}
