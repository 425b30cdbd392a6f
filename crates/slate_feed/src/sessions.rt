// A whole session with feeds: a script is read from a source and run, and its answers are written to a sink.
ghost use Rattle.std.specs.Prelude.{◌≡◌, ◌≤◌, ◌⊎◌, [], Some, length, slice_get, IfOk, OnErr};
ghost use Rattle.slate_store.specs.Content.{IsSound};
ghost use Rattle.slate_store.specs.Objects.{Objects};
ghost use Rattle.slate_script.specs.Sessions.{EndsBy, EndsWriting, HasScript, refused_line, sides, status_of};
ghost use Rattle.slate_model.specs.Known.{known};
ghost use Rattle.slate_feed.specs.Lines.{feed_script};
ghost use Rattle.slate_feed.specs.Session.{AsksBy, FeedsOver, Leads, OpensBy, RunsFeeds, feed_settings};
ghost use Rattle.slate_feed.specs.Texts.{answers_text};

use crate::commands::{FeedAnswer, FeedCommand};
use crate::texts::print_answers;
use crate::{Feed, FeedRefusal};
use slate_live::LiveState;
use slate_script::{Finished, Outcome, RunOptions, read_commands, write_text};
use slate_store::Store;
use slate_streams::{Sink, Source};
use slate_types::{ConcatOperator, FixedPrefix, NoMemory};
use std::alloc::Global;

/// No operator and no extractor.
const NO_OPERATOR: Option<&ConcatOperator> = None;

const NO_EXTRACTOR: Option<&FixedPrefix> = None;

/// Reads a script of commands and of calls of feeds from a source to its end, runs it over a store, and writes the answers to a
/// sink.
///
/// A line is one of a script of `session`, which is run without an operator, without an extractor and with the default options,
/// or a moment and one of these:
///
/// fields | answer
/// ---|---
/// `feed AFTER` | `feed I after AFTER`: a feed is opened; feeds are numbered from 0
/// `next I LIMIT` | `batches N at K`, and N lines `batch NUMBER created T ops C`; K is the cursor then, LIMIT is below 2^32
///
/// A refusal of `Feed::open` or `Feed::next_batches` is answered as `error feed missing`, `error feed floor F of C`, `error feed
/// ahead A of E`, `error feed store`, `error feed moved` or `error no memory`, and a number that no feed has as `error unknown
/// object`.
///
/// The status is that of `session`. There are no replies in what it answers. It takes the time of each command, and beside it
/// time and memory linear in the bytes of the script and of the text.
pub fn feed_session<I: Source, O: Sink, S: Store>(
    alloc: Global,
    source: &mut I,
    sink: &mut O,
    store: &mut S,
) -> Finished
    ensures source_faults { I.faults source.old ≤ I.faults source.new }
    ensures sink_faults { O.faults sink.old ≤ O.faults sink.new }
    ensures store_faults { S.faults store.old ≤ S.faults store.new }
    ensures replies { result.replies ≡ [] }
    ensures ends { (ending : Outcome) × (result.status ≡ status_of ending) × (result.line ≡ refused_line ending)
        × EndsBy feed_script RunsFeeds ending
        (sides I.left I.faults O.written O.faults source.old sink.old (known S.objects S.faults store.old))
        (sides I.left I.faults O.written O.faults source.new sink.new (known S.objects S.faults store.new)) }
    ensures completes { HasScript feed_script
        (sides I.left I.faults O.written O.faults source.old sink.old (known S.objects S.faults store.old))
        (sides I.left I.faults O.written O.faults source.new sink.new (known S.objects S.faults store.new))
        → (result.status ≡ 0) ⊎ (result.status ≡ 5) }
{
    let commands: Vec<FeedCommand> = match read_commands(alloc, source) {
        Ok(commands) => commands,
        Err(ending) => return ending.finished(Vec::new(alloc)),
    };
    let Ok(answers) = run_commands(alloc, store, commands.as_slice()) else {
        return Outcome::NoMemory.finished(Vec::new(alloc));
    };
    let ending = write_answers(alloc, sink, answers.as_slice());
    ending.finished(Vec::new(alloc))
}

/// Runs commands over a store. It takes room for all answers first.
fn run_commands<S: Store>(
    alloc: Global,
    store: &mut S,
    commands: &[FeedCommand],
) -> Result<Vec<FeedAnswer>, NoMemory>
    ensures faults { S.faults store.old ≤ S.faults store.new }
    ensures nothing { OnErr result (store.new ≡ store.old) }
    ensures each { IfOk result (λ answers. length answers.items ≡ length commands.now) }
    ensures leads { IfOk result (λ answers. (o : Objects) → S.objects store.old ≡ Some o → IsSound o →
        FeedsOver commands.now answers.items o (S.faults store.old) (known S.objects S.faults store.new)) }
{
    let mut answers = Vec::with_capacity(alloc, commands.len())?;
    let options = RunOptions::default();
    let mut live = LiveState::new(alloc, &options.options);
    let mut feeds = Vec::new(alloc);
    for command in commands {
        let answer = answer(alloc, store, &mut live, &mut feeds, command);
        answers.push_reserved(answer);
    }
    Ok(answers)
}

/// Runs a command, with the live objects and the feeds.
fn answer<S: Store>(
    alloc: Global,
    store: &mut S,
    live: &mut LiveState,
    feeds: &mut Vec<Feed>,
    command: &FeedCommand,
) -> FeedAnswer
    ensures options { live.new.options ≡ live.old.options }
    ensures faults { S.faults store.old ≤ S.faults store.new }
    ensures leads { live.old.options ≡ feed_settings.options →
        Leads command.now result live.old (known S.objects S.faults store.old) feeds.old.items live.new (known S.objects S.faults store.new) feeds.new.items }
{
    match command {
        FeedCommand::Run(command) => {
            let reply = live.apply(alloc, store, NO_OPERATOR, NO_EXTRACTOR, command);
            FeedAnswer::Replied(reply)
        }
        FeedCommand::Open { after } => open_feed(alloc, store, feeds, *after),
        FeedCommand::Next { feed, limit } => next_batches(alloc, store, feeds, *feed, *limit),
    }
}

/// Opens a feed of the batches after a number.
fn open_feed<S: Store>(
    alloc: Global,
    store: &mut S,
    feeds: &mut Vec<Feed>,
    after: u64,
) -> FeedAnswer
    ensures faults { S.faults store.old ≤ S.faults store.new }
    ensures kept { S.objects store.new ≡ S.objects store.old }
    ensures opens { (o : Objects) → S.objects store.old ≡ Some o → IsSound o →
        OpensBy o after result (S.faults store.old) (S.faults store.new) feeds.old.items feeds.new.items }
{
    if feeds.reserve(1).is_err() {
        return FeedAnswer::Refused(FeedRefusal::NoMemory);
    }
    let feed = feeds.len() as u64;
    match Feed::open(alloc, store, after) {
        Ok(opened) => {
            feeds.push_reserved(opened);
            FeedAnswer::Opened { feed, after }
        }
        Err(refusal) => FeedAnswer::Refused(refusal),
    }
}

/// Delivers the next batches of the feed with a number, at most so many.
fn next_batches<S: Store>(
    alloc: Global,
    store: &mut S,
    feeds: &mut [Feed],
    number: u64,
    limit: u32,
) -> FeedAnswer
    ensures faults { S.faults store.old ≤ S.faults store.new }
    ensures kept { S.objects store.new ≡ S.objects store.old }
    ensures asks { (o : Objects) → S.objects store.old ≡ Some o → IsSound o →
        AsksBy o number limit (slice_get feeds.old number) result (S.faults store.old) (S.faults store.new) feeds.old feeds.new }
{
    let place = number as usize;
    if place >= feeds.len() {
        return FeedAnswer::Unknown;
    }
    let feed = &mut feeds[place];
    match feed.next_batches(alloc, store, limit) {
        Ok(batches) => FeedAnswer::Delivered {
            at: feed.cursor(),
            batches,
        },
        Err(refusal) => FeedAnswer::Refused(refusal),
    }
}

/// Writes the text of answers to a sink.
fn write_answers<O: Sink>(alloc: Global, sink: &mut O, answers: &[FeedAnswer]) -> Outcome
    ensures faults { O.faults sink.old ≤ O.faults sink.new }
    ensures writes { EndsWriting result (answers_text answers.now) (O.written sink.old) (O.written sink.new) (O.faults sink.old) (O.faults sink.new) }
{
    let mut text = Vec::new(alloc);
    if print_answers(&mut text, answers).is_err() {
        return Outcome::NoMemory;
    }
    write_text(sink, text.as_slice())
}
