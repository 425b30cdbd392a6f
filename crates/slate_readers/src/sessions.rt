// A live session: a script is read from a source and run, while readers on threads of their own view what its first reader sees, and
// the replies and a line for each reader are written to a sink.
ghost use Rattle.std.specs.Prelude.{◌≡◌, ◌≤◌, ◌⊎◌, ◌++◌, [], All, IfOk, Some, None, length, map, string_bytes};
ghost use Rattle.slate_published.specs.States.{last_of};
ghost use Rattle.slate_script.specs.Replies.{replies_text};
ghost use Rattle.slate_script.specs.Sessions.{EndsWriting, refused_line, sides, status_of};
ghost use Rattle.slate_model.specs.Known.{known};
ghost use Rattle.slate_readers.specs.Session.{EndsLive, IsGivenLive, readers_text};
ghost use Rattle.slate_readers.specs.Opening.{HasRun, IsOpened, handed};
ghost use Rattle.slate_readers.specs.Watching.{AreOf};
ghost use Rattle.slate_readers.specs.Words.{live_words_of};

use crate::Gate;
use crate::beside::run_beside;
use crate::broadcasts::Broadcast;
use crate::printing::print_readers;
use crate::runs::Script;
use crate::watchers::{Watcher, end_all, give_back, number_readers};
use crate::words::{LiveWords, read_live_words};
use slate_live::extractor_of;
use slate_published::{FollowerPublisher, FollowerReader, follower_readers};
use slate_script::{Command, Finished, Outcome, Reply, print_replies, read_commands, write_text};
use slate_store::Store;
use slate_streams::{Sink, Source};
use slate_types::{FixedPrefix, NoMemory, Seq};
use std::alloc::Global;
use std::sync::Wait;
use std::thread::Threads;

/// What a live session did. It isn't `Drop`, as a publisher isn't: end that by `FollowerPublisher::end`.
pub struct Live {
    /// How the session ended, with the replies of the run.
    pub finished: Finished,
    /// The one that published the states of the first reader, where the run was made.
    pub publisher: Option<FollowerPublisher>,
    /// The readers that viewed them, by their numbers; none where the run wasn't made. Where memory ran out there may be fewer
    /// than the words ask for.
    pub readers: Seq<FollowerReader>,
}

impl Live {
    /// A session that ended so before anything was run.
    fn stopped(alloc: Global, ending: Outcome) -> Live
        ensures status { result.finished.status ≡ status_of ending }
        ensures line { result.finished.line ≡ refused_line ending }
        ensures nothing { (result.finished.replies ≡ []) × (result.publisher ≡ None) × (result.readers ≡ []) }
    {
        Live {
            finished: ending.finished(Vec::new(alloc)),
            publisher: None,
            readers: Seq::of(Vec::new(alloc)),
        }
    }
}

/// What a live session needs before its commands are run: its words, room for the replies, the extractor, the publisher, the
/// readers, and room in which these are handed back. It isn't `Drop`, as a publisher isn't.
struct Opened {
    words: LiveWords,
    replies: Vec<Reply>,
    extractor: Option<FixedPrefix>,
    publisher: FollowerPublisher,
    watchers: Vec<Watcher>,
    readers: Vec<FollowerReader>,
}

/// Readers that have seen nothing, and their publisher.
fn open_watchers<R: Wait>(
    rt: &R,
    alloc: Global,
    count: u32,
) -> Result<(FollowerPublisher, Vec<Watcher>), NoMemory>
    ensures publisher { IfOk result (λ opened. opened.0.states ≡ []) }
    ensures watchers { IfOk result (λ opened. (length opened.1.items ≡ count) × AreOf opened.0 opened.1.items) }
{
    let (publisher, readers) = follower_readers(rt, alloc, count)?;
    match number_readers(alloc, readers) {
        Ok(watchers) => Ok((publisher, watchers)),
        Err(error) => {
            publisher.end(rt);
            Err(error)
        }
    }
}

/// What a session with these words needs for so many commands.
fn open<R: Wait>(
    rt: &R,
    alloc: Global,
    words: LiveWords,
    commands: usize,
) -> Result<Opened, NoMemory>
    ensures { IfOk result (λ opened. IsOpened words commands opened) }
{
    let replies = Vec::with_capacity(alloc, commands)?;
    let readers = Vec::with_capacity(alloc, words.readers as usize)?;
    let extractor = extractor_of(alloc, words.options.segments)?;
    let (publisher, watchers) = open_watchers(rt, alloc, words.readers)?;
    Ok(Opened {
        words,
        replies,
        extractor,
        publisher,
        watchers,
        readers,
    })
}

/// Writes the text of replies, and a line for each of these readers, which have seen states up to one with this number.
fn write_live<O: Sink>(
    alloc: Global,
    sink: &mut O,
    replies: &[Reply],
    readers: &[FollowerReader],
    number: u64,
) -> Outcome
    requires { All (λ reader. (last_of reader.states).number ≡ number) readers.now }
    ensures faults { O.faults sink.old ≤ O.faults sink.new }
    ensures writes { EndsWriting result (replies_text replies.now ++ readers_text 0 readers.now) (O.written sink.old) (O.written sink.new) (O.faults sink.old) (O.faults sink.new) }
{
    let mut text = Vec::new(alloc);
    if print_replies(&mut text, replies).is_err()
        || print_readers(&mut text, readers, number).is_err()
    {
        return Outcome::NoMemory;
    }
    write_text(sink, text.as_slice())
}

/// Runs the commands beside the readers, and writes what they came to.
fn run_live<R: Threads + Wait + Sync, O: Sink, S: Store, G: Gate + Sync>(
    rt: &R,
    alloc: Global,
    opened: Opened,
    commands: &[Command],
    sink: &mut O,
    store: &mut S,
    gate: &G,
) -> Live
    requires { IsOpened opened.words (length commands.now) opened }
    ensures sink_faults { O.faults sink.old ≤ O.faults sink.new }
    ensures store_faults { S.faults store.old ≤ S.faults store.new }
    ensures ran { (ending : Outcome) × (result.finished.status ≡ status_of ending) × (result.finished.line ≡ refused_line ending)
        × HasRun opened.words (handed result) ending commands.now (known S.objects S.faults store.old) (known S.objects S.faults store.new) (O.written sink.old) (O.written sink.new) (O.faults sink.old) (O.faults sink.new) }
{
    let Opened {
        words,
        mut replies,
        extractor,
        publisher,
        mut watchers,
        mut readers,
    } = opened;
    let mut broadcast = Broadcast::new(publisher);
    let script = Script {
        options: &words.options.options,
        operator: &words.options.operator,
        extractor: &extractor,
        commands,
    };
    run_beside(
        rt,
        alloc,
        store,
        &script,
        &mut broadcast,
        &mut replies,
        gate,
        watchers.as_mut_slice(),
    );
    let was_shown = broadcast.is_whole();
    let number = broadcast.last_number();
    let (mut publisher, news) = broadcast.into_parts();
    let was_seen = end_all(gate, news.as_ref(), &mut publisher, watchers.as_mut_slice());
    give_back(watchers, &mut readers);
    let ending = if was_shown && was_seen {
        write_live(alloc, sink, replies.as_slice(), readers.as_slice(), number)
    } else {
        Outcome::NoMemory
    };
    Live {
        finished: ending.finished(replies),
        publisher: Some(publisher),
        readers: Seq::of(readers),
    }
}

/// Does what `session` of `slate_live` does with these options where the words are `live --readers N` and then options, while N
/// readers on threads of their own view what the first reader of the script sees: the one that it opened first. Other words end
/// it before anything is read (64).
///
/// What that reader sees is published after its opening, and after each later command after which it sees something else: a
/// higher number, or another manifest. The readers take views until the last command is done, each at least one; then each learns
/// the last news and takes a last view. So each has seen all that was published, and behind the replies a line is written for
/// each, by its number from 0: `reader I at K`, where K is the number of the last state, 0 where the script opened no reader.
/// `gate` is called around each view.
///
/// It ends as `session` does. With 0 and 4 the publisher and the readers are handed back; end the publisher by
/// `FollowerPublisher::end`. Where publishing a state, or telling a reader of it, finds no memory, that state isn't published
/// again, the run goes on, nothing is written, and the status is 5. Over a store that isn't honest a state with a lower
/// number than the last one isn't published.
///
/// It waits for its threads, so for the gate, too. The commands are done on the thread of the caller; where no other can be made,
/// the readers take their views afterwards. Beside the time of `session` it takes that of `FollowerState::published` for each
/// state that is published.
pub fn live_session<R: Threads + Wait + Sync, I: Source, O: Sink, S: Store + Send, G: Gate + Sync>(
    rt: &R,
    alloc: Global,
    words: &[String],
    source: &mut I,
    sink: &mut O,
    store: &mut S,
    gate: &G,
) -> Live
    ensures source_faults { I.faults source.old ≤ I.faults source.new }
    ensures sink_faults { O.faults sink.old ≤ O.faults sink.new }
    ensures store_faults { S.faults store.old ≤ S.faults store.new }
    ensures ends { (ending : Outcome) × (result.finished.status ≡ status_of ending) × (result.finished.line ≡ refused_line ending)
        × EndsLive (live_words_of (map string_bytes words.now)) (handed result) ending
        (sides I.left I.faults O.written O.faults source.old sink.old (known S.objects S.faults store.old))
        (sides I.left I.faults O.written O.faults source.new sink.new (known S.objects S.faults store.new)) }
    ensures completes { IsGivenLive (live_words_of (map string_bytes words.now))
        (sides I.left I.faults O.written O.faults source.old sink.old (known S.objects S.faults store.old))
        (sides I.left I.faults O.written O.faults source.new sink.new (known S.objects S.faults store.new))
        → (result.finished.status ≡ 0) ⊎ (result.finished.status ≡ 5) }
{
    let Some(words) = read_live_words(words) else {
        return Live::stopped(alloc, Outcome::WordsRefused);
    };
    let commands: Vec<Command> = match read_commands(alloc, source) {
        Ok(commands) => commands,
        Err(ending) => return Live::stopped(alloc, ending),
    };
    let Ok(opened) = open(rt, alloc, words, commands.len()) else {
        return Live::stopped(alloc, Outcome::NoMemory);
    };
    run_live(rt, alloc, opened, commands.as_slice(), sink, store, gate)
}
