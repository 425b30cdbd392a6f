// A whole session: a script is read from a source and run, and its replies are written to a sink.
ghost use Rattle.std.specs.Prelude.{IfOk, ◌≡◌, ◌≤◌, ◌⊎◌, List, Option, Some, map, string_bytes, ℕ};
ghost use Rattle.slate_script.specs.Generator.{summary_text};
ghost use Rattle.slate_script.specs.Options.{words_of};
ghost use Rattle.slate_script.specs.declared.options.SessionWords.TheVariants.{Script, Generator};
ghost use Rattle.slate_script.specs.Replies.{replies_text};
ghost use Rattle.slate_script.specs.Scripts.{script_of};
ghost use Rattle.slate_script.specs.Sessions.{EndsWriting, HasScript, refused_line, sides, status_of};
ghost use Rattle.slate_model.specs.Known.{known};
ghost use Rattle.slate_types.specs.Counts.{HasRisen};
ghost use Rattle.slate_live.specs.Session.{Ends, IsGiven};

use crate::run;
use slate_script::{
    Finished, Outcome, Reply, RunOptions, SessionWords, generate, print_replies, print_summary,
    read_commands, read_words, write_text,
};
use slate_store::Store;
use slate_streams::{Sink, Source};
use slate_types::{FixedPrefix, NoMemory};
use std::alloc::Global;

/// Writes the text of replies to a sink.
fn write_replies<O: Sink>(alloc: Global, sink: &mut O, replies: &[Reply]) -> Outcome
    ensures faults { O.faults sink.old ≤ O.faults sink.new }
    ensures writes { EndsWriting result (replies_text replies.now) (O.written sink.old) (O.written sink.new) (O.faults sink.old) (O.faults sink.new) }
{
    let mut text = Vec::new(alloc);
    if print_replies(&mut text, replies).is_err() {
        return Outcome::NoMemory;
    }
    write_text(sink, text.as_slice())
}

/// Writes the summary of the replies to so many commands of the generator to a sink.
fn write_summary<O: Sink>(alloc: Global, sink: &mut O, commands: u64, replies: &[Reply]) -> Outcome
    ensures faults { O.faults sink.old ≤ O.faults sink.new }
    ensures writes { EndsWriting result (summary_text commands replies.now) (O.written sink.old) (O.written sink.new) (O.faults sink.old) (O.faults sink.new) }
{
    let mut text = Vec::new(alloc);
    if print_summary(&mut text, commands, replies).is_err() {
        return Outcome::NoMemory;
    }
    write_text(sink, text.as_slice())
}

/// No extractor, for the commands of the generator.
const NO_EXTRACTOR: Option<&FixedPrefix> = None;

/// The extractor that cuts keys at a length from 1 to 255, where a session's options ask for one by `--segments`. It takes the
/// memory of its name.
pub fn extractor_of(alloc: Global, length: Option<u8>) -> Result<Option<FixedPrefix>, NoMemory>
    ensures { IfOk result (λ extractor. extractor ≡ length) }
{
    match length {
        None => Ok(None),
        Some(length) => Ok(Some(FixedPrefix::new(alloc, length)?)),
    }
}

/// Does what the words of the command line ask for over a store: reads a script from the source to its end, runs its
/// commands one after another, and writes the text of the replies to the sink, a line or a few for each; or, for `gen SEED
/// COUNT`, runs the commands of the generator, and writes the summary of their replies, without a look at the source.
///
/// The status says how it ended. Words that ask for neither end it before anything is read (64). A source that fails
/// (3), a script of more than `MAX_SCRIPT` bytes (6) and a line that isn't a script line (2) end it before anything is
/// run. Where the sink fails (4), the run is whole and a part of the text is written. Where memory runs out (5), nothing
/// is written, and the store is as it was or the run is whole. Else every command was answered, with an error or
/// without one, and the answers are written (0). It takes the time of `run`, and beside it time and memory linear in
/// the bytes of the script and of the text.
pub fn session<I: Source, O: Sink, S: Store>(
    alloc: Global,
    words: &[String],
    source: &mut I,
    sink: &mut O,
    store: &mut S,
) -> Finished
    ensures source_faults { I.faults source.old ≤ I.faults source.new }
    ensures sink_faults { O.faults sink.old ≤ O.faults sink.new }
    ensures store_faults { S.faults store.old ≤ S.faults store.new }
    ensures ends { (ending : Outcome) × (result.status ≡ status_of ending) × (result.line ≡ refused_line ending)
        × Ends (words_of (map string_bytes words.now)) result.replies ending
        (sides I.left I.faults O.written O.faults source.old sink.old (known S.objects S.faults store.old))
        (sides I.left I.faults O.written O.faults source.new sink.new (known S.objects S.faults store.new)) }
    ensures completes { IsGiven (words_of (map string_bytes words.now))
        (sides I.left I.faults O.written O.faults source.old sink.old (known S.objects S.faults store.old))
        (sides I.left I.faults O.written O.faults source.new sink.new (known S.objects S.faults store.new))
        → (result.status ≡ 0) ⊎ (result.status ≡ 5) }
{
    match read_words(words) {
        None => Outcome::WordsRefused.finished(Vec::new(alloc)),
        Some(SessionWords::Script(options)) => run_script(alloc, options, source, sink, store),
        Some(SessionWords::Generator { seed, count }) => {
            run_generator(alloc, seed, count, sink, store)
        }
    }
}

/// Reads a script from the source, runs it with these options, and writes the text of the replies.
fn run_script<I: Source, O: Sink, S: Store>(
    alloc: Global,
    options: RunOptions,
    source: &mut I,
    sink: &mut O,
    store: &mut S,
) -> Finished
    ensures source_faults { I.faults source.old ≤ I.faults source.new }
    ensures sink_faults { O.faults sink.old ≤ O.faults sink.new }
    ensures store_faults { S.faults store.old ≤ S.faults store.new }
    ensures ends { (ending : Outcome) × (result.status ≡ status_of ending) × (result.line ≡ refused_line ending)
        × Ends (Some (Script options)) result.replies ending
        (sides I.left I.faults O.written O.faults source.old sink.old (known S.objects S.faults store.old))
        (sides I.left I.faults O.written O.faults source.new sink.new (known S.objects S.faults store.new)) }
    ensures completes { HasScript script_of
        (sides I.left I.faults O.written O.faults source.old sink.old (known S.objects S.faults store.old))
        (sides I.left I.faults O.written O.faults source.new sink.new (known S.objects S.faults store.new))
        → (result.status ≡ 0) ⊎ (result.status ≡ 5) }
{
    let commands = match read_commands(alloc, source) {
        Ok(commands) => commands,
        Err(ending) => return ending.finished(Vec::new(alloc)),
    };
    let Ok(extractor) = extractor_of(alloc, options.segments) else {
        return Outcome::NoMemory.finished(Vec::new(alloc));
    };
    let Ok(replies) = run(
        alloc,
        store,
        &options.options,
        options.operator.as_ref(),
        extractor.as_ref(),
        commands.as_slice(),
    ) else {
        return Outcome::NoMemory.finished(Vec::new(alloc));
    };
    let ending = write_replies(alloc, sink, replies.as_slice());
    ending.finished(replies)
}

/// Runs the commands of the generator, and writes the summary of their replies.
fn run_generator<O: Sink, S: Store>(
    alloc: Global,
    seed: u64,
    count: u16,
    sink: &mut O,
    store: &mut S,
) -> Finished
    ensures sink_faults { O.faults sink.old ≤ O.faults sink.new }
    ensures store_faults { S.faults store.old ≤ S.faults store.new }
    ensures ends { (left : Option (List ℕ)) (faults : ℕ) → (ending : Outcome) × (result.status ≡ status_of ending) × (result.line ≡ refused_line ending)
        × Ends (Some (Generator seed count)) result.replies ending
        (record { left = left; source_faults = faults; written = O.written sink.old; sink_faults = O.faults sink.old; store = known S.objects S.faults store.old })
        (record { left = left; source_faults = faults; written = O.written sink.new; sink_faults = O.faults sink.new; store = known S.objects S.faults store.new }) }
    ensures completes { (HasRisen (O.faults sink.old) (O.faults sink.new) → ⊥) → (result.status ≡ 0) ⊎ (result.status ≡ 5) }
{
    let Ok(commands) = generate(alloc, seed, count) else {
        return Outcome::NoMemory.finished(Vec::new(alloc));
    };
    let options = RunOptions::default();
    let Ok(replies) = run(
        alloc,
        store,
        &options.options,
        options.operator.as_ref(),
        NO_EXTRACTOR,
        commands.as_slice(),
    ) else {
        return Outcome::NoMemory.finished(Vec::new(alloc));
    };
    let ending = write_summary(alloc, sink, commands.len() as u64, replies.as_slice());
    ending.finished(replies)
}
