// A whole session with a router: a script is read from a source and run, and its answers are written to a sink.
ghost use Rattle.std.specs.Prelude.{◌≡◌, ◌≤◌, ◌⊎◌, [], Some, length, vec_len, vec_capacity, IfOk, OnErr, None, true};
ghost use Rattle.slate_store.specs.Content.{IsSound};
ghost use Rattle.slate_store.specs.Objects.{Objects};
ghost use Rattle.slate_script.specs.Sessions.{EndsBy, EndsWriting, HasScript, refused_line, sides, status_of};
ghost use Rattle.slate_model.specs.Known.{known};
ghost use Rattle.slate_live.specs.Stepping.{IsDone};
ghost use Rattle.slate_route.specs.Lines.{route_script};
ghost use Rattle.slate_route.specs.Session.{Leads, Route, RoutesOn, RunsAnswers, RunsRoutes, StandFor, flush_command, opening, put_command, route_settings};
ghost use Rattle.slate_route.specs.Texts.{answers_text};

use crate::Router;
use crate::commands::{RouteAction, RouteAnswer, RouteCommand};
use crate::texts::print_answers;
use bytes::Bytes;
use slate_live::LiveState;
use slate_script::{
    Action, Command, Finished, Outcome, Reply, RunOptions, read_commands, write_text,
};
use slate_store::Store;
use slate_streams::{Sink, Source};
use slate_types::{ConcatOperator, FixedPrefix, FlushType, NoMemory};
use std::alloc::Global;

/// No operator and no extractor.
const NO_OPERATOR: Option<&ConcatOperator> = None;

const NO_EXTRACTOR: Option<&FixedPrefix> = None;

/// The handle that a session opens.
const HANDLE: u64 = 0;

/// Reads a script of reads, and of writes before them, from a source to its end, opens a handle of the database that a store holds,
/// with the default options, runs the script with that and a router, and writes the answers to a sink, a line for each.
///
/// A line is a moment in milliseconds, or two with `/` between, and one of these:
///
/// fields | answer
/// ---|---
/// `put KEY VALUE` | `write number K`
/// `flush` | `flushed`: what the handle wrote is stored in a log file
/// `add LIFETIME INTERVAL` | `follower I at K`: a reader is added, as `Router::add` does; both in milliseconds
/// `read N KEY` | `follower I at K value V`, or `follower I at K none`: as `Router::read_at_least` does
///
/// Lines without bytes and those that begin with `#` hold no command. A refusal of the router is answered as `error no follower`,
/// `error behind BEST of N`, `error full`, `error no memory`, or `error` and the text of the error, and one of the handle as in
/// `session`. Where the opening is refused, that is the one answer, and no line is run.
///
/// The status is that of `session`. There are no replies in what it answers. It takes the time of each call, and beside it time and
/// memory linear in the bytes of the script and of the text.
pub fn route_session<I: Source, O: Sink, S: Store>(
    alloc: Global,
    source: &mut I,
    sink: &mut O,
    store: &mut S,
) -> Finished
    ensures source_faults { I.faults source.old ≤ I.faults source.new }
    ensures sink_faults { O.faults sink.old ≤ O.faults sink.new }
    ensures store_faults { S.faults store.old ≤ S.faults store.new }
    ensures replies { result.replies ≡ [] }
    ensures ends { (ending : Outcome) × (result.status ≡ status_of ending) × (result.line ≡ refused_line ending)
        × EndsBy route_script RunsRoutes ending
        (sides I.left I.faults O.written O.faults source.old sink.old (known S.objects S.faults store.old))
        (sides I.left I.faults O.written O.faults source.new sink.new (known S.objects S.faults store.new)) }
    ensures completes { HasScript route_script
        (sides I.left I.faults O.written O.faults source.old sink.old (known S.objects S.faults store.old))
        (sides I.left I.faults O.written O.faults source.new sink.new (known S.objects S.faults store.new))
        → (result.status ≡ 0) ⊎ (result.status ≡ 5) }
{
    let commands: Vec<RouteCommand> = match read_commands(alloc, source) {
        Ok(commands) => commands,
        Err(ending) => return ending.finished(Vec::new(alloc)),
    };
    let Ok(answers) = run_commands(alloc, store, commands) else {
        return Outcome::NoMemory.finished(Vec::new(alloc));
    };
    let ending = write_answers(alloc, sink, answers.as_slice());
    ending.finished(Vec::new(alloc))
}

/// Opens a handle of the database that a store holds, and runs commands. It takes room for all answers first.
fn run_commands<S: Store>(
    alloc: Global,
    store: &mut S,
    commands: Vec<RouteCommand>,
) -> Result<Vec<RouteAnswer>, NoMemory>
    ensures faults { S.faults store.old ≤ S.faults store.new }
    ensures nothing { OnErr result (store.new ≡ store.old) }
    ensures answers { IfOk result (λ answers. RunsAnswers commands.items answers.items (known S.objects S.faults store.old) (known S.objects S.faults store.new)) }
{
    let mut answers = Vec::with_capacity(alloc, commands.len().max(1))?;
    let options = RunOptions::default();
    let mut live = LiveState::new(alloc, &options.options);
    match HandleCommand::open().run(alloc, store, &mut live) {
        Reply::Handle { .. } => Ok(answer_all(alloc, store, live, commands, answers)),
        refusal => {
            answers.push_reserved(RouteAnswer::Replied(refusal));
            Ok(answers)
        }
    }
}

/// Runs commands with a handle, one after another.
fn answer_all<S: Store>(
    alloc: Global,
    store: &mut S,
    mut live: LiveState,
    commands: Vec<RouteCommand>,
    mut answers: Vec<RouteAnswer>,
) -> Vec<RouteAnswer>
    requires empty { answers.items ≡ [] }
    requires room { vec_len commands ≤ vec_capacity answers }
    requires options { live.options ≡ route_settings.options }
    ensures faults { S.faults store.old ≤ S.faults store.new }
    ensures each { length result.items ≡ length commands.items }
    ensures runs { (route : Route) → StandFor live (known S.objects S.faults store.old) [] route →
        RoutesOn commands.items result.items route (known S.objects S.faults store.new) }
{
    let mut router = Router::new(alloc);
    for command in commands {
        let answer = answer(alloc, store, &mut live, &mut router, command);
        answers.push_reserved(answer);
    }
    answers
}

/// Runs a command, with the handle and the router.
fn answer<S: Store>(
    alloc: Global,
    store: &mut S,
    live: &mut LiveState,
    router: &mut Router,
    command: RouteCommand,
) -> RouteAnswer
    requires options { live.old.options ≡ route_settings.options }
    ensures options { live.new.options ≡ live.old.options }
    ensures faults { S.faults store.old ≤ S.faults store.new }
    ensures leads { Leads command result live.old (known S.objects S.faults store.old) router.old live.new (known S.objects S.faults store.new) router.new }
{
    let RouteCommand {
        moment,
        second,
        action,
    } = command;
    match action {
        RouteAction::Put { key, value } => {
            let command = HandleCommand::put(moment, second, key, value);
            RouteAnswer::Replied(command.run(alloc, store, live))
        }
        RouteAction::Flush => {
            let command = HandleCommand::flush(moment, second);
            RouteAnswer::Replied(command.run(alloc, store, live))
        }
        RouteAction::Add {
            lifetime_ms,
            interval_ms,
        } => match router.add(alloc, store, lifetime_ms, interval_ms, moment) {
            Ok(added) => RouteAnswer::Added(added),
            Err(refusal) => RouteAnswer::Refused(refusal),
        },
        RouteAction::Read { at_least, key } => {
            let key = key.as_slice();
            match router.read_at_least(alloc, store, key, at_least, moment, NO_OPERATOR) {
                Ok(routed) => RouteAnswer::Routed(routed),
                Err(refusal) => RouteAnswer::Refused(refusal),
            }
        }
    }
}

/// A command of the session's handle.
struct HandleCommand {
    command: Command,
}

impl Drop for HandleCommand {
    fn drop(self) {
        let HandleCommand { command: _ } = self;
    }
}

impl HandleCommand {
    fn open() -> HandleCommand
        ensures { result.command ≡ opening }
    {
        HandleCommand::new(0, None, Action::Open { wal: true })
    }

    fn put(moment: i64, second: Option<i64>, key: Bytes, value: Bytes) -> HandleCommand
        ensures { result.command ≡ put_command moment second key value }
    {
        let action = Action::Put {
            handle: HANDLE,
            key,
            value,
            expire: None,
        };
        HandleCommand::new(moment, second, action)
    }

    /// Stores what the handle wrote in a log file.
    fn flush(moment: i64, second: Option<i64>) -> HandleCommand
        ensures { result.command ≡ flush_command moment second }
    {
        let action = Action::Flush {
            handle: HANDLE,
            flush_type: Some(FlushType::Wal),
        };
        HandleCommand::new(moment, second, action)
    }

    fn new(moment: i64, second: Option<i64>, action: Action) -> HandleCommand
        ensures { result.command ≡ record { moment = moment; second = second; action = action } }
    {
        HandleCommand {
            command: Command {
                moment,
                second,
                action,
            },
        }
    }

    /// Does it.
    fn run<S: Store>(&self, alloc: Global, store: &mut S, live: &mut LiveState) -> Reply
        requires options { live.old.options ≡ route_settings.options }
        ensures options { live.new.options ≡ live.old.options }
        ensures faults { S.faults store.old ≤ S.faults store.new }
        ensures done { IsDone route_settings live.old (known S.objects S.faults store.old) self.now.command result live.new (known S.objects S.faults store.new) }
    {
        live.apply(alloc, store, NO_OPERATOR, NO_EXTRACTOR, &self.command)
    }
}

/// Writes the text of answers to a sink.
fn write_answers<O: Sink>(alloc: Global, sink: &mut O, answers: &[RouteAnswer]) -> Outcome
    ensures faults { O.faults sink.old ≤ O.faults sink.new }
    ensures writes { EndsWriting result (answers_text answers.now) (O.written sink.old) (O.written sink.new) (O.faults sink.old) (O.faults sink.new) }
{
    let mut text = Vec::new(alloc);
    if print_answers(&mut text, answers).is_err() {
        return Outcome::NoMemory;
    }
    write_text(sink, text.as_slice())
}
