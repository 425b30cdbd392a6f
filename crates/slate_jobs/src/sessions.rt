// A whole session over a job store: a script is read from a source and run, and its answers are written to a sink.
ghost use Rattle.std.specs.Prelude.{◌≡◌, ◌≤◌, ◌⊎◌, [], List, Some, IfOk, OnErr, vec_len, vec_capacity};
ghost use Rattle.slate_types.specs.declared.batches.Batch.{Batch};
ghost use Rattle.slate_store.specs.Objects.{Objects};
ghost use Rattle.slate_script.specs.Sessions.{EndsBy, EndsWriting, HasScript, refused_line, sides, status_of};
ghost use Rattle.slate_model.specs.Known.{known};
ghost use Rattle.slate_jobs.specs.Histories.{Event};
ghost use Rattle.slate_jobs.specs.Lines.{job_script};
ghost use Rattle.slate_jobs.specs.Session.{Answers, AreOf, IsAlive, RunsJobs, RunsOn, RunsTo, event_of, running};
ghost use Rattle.slate_jobs.specs.Texts.{answers_text};

use crate::commands::{JobAction, JobAnswer, JobCommand};
use crate::stores::JobStore;
use crate::texts::print_answers;
use slate_script::{Finished, Outcome, read_commands, write_text};
use slate_store::Store;
use slate_streams::{Sink, Source};
use slate_types::NoMemory;
use std::alloc::Global;

/// Reads a script of requests from a source to its end, opens the job store that a store holds, runs the script on it, and
/// writes the answers to a sink, a line for each.
///
/// A line is a moment in milliseconds and one of these:
///
/// fields | answer
/// ---|---
/// `enqueue R PAYLOAD` | `job J`
/// `claim R LEASE` | `job J token T payload P`, or `empty`; the lease is in milliseconds
/// `complete R JOB TOKEN` | `completed`, `stale token T` or `stale`
/// `reopen` | `reopened`: the job store is opened anew; where that is refused, it stays as it was
///
/// R is the request's number. Lines without bytes and those that begin with `#` hold no command. A refusal of `JobStore::open`
/// or `call` is answered as `error foreign`, `error full`, `error no memory`, or `error` and the text of the writer's error.
/// Where the first opening is refused, that is the one answer, and no line is run.
///
/// The status is that of `session`: a source that fails (3), a script of more than `MAX_SCRIPT` bytes (6) and a line that isn't
/// one of these (2) end it before the job store is opened. Where the sink fails (4), all lines were run and a part of the text
/// is written. Where memory runs out (5), nothing is written, and the store is as it was or all lines were run. Else all was
/// answered and is written (0). There are no replies in what it answers. It takes the time of the opening and of each request,
/// and beside it time and memory linear in the bytes of the script and of the text.
pub fn jobs_session<I: Source, O: Sink, S: Store>(
    alloc: Global,
    source: &mut I,
    sink: &mut O,
    store: &mut S,
) -> Finished
    ensures source_faults { I.faults source.old ≤ I.faults source.new }
    ensures sink_faults { O.faults sink.old ≤ O.faults sink.new }
    ensures store_faults { S.faults store.old ≤ S.faults store.new }
    ensures replies { result.replies ≡ [] }
    ensures ends { (ending : Outcome) × (result.status ≡ status_of ending) × (result.line ≡ refused_line ending)
        × EndsBy job_script RunsJobs ending
        (sides I.left I.faults O.written O.faults source.old sink.old (known S.objects S.faults store.old))
        (sides I.left I.faults O.written O.faults source.new sink.new (known S.objects S.faults store.new)) }
    ensures completes { HasScript job_script
        (sides I.left I.faults O.written O.faults source.old sink.old (known S.objects S.faults store.old))
        (sides I.left I.faults O.written O.faults source.new sink.new (known S.objects S.faults store.new))
        → (result.status ≡ 0) ⊎ (result.status ≡ 5) }
{
    let commands = match read_commands(alloc, source) {
        Ok(commands) => commands,
        Err(ending) => return ending.finished(Vec::new(alloc)),
    };
    let Ok(answers) = run_commands(alloc, store, commands) else {
        return Outcome::NoMemory.finished(Vec::new(alloc));
    };
    let ending = write_answers(alloc, sink, answers.as_slice());
    ending.finished(Vec::new(alloc))
}

/// Opens the job store that a store holds, and runs commands on it. It takes room for all answers first.
fn run_commands<S: Store>(
    alloc: Global,
    store: &mut S,
    commands: Vec<JobCommand>,
) -> Result<Vec<JobAnswer>, NoMemory>
    ensures faults { S.faults store.old ≤ S.faults store.new }
    ensures nothing { OnErr result (store.new ≡ store.old) }
    ensures answers { IfOk result (λ answers. Answers commands.items answers.items (known S.objects S.faults store.old) (known S.objects S.faults store.new)) }
{
    let mut answers = Vec::with_capacity(alloc, commands.len().max(1))?;
    match JobStore::open(alloc, store) {
        Ok(jobs) => Ok(answer_all(alloc, store, jobs, commands, answers)),
        Err(refusal) => {
            answers.push_reserved(JobAnswer::Refused(refusal));
            Ok(answers)
        }
    }
}

/// Runs commands on a job store, one after another.
fn answer_all<S: Store>(
    alloc: Global,
    store: &mut S,
    mut jobs: JobStore,
    commands: Vec<JobCommand>,
    mut answers: Vec<JobAnswer>,
) -> Vec<JobAnswer>
    requires empty { answers.items ≡ [] }
    requires room { vec_len commands ≤ vec_capacity answers }
    ensures faults { S.faults store.old ≤ S.faults store.new }
    ensures each { (events : List Event) × AreOf commands.items result.items events }
    ensures runs { (o : Objects) → S.objects store.old ≡ Some o → IsAlive (running o (S.faults store.old) jobs) →
        RunsOn commands.items result.items (running o (S.faults store.old) jobs) (known S.objects S.faults store.new) }
{
    for command in commands {
        let answer = answer(alloc, store, &mut jobs, command);
        answers.push_reserved(answer);
    }
    answers
}

/// Runs a command on a job store.
fn answer<S: Store>(
    alloc: Global,
    store: &mut S,
    jobs: &mut JobStore,
    command: JobCommand,
) -> JobAnswer
    ensures faults { S.faults store.old ≤ S.faults store.new }
    ensures fits { (event : Event) × (event_of command result ≡ Some event) }
    ensures runs { (o : Objects) → S.objects store.old ≡ Some o → IsAlive (running o (S.faults store.old) jobs.old) →
        (o' : Objects) × (S.objects store.new ≡ Some o') × RunsTo command result (running o (S.faults store.old) jobs.old) (running o' (S.faults store.new) jobs.new) }
{
    let JobCommand { moment, action } = command;
    match action {
        JobAction::Ask { request, op } => match jobs.call(alloc, store, request, op, moment) {
            Ok(reply) => JobAnswer::Replied(reply),
            Err(refusal) => JobAnswer::Refused(refusal),
        },
        JobAction::Reopen => match JobStore::open(alloc, store) {
            Ok(opened) => {
                *jobs = opened;
                JobAnswer::Reopened
            }
            Err(refusal) => JobAnswer::Refused(refusal),
        },
    }
}

/// Writes the text of answers to a sink.
fn write_answers<O: Sink>(alloc: Global, sink: &mut O, answers: &[JobAnswer]) -> Outcome
    ensures faults { O.faults sink.old ≤ O.faults sink.new }
    ensures writes { EndsWriting result (answers_text answers.now) (O.written sink.old) (O.written sink.new) (O.faults sink.old) (O.faults sink.new) }
{
    let mut text = Vec::new(alloc);
    if print_answers(&mut text, answers).is_err() {
        return Outcome::NoMemory;
    }
    write_text(sink, text.as_slice())
}
