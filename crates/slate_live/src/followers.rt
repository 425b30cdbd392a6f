// What commands do to a reader that follows a database.
ghost use Rattle.std.specs.Prelude.{◌≡◌, ◌≤◌, ◌+◌, ℕ, None, Some, List, Option, IfSome, true, false};
ghost use Rattle.std.specs.Option.{option_copied};
ghost use Rattle.slate_model.specs.Known.{known};
ghost use Rattle.slate_model.specs.Follower.{is_managed};
ghost use Rattle.slate_model.specs.Object.{Follower as AFollower};
ghost use Rattle.slate_model.specs.Status.{follower_status};
ghost use Rattle.slate_model.specs.Stores.{by_objects};
ghost use Rattle.slate_live.specs.declared.states.Write.{Write};
ghost use Rattle.slate_model.specs.Segments.{Extractor, IsExtractor};
ghost use Rattle.slate_live.specs.Lawful.{AreLawful, asks_of};
ghost use Rattle.slate_live.specs.Settings.{Settings};
ghost use Rattle.slate_live.specs.Calls.{call_of, end_calls, ends_poll, most_asked, poll_calls};
ghost use Rattle.slate_live.specs.Followers.{ClosesFollower, FollowerActs, PollsFollower};
ghost use Rattle.slate_live.specs.Replies.{AnswersStatus, follower_closed_reply, polled_reply};

use crate::extensions::Extensions;
use crate::handles::{read_reply, refusal, status_reply};
use crate::scans::{all_rows, rows_reply, rows_with_seek};
use slate_errors::Ended;
use slate_follow::{FollowerState, PollAnswer};
use slate_script::{Action, Command, Reply};
use slate_store::Store;
use slate_types::{MergeOperator, PrefixExtractor};
use std::alloc::Global;

/// Does a command that names the reader.
pub(crate) fn act<S: Store, M: MergeOperator, E: PrefixExtractor>(
    follower: &mut FollowerState,
    alloc: Global,
    store: &mut S,
    extensions: &Extensions<'_, M, E>,
    command: &Command,
) -> Reply
    ensures faults { S.faults store.old ≤ S.faults store.new }
    ensures calls { IfSome (S.objects store.old) (λ o. S.calls store.new ≤ S.calls store.old + most_asked o (Some (AFollower follower.old)) (call_of command.now.action)) }
    ensures untouched { (follower.old.result ≡ None → ⊥) → store.new ≡ store.old }
    ensures does { (settings : Settings) (writes : List Write) → AreLawful M.may_answer (option_copied extensions.now.operator) E.may_name E.may_extract (option_copied extensions.now.extractor) settings (asks_of (Some (AFollower follower.old)) command.now.action) →
        (made : ℕ) × FollowerActs (by_objects (S.objects store.old)) settings command.now.moment (call_of command.now.action) made
        follower.old (known S.objects S.faults store.old) writes result follower.new (known S.objects S.faults store.new) writes }
    ensures stays { ends_poll command.now.action ≡ false → follower.new ≡ follower.old }
{
    match &command.action {
        Action::Get { key, .. } => {
            read_reply(follower.get(alloc, store, key.as_slice(), extensions.operator))
        }
        Action::Scan { range, order, .. } => {
            let scan = follower.scan(alloc, store, range.as_ref(), *order, extensions.operator);
            rows_reply(all_rows(alloc, scan))
        }
        Action::Seek {
            range,
            take,
            key,
            order,
            ..
        } => {
            let range = range.as_ref();
            let scan = follower.scan(alloc, store, range, *order, extensions.operator);
            rows_reply(rows_with_seek(alloc, scan, *take, key, range))
        }
        Action::Poll { .. } => poll(follower, alloc, store, extensions.extractor, command.moment),
        Action::Close { .. } => close(follower, alloc, store),
        Action::Status { .. } => status(follower, alloc),
        _ => Reply::Unknown,
    }
}

/// Lets a reader see what is stored, up to what it may lag.
fn poll<S: Store, E: PrefixExtractor>(
    follower: &mut FollowerState,
    alloc: Global,
    store: &mut S,
    extractor: Option<&E>,
    moment: i64,
) -> Reply
    ensures faults { S.faults store.old ≤ S.faults store.new }
    ensures calls { IfSome (S.objects store.old) (λ o. S.calls store.new ≤ S.calls store.old + poll_calls (is_managed follower.old.mode) follower.old.lag o) }
    ensures untouched { (follower.old.result ≡ None → ⊥) → store.new ≡ store.old }
    ensures does { (x : Option Extractor) → (follower.old.result ≡ None → IsExtractor E.may_name E.may_extract (option_copied extractor.entry) x) →
        (made : ℕ) × PollsFollower (by_objects (S.objects store.old)) x made moment follower.old (known S.objects S.faults store.old) result follower.new (known S.objects S.faults store.new) }
{
    match follower.poll(alloc, store, extractor, moment) {
        Ok(answer) => polled_reply(answer),
        Err(error) => refusal(error),
    }
}

/// The reply to a poll that was answered.
pub(crate) fn polled_reply(answer: PollAnswer) -> Reply
    ensures { result ≡ polled_reply answer }
{
    match answer {
        PollAnswer::Whole { at } => Reply::Polled { whole: true, at },
        PollAnswer::Truncated { at } => Reply::Polled { whole: false, at },
    }
}

/// What a reader reports of itself.
fn status(follower: &FollowerState, alloc: Global) -> Reply
    ensures { AnswersStatus (follower_status follower.now) result }
{
    status_reply(alloc, follower.status(alloc))
}

/// Closes a reader; one that keeps a checkpoint takes that out.
fn close<S: Store>(follower: &mut FollowerState, alloc: Global, store: &mut S) -> Reply
    ensures faults { S.faults store.old ≤ S.faults store.new }
    ensures calls { S.calls store.new ≤ S.calls store.old + end_calls (is_managed follower.old.mode) }
    ensures untouched { (follower.old.result ≡ None → ⊥) → store.new ≡ store.old }
    ensures does { (made : ℕ) × ClosesFollower (by_objects (S.objects store.old)) made follower.old (known S.objects S.faults store.old) result follower.new (known S.objects S.faults store.new) }
{
    if follower.closed().is_some() {
        return closed_reply(follower.close(alloc, store));
    }
    let ended = follower.close(alloc, store);
    Reply::Ended {
        fault: ended.fault,
        tasks: ended.tasks,
    }
}

/// The reply to a close of a reader that was closed before: an error that was recorded is answered again.
fn closed_reply(ended: Ended) -> Reply
    ensures { result ≡ follower_closed_reply ended.fault ended.tasks }
{
    match ended.fault {
        None => Reply::Ended {
            fault: None,
            tasks: ended.tasks,
        },
        Some(error) => Reply::Refused(error),
    }
}
