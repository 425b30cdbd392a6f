// What commands name by a number, and what it does when a command names it.
ghost use Rattle.std.specs.Prelude.{◌≡◌, ◌≤◌, ◌+◌, ℕ, None, Some, List, Option, IfSome, true, if◌then◌else◌, is_some};
ghost use Rattle.std.specs.Option.{option_copied};
ghost use Rattle.slate_reads.specs.Read.{IsOperator};
ghost use Rattle.slate_model.specs.Known.{known};
ghost use Rattle.slate_model.specs.Stores.{by_objects};
ghost use Rattle.slate_live.specs.Shut.{IsShut, IsShutAt};
ghost use Rattle.slate_live.specs.Calls.{asks_operator, at_snapshot, call_of, ends_poll, most_asked, read_by};
ghost use Rattle.slate_live.specs.Commands.{Acts, asked_reply};
ghost use Rattle.slate_live.specs.Objects.{object_of, poll_of};
ghost use Rattle.slate_model.specs.Follower.{Follower, is_managed};
ghost use Rattle.slate_model.specs.Object.{Follower as AFollower, Object as AnObject};
ghost use Rattle.slate_model.specs.Segments.{Extractor, IsExtractor};
ghost use Rattle.slate_script.specs.declared.replies.Reply.TheVariants as replies;
ghost use Rattle.slate_live.specs.Stepping.{BeginsOf, StepsObject};
ghost use Rattle.slate_live.specs.Lawful.{AreLawful, asks_of};
ghost use Rattle.slate_live.specs.Settings.{Settings};
ghost use Rattle.slate_live.specs.Sampling.{ActsAsOf, snapshot_of, taken_of};
ghost use Rattle.slate_live.specs.declared.states.Write.{Write as AWrite};
ghost use Rattle.slate_live.specs.Publishing.{reader_of};

use crate::extensions::Extensions;
use crate::handles;
use crate::readers::Reader;
use crate::states::Write;
use slate_errors::SlateError;
use slate_follow::FollowerState;
use slate_model::HandleSnapshot;
use slate_script::{Command, Reply};
use slate_store::Store;
use slate_types::{MergeOperator, PrefixExtractor};
use slate_writer::WriterState;
use std::alloc::Global;

/// Something that commands name by its number.
pub enum Object {
    /// A handle that writes.
    Handle(WriterState),
    /// A snapshot of a handle.
    Snapshot(HandleSnapshot),
    /// A reader that follows a database.
    Follower(Reader),
}

impl Drop for Object {
    fn drop(self) {
        match self {
            Object::Handle(_) => {}
            Object::Snapshot(_) => {}
            Object::Follower(_) => {}
        }
    }
}

impl Object {
    /// Does a command that names it by this number. A snapshot does nothing by itself: it is read by its handle.
    pub(crate) fn act<S: Store, M: MergeOperator, E: PrefixExtractor>(
        &mut self,
        alloc: Global,
        store: &mut S,
        writes: &mut Vec<Write>,
        number: u64,
        extensions: &Extensions<'_, M, E>,
        command: &Command,
    ) -> Reply
        requires itself { snapshot_of (object_of self.old) ≡ None }
        ensures faults { S.faults store.old ≤ S.faults store.new }
        ensures calls { IfSome (S.objects store.old) (λ o.
            S.calls store.new ≤ S.calls store.old + most_asked o (Some (object_of self.old)) (call_of command.now.action)) }
        ensures untouched { IsShut (object_of self.old) → store.new ≡ store.old }
        ensures does { (settings : Settings) → AreLawful M.may_answer (option_copied extensions.now.operator) E.may_name E.may_extract (option_copied extensions.now.extractor) settings (asks_of (Some (object_of self.old)) command.now.action) →
            (made : ℕ) × Acts (by_objects (S.objects store.old)) settings number command.now (call_of command.now.action) made
            (object_of self.old) (known S.objects S.faults store.old) writes.old.items result (object_of self.new) (known S.objects S.faults store.new) writes.new.items }
        ensures poll { poll_of self.new ≡ (if ends_poll command.now.action then None else poll_of self.old) }
    {
        match self {
            Object::Handle(writer) => handles::act(
                writer, alloc, store, writes, number, extensions, command,
            ),
            Object::Snapshot(_) => Reply::Unknown,
            Object::Follower(reader) => reader.act(alloc, store, extensions, command),
        }
    }

    /// Begins a poll at a moment, where it is a reader.
    pub(crate) fn begin(&mut self, alloc: Global, moment: i64) -> Reply
        ensures object { object_of self.new ≡ object_of self.old }
        ensures begins { BeginsOf moment (object_of self.old) (poll_of self.old) result (poll_of self.new) }
        ensures keeps { (reader : Follower) → object_of self.old ≡ AFollower reader → result ≡ replies.Begun → (reader.line.floor ≡ reader.view.manifest.last_l0_seq) × (is_some reader.lease ≡ is_managed reader.mode) }
    {
        match self {
            Object::Follower(reader) => reader.begin(alloc, moment),
            _ => Reply::Unknown,
        }
    }

    /// Makes the next call of its begun poll, where it is a reader that has one.
    pub(crate) fn step<S: Store, E: PrefixExtractor>(
        &mut self,
        alloc: Global,
        store: &mut S,
        extractor: Option<&E>,
    ) -> Reply
        ensures faults { S.faults store.old ≤ S.faults store.new }
        ensures calls { S.calls store.new ≤ S.calls store.old + 1 }
        ensures untouched { (objects : List AnObject) → IsShutAt (read_by objects (Some (object_of self.old))) → store.new ≡ store.old }
        ensures steps { (x : Option Extractor) → IsExtractor E.may_name E.may_extract (option_copied extractor.entry) x →
            StepsObject x (object_of self.old) (poll_of self.old) (known S.objects S.faults store.old) result (object_of self.new) (poll_of self.new) (known S.objects S.faults store.new) }
    {
        match self {
            Object::Follower(reader) => reader.step(alloc, store, extractor),
            _ => Reply::Unknown,
        }
    }

    /// Does a command that names a snapshot of it, up to the snapshot's number; only a handle has snapshots.
    pub(crate) fn act_at<S: Store, M: MergeOperator>(
        &self,
        alloc: Global,
        store: &mut S,
        snapshot: u64,
        operator: Option<&M>,
        command: &Command,
    ) -> Reply
        ensures faults { S.faults store.old ≤ S.faults store.new }
        ensures calls { IfSome (S.objects store.old) (λ o.
            S.calls store.new ≤ S.calls store.old + most_asked o (Some (object_of self.now)) (call_of command.now.action)) }
        ensures untouched { IsShut (object_of self.now) → store.new ≡ store.old }
        ensures does { (settings : Settings) (handle : ℕ) (writes : List AWrite) → (asks_operator (Some (object_of self.now)) command.now.action ≡ true → IsOperator M.may_answer (option_copied operator.entry) settings.merge) →
            ActsAsOf (by_objects (S.objects store.old)) settings handle command.now (at_snapshot snapshot (call_of command.now.action))
            (object_of self.now) (known S.objects S.faults store.old) writes result (known S.objects S.faults store.new) }
    {
        match self {
            Object::Handle(writer) => {
                handles::read(writer, alloc, store, Some(snapshot), operator, command)
            }
            _ => Reply::Unknown,
        }
    }

    /// The snapshot, where it is one.
    pub(crate) fn snapshot(&self) -> Option<HandleSnapshot>
        ensures { result ≡ snapshot_of (object_of self.now) }
    {
        match self {
            Object::Snapshot(snapshot) => Some(*snapshot),
            _ => None,
        }
    }

    /// The reader, where it is one.
    pub(crate) fn reader(&self) -> Option<&FollowerState>
        ensures { option_copied result ≡ reader_of (Some (object_of self.now)) }
    {
        match self {
            Object::Follower(reader) => Some(reader.state()),
            _ => None,
        }
    }

    /// The number of a snapshot that is taken of it now, or why none is, where it is a handle.
    pub(crate) fn snapshot_number(&self) -> Option<Result<u64, SlateError>>
        ensures { result ≡ taken_of (object_of self.now) }
    {
        match self {
            Object::Handle(writer) => Some(writer.snapshot_number()),
            _ => None,
        }
    }

    /// The reply where a write with this number is asked for.
    pub(crate) fn asked_reply(&self, number: u64) -> Reply
        ensures { result ≡ asked_reply (Some (object_of self.now)) number }
    {
        match self {
            Object::Handle(writer) => handles::durable_reply(writer, number),
            _ => Reply::Unknown,
        }
    }
}
