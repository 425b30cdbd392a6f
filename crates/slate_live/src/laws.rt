// Laws for programs that do commands on a `LiveState` of their own, or hold handles and readers beside a store without one.
ghost use Rattle.slate_live.specs.Beside.{OthersLeaveThem, PollsBegin, ReadersStand, StepsStand};
ghost use Rattle.slate_live.specs.Laws.{CallsAreSteps, ListTheirLines, NoneRepresentsTheStart, OthersMayFail, ReadTheirLines, TransactionsTrack};
ghost use Rattle.slate_live.specs.Running.{EachIsDone, EachLeadsOn, NoneHasLed, TheyLead};

/// The calls of handles and readers that a program holds over an honest store are steps of one world, as the commands of a run
/// are. Before the first opening the store alone represents the world of the start. What a call does to its object and to the
/// store, as its contract says it, leads to a next world that the objects represent then, whichever of them it was a call of.
/// And the batches that one of them reads, by the tables of its manifest and by its memory, are those of its line in that world:
/// all that a handle was opened with and accepted, and for a reader what is stored up to its number. So are the sources that a
/// handle lists by recency. A transaction reads as its handle does, with its own operations behind; to begin one changes nothing
/// but which writes the handle tracks, and to commit it is a write but for that. A call that only reads the store leaves them as
/// they are, and the world but for the count of its faults.
pub fn calls_are_steps()
    ensures begins { NoneRepresentsTheStart }
    ensures steps { CallsAreSteps }
    ensures fails { OthersMayFail }
    ensures rows { ReadTheirLines }
    ensures recent { ListTheirLines }
    ensures tracks { TransactionsTrack }
{}

/// A reader that a program holds beside the objects that commands name, and a poll of it by single calls, keep their promises
/// whatever others do between two of its calls. One that was opened and is an object of the world stands beside that world: what
/// it sees begins the line that is stored, in whole batches, and the tables of its manifest read as that. It may begin a poll. A
/// call of others leaves it and its begun poll standing beside the next world. And a step of the poll leads to a world with the
/// same stored line, in which the poll stands while there is another call, and else the reader that the answer left: also where
/// the poll goes by a manifest that others have replaced since, reads log files that a sweep removes, or puts its manifest under
/// an id that a sweep left free.
pub fn begun_polls_stand()
    ensures readers { ReadersStand }
    ensures begin { PollsBegin }
    ensures others { OthersLeaveThem }
    ensures steps { StepsStand }
{}

/// The commands that a program does by `LiveState::apply`, one after another on a state of its own, come to what those of a run
/// come to: over any store each is done in its turn, and over an honest one they lead through worlds, with all that is said of
/// these. So a program that looks at the state between commands needs no other proof than that of `run`.
pub fn commands_lead_on()
    ensures begins { NoneHasLed }
    ensures each { EachLeadsOn }
    ensures all { TheyLead }
    ensures done { EachIsDone }
{}
