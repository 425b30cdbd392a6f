// What the rows of a machine and the machine are to each other.
ghost use Rattle.slate_jobs.specs.Histories.{CompletedOnce, OneReply, RepliesStay};
ghost use Rattle.slate_jobs.specs.Session.{RunsAreEvents};
ghost use Rattle.slate_jobs.specs.Laws.{EffectsAreHeld, HeldIsOne, HeldIsRead, RowsAreRead};

/// Batches hold the machine that their rows are read as. Once the batch of a request follows them, they hold the machine after
/// the request: each job and each kept reply has its row then, and no other key has one. Two machines that the same batches hold
/// have the same rows. The rows of batches that hold a machine are read as one.
pub fn rows_and_machine_give_each_other()
    ensures read { RowsAreRead }
    ensures held { EffectsAreHeld }
    ensures one { HeldIsOne }
    ensures known { HeldIsRead }
{}

/// In any list of requests and openings over one honest store, what a request was answered is kept for it, whatever comes after:
/// it is its reply for good, and no later call of its number takes effect. No two requests complete one job. The lines of a
/// session are such a list.
pub fn each_request_has_one_reply()
    ensures stay { RepliesStay }
    ensures one { OneReply }
    ensures completed { CompletedOnce }
    ensures sessions { RunsAreEvents }
{}
