// A law for programs that poll a reader by single calls, with others at work on the store between them.
ghost use Rattle.slate_follow.specs.Following.{BegunOnesFollow, OthersKeepIt};
ghost use Rattle.slate_follow.specs.Lasting.{BegunOnesLast, OthersLetItLast};

/// A poll by single calls reads the line that is stored, whatever others do between its calls: it follows the line when it
/// begins, `step` says that it still does after each of its calls, and this law that it does after each call of others that
/// only lets the line grow, as the calls of handles do: they may store batches, put manifests and remove log files.
pub fn begun_polls_follow_the_line()
    ensures begins { BegunOnesFollow }
    ensures others { OthersKeepIt }
{}

/// A poll by single calls comes to its end in few of them, and finds log files missing only where others put a table since its
/// first one: `step` says so of a poll that lasts. One that begins on a reader that has seen the store does, and by this law it
/// still does after each call of others that puts manifests and log files after the last ones, and removes no log file above
/// the latest replay mark, as the calls of handles and readers and sweeps do.
pub fn begun_polls_last()
    ensures begins { BegunOnesLast }
    ensures others { OthersLetItLast }
{}
