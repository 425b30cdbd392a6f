// Laws for programs that read a feed, with others at work on the store between its calls or between the steps of one.
ghost use Rattle.slate_feed.specs.Delivered.{DeliversTheLine};
ghost use Rattle.slate_feed.specs.Following.{BegunCallsFollow, OthersKeepIt};
ghost use Rattle.slate_feed.specs.Reaching.{OthersLeaveIt};

/// Joined in order, what the calls of one feed delivered is what is stored above the cursor at which it was opened, up to its
/// cursor, each batch once and whole, as long as what is stored only grows between them: that is so whatever handles flush,
/// compact and sweep. The clauses of `Feed::next_batches` and `FeedMachine::step` say that each call delivers what is right
/// above the cursor.
pub fn feeds_deliver_the_line()
    ensures { DeliversTheLine }
{}

/// A call by single steps delivers batches of the line that is stored, whatever others do between its steps: it follows the
/// line when it begins, `FeedMachine::step` says that it still does after each of its steps, and this law that it does after
/// each call of others that only lets the line grow, as the calls of handles do. Of the batches that were stored at its first
/// step it delivers as many as it was asked for, while others leave the tables and log files that it goes by.
pub fn begun_calls_follow_the_line()
    ensures begins { BegunCallsFollow }
    ensures others { OthersKeepIt }
    ensures reaching { OthersLeaveIt }
{}
