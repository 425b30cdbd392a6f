// The lease of a checkpoint that a reader keeps of its own.
ghost use Rattle.std.specs.Prelude.{◌≡◌};
ghost use Rattle.slate_model.specs.Lease.{is_due, lease_of};

use slate_store::Checkpoint;
use uuid::Uuid;

/// The lease of a checkpoint that a reader keeps of its own. Times are in milliseconds.
#[derive(Clone, Copy, Debug, PartialEq, Eq)]
pub struct Lease {
    /// The id of the checkpoint.
    pub id: Uuid,
    /// For how long it is taken anew.
    pub lifetime: u64,
    /// The moment at which it ends: at a later one a sweep may take the checkpoint out.
    pub end: i64,
}

impl Lease {
    /// The lease of a checkpoint that is taken for `lifetime` milliseconds. One without an end ends at the greatest moment.
    pub fn of(checkpoint: &Checkpoint, lifetime: u64) -> Lease
        ensures { result ≡ lease_of lifetime checkpoint.now }
    {
        Lease {
            id: checkpoint.id,
            lifetime,
            end: checkpoint.expire_ms.unwrap_or(i64::MAX),
        }
    }

    /// Whether it is to be renewed at a moment: that is after its end less half its lifetime, rounded down.
    pub fn is_due(&self, moment: i64) -> bool
        ensures { result ≡ is_due moment self.now }
    {
        i128::from(moment) > i128::from(self.end) - i128::from(self.lifetime / 2)
    }
}
