// Stored log files, whose copies share their batches.
ghost use Rattle.std.specs.Prelude.{◌≡◌, IfOk};

use slate_types::{Batch, NoMemory, Seq};
use std::alloc::{AllocError, Global};
use std::marker::Model;
use std::sync::Arc;

/// A stored log file: its batches, which are never changed. Copies share them. A contract sees the list of batches.
#[derive(Debug)]
pub struct LogFile {
    shared: Arc<Seq<Batch>, Global>,
}

impl Drop for LogFile {
    fn drop(self) {
        let LogFile { shared: _ } = self;
    }
}

impl Model for LogFile {
    ghost use Rattle.std.specs.Prelude.{List};
    ghost use Rattle.std.specs.Arc.{arc_value};
    ghost use Rattle.slate_types.specs.declared.batches.Batch.{Batch};

    ghost Value = { List Batch };

    ghost view = { λ log. arc_value log.shared };
}

/// It shares the batches, and takes no memory. It fails where there are as many copies as there may be.
impl Clone for LogFile {
    ghost is_clone = { λ log copy. copy ≡ log };

    fn clone(&self) -> Result<LogFile, AllocError> {
        Ok(LogFile {
            shared: self.shared.clone()?,
        })
    }
}

impl LogFile {
    /// The log file with these batches. It copies none.
    pub fn new(alloc: Global, batches: Seq<Batch>) -> Result<LogFile, NoMemory>
        ensures { IfOk result (λ log. log ≡ batches) }
    {
        match Arc::new(alloc, batches) {
            Ok(shared) => Ok(LogFile { shared }),
            Err(_refused) => Err(NoMemory),
        }
    }

    /// The batches, in order.
    pub fn batches(&self) -> &[Batch]
        ensures { result.now ≡ self.now }
    {
        self.shared.as_slice()
    }
}
