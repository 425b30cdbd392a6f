// How what calls of handles, readers and streams answer is printed, where a type of another crate says it.
use crate::answers::Answer;
use crate::call_line::CallLine;
use crate::tasks::print_names;
use slate_errors::{Ended, Error, SlateError};
use slate_model::{PollAnswer, Written};
use slate_replay::Replayed;
use slate_rows::{DbIterator, DbRecencyIterator};
use slate_streams::InputFault;
use slate_types::{Batch, Seq};

impl Answer for Replayed {
    fn print(self, line: &mut CallLine<'_>) {
        match self {
            Replayed::Whole => line.print_text("whole "),
            Replayed::Truncated(id) => {
                line.print_text("truncated at ");
                line.print_number(id);
                line.print_text(" ");
            }
        }
    }
}

impl Answer for Seq<Batch> {
    fn print(self, line: &mut CallLine<'_>) {
        line.print_text("batches ");
        line.print_number(self.as_slice().len() as u64);
        for batch in self.as_slice() {
            line.print_text("; batch ");
            line.print_number(batch.number);
            line.print_text(" created ");
            line.print_time(batch.create_ts);
            line.print_text(" ops ");
            line.print_number(batch.ops.as_slice().len() as u64);
        }
    }
}

impl Answer for Error {
    fn print(self, line: &mut CallLine<'_>) {
        line.print_text("error ");
        line.print_public(&self);
    }
}

/// The number of a write.
impl Answer for Written {
    fn print(self, line: &mut CallLine<'_>) {
        line.print_number(self.number);
    }
}

/// The names of the tasks that a close ended, or its error.
impl Answer for Ended {
    fn print(self, line: &mut CallLine<'_>) {
        match &self.fault {
            Some(error) => line.print_error(error),
            None => print_names(self.tasks.names(), line),
        }
    }
}

/// The rows of a scan, or the fault that ends them.
impl Answer for DbIterator {
    fn print(self, line: &mut CallLine<'_>) {
        match self.into_rows(line.alloc()) {
            Ok(rows) => line.print_rows(rows.as_slice()),
            Err(fault) => SlateError::from(fault).print(line),
        }
    }
}

/// The keys of operations with their numbers, as `key@number`, at most a hundred.
impl Answer for DbRecencyIterator {
    fn print(self, line: &mut CallLine<'_>) {
        let mut found = self;
        for _ in 0..100 {
            let Some(entry) = found.next_entry() else {
                break;
            };
            line.print_blank();
            line.print_bytes(entry.key.as_slice());
            line.print_text("@");
            line.print_number(entry.seq);
        }
    }
}

impl Answer for PollAnswer {
    fn print(self, line: &mut CallLine<'_>) {
        match self {
            PollAnswer::Whole { at } => {
                line.print_text("whole at ");
                line.print_number(at);
            }
            PollAnswer::Truncated { at } => {
                line.print_text("truncated at ");
                line.print_number(at);
            }
        }
    }
}

impl Answer for InputFault {
    fn print(self, line: &mut CallLine<'_>) {
        match self {
            InputFault::Failed => line.print_text("failed"),
            InputFault::TooLong => line.print_text("too long"),
            InputFault::NoMemory => line.no_memory(),
        }
    }
}
