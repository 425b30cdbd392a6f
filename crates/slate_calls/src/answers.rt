// What calls answer, and how it is printed.
use crate::call_line::CallLine;
use bytes::Bytes;
use slate_errors::SlateError;
use slate_model::error_of_refusal;
use slate_rows::{ReadFault, SeekFault};
use slate_seqtrack::TrackerFault;
use slate_store::StoreRefusal;
use slate_types::{KeyValue, NoMemory, Seq, StoreError};
use std::alloc::{AllocError, AllocFailed};

/// What a call answers.
pub trait Answer {
    /// Prints it as the answer of a line, behind what stands there.
    fn print(self, line: &mut CallLine<'_>);
}

impl Answer for () {
    fn print(self, _line: &mut CallLine<'_>) {}
}

impl Answer for u64 {
    fn print(self, line: &mut CallLine<'_>) {
        line.print_number(self);
    }
}

impl Answer for i64 {
    fn print(self, line: &mut CallLine<'_>) {
        line.print_time(self);
    }
}

impl Answer for Bytes {
    fn print(self, line: &mut CallLine<'_>) {
        line.print_bytes(self.as_slice());
    }
}

impl Answer for KeyValue {
    fn print(self, line: &mut CallLine<'_>) {
        line.print_row(&self);
    }
}

impl Answer for Seq<KeyValue> {
    fn print(self, line: &mut CallLine<'_>) {
        line.print_rows(self.as_slice());
    }
}

impl<T: Answer> Answer for Option<T> {
    fn print(self, line: &mut CallLine<'_>) {
        match self {
            Some(value) => value.print(line),
            None => line.print_text("none"),
        }
    }
}

impl<T: Answer, E: Answer> Answer for Result<T, E> {
    fn print(self, line: &mut CallLine<'_>) {
        match self {
            Ok(value) => value.print(line),
            Err(fault) => fault.print(line),
        }
    }
}

impl Answer for SlateError {
    fn print(self, line: &mut CallLine<'_>) {
        line.print_error(&self);
    }
}

impl Answer for StoreRefusal {
    fn print(self, line: &mut CallLine<'_>) {
        error_of_refusal(self).print(line);
    }
}

impl Answer for StoreError {
    fn print(self, line: &mut CallLine<'_>) {
        match self {
            StoreError::NotFound => line.print_text("not found"),
            StoreError::Exists => line.print_text("exists"),
            StoreError::Failed => line.print_text("failed"),
            StoreError::NoMemory => line.no_memory(),
        }
    }
}

impl Answer for ReadFault {
    fn print(self, line: &mut CallLine<'_>) {
        line.print_fault(&self);
    }
}

impl Answer for SeekFault {
    fn print(self, line: &mut CallLine<'_>) {
        line.print_fault(&self);
    }
}

impl Answer for TrackerFault {
    fn print(self, line: &mut CallLine<'_>) {
        match self {
            TrackerFault::NoMemory => line.no_memory(),
            fault => line.print_fault(&fault),
        }
    }
}

impl Answer for NoMemory {
    fn print(self, line: &mut CallLine<'_>) {
        line.no_memory();
    }
}

impl Answer for AllocError {
    fn print(self, line: &mut CallLine<'_>) {
        line.no_memory();
    }
}

impl<T: Drop> Answer for AllocFailed<T> {
    fn print(self, line: &mut CallLine<'_>) {
        line.no_memory();
    }
}
