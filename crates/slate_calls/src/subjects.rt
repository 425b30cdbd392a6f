// The things that files call, and why a line can't be called.
use crate::call_line::CallLine;
use std::alloc::Global;

/// Why a call gives no answer.
#[derive(Clone, Copy)]
pub enum CallFailure {
    /// The words spell no call of the subject.
    Unread,
    /// Memory ran out.
    Memory,
}

/// What a file calls.
pub trait Subject: Drop {
    /// A fresh one in place of this one.
    fn anew(&self, alloc: Global) -> Self;

    /// Makes the call that the words of a line spell, one of those that `docs/FORMATS.md` lists, and prints its answer.
    fn call(&mut self, line: &mut CallLine<'_>);
}
