// Reading a source to its end, and writing a whole text to a sink.
ghost use Rattle.std.specs.Prelude.{◌≡◌, ◌<◌, ◌≤◌, false, IsErrOf, IfOk, vec_len};
ghost use Rattle.slate_types.specs.Counts.{HasRisen};
ghost use Rattle.slate_types.specs.Modelled.{WhereModelled};
ghost use Rattle.slate_streams.specs.declared.whole.InputFault.TheVariants.{NoMemory as OutOfMemory};
ghost use Rattle.slate_streams.specs.Whole.{ReadsWhole, WritesWhole};

use crate::{ReadAnswer, Sink, Source, WriteAnswer};
use std::alloc::{AllocError, Global};

/// How many bytes a read has room for.
const ROOM: usize = 65_536;

/// Why a source was not read to its end.
#[derive(Clone, Copy, Debug, PartialEq, Eq)]
pub enum InputFault {
    /// The source failed.
    Failed,
    /// More bytes than the limit came.
    TooLong,
    /// Memory ran out.
    NoMemory,
}

impl From<AllocError> for InputFault {
    ghost from_gives = { λ _ fault. fault ≡ OutOfMemory };

    fn from(_error: AllocError) -> InputFault {
        InputFault::NoMemory
    }
}

/// Reads a source to its end, and answers all bytes that it had left. It takes time linear in them.
///
/// It answers `Failed` only where the source failed in this call, and `TooLong` exactly where more than `limit` bytes
/// came. After a fault the source has lost the bytes that came.
pub fn read_whole<I: Source>(
    alloc: Global,
    source: &mut I,
    limit: usize,
) -> Result<Vec<u8>, InputFault>
    ensures faults { I.faults source.old ≤ I.faults source.new }
    ensures failed { IsErrOf result InputFault.Failed → HasRisen (I.faults source.old) (I.faults source.new) }
    ensures limit { IfOk result (λ bytes. vec_len bytes ≤ limit) }
    ensures where_modelled { WhereModelled (ReadsWhole limit result) (I.left source.old) (I.left source.new) }
{
    let mut room = make_room(alloc)?;
    let room = room.as_mut_slice();
    let mut bytes = Vec::new(alloc);
    loop {
        match source.read(room) {
            ReadAnswer::Got(count) => {
                if count > limit - bytes.len() {
                    return Err(InputFault::TooLong);
                }
                bytes.extend_from_slice(&room[..count])?;
            }
            ReadAnswer::End => return Ok(bytes),
            ReadAnswer::Failed => return Err(InputFault::Failed),
        }
    }
}

/// Room for what one read hands over.
fn make_room(alloc: Global) -> Result<Vec<u8>, AllocError>
    ensures { IfOk result (λ room. 0 < vec_len room) }
{
    vec![in alloc; 0u8; ROOM]
}

/// Writes a whole text to a sink, and answers whether it is written. It takes no memory.
///
/// It answers false only where the sink failed in this call; a part of the text from its front is then written.
pub fn write_whole<O: Sink>(sink: &mut O, text: &[u8]) -> bool
    ensures faults { O.faults sink.old ≤ O.faults sink.new }
    ensures failed { result ≡ false → HasRisen (O.faults sink.old) (O.faults sink.new) }
    ensures where_modelled { WhereModelled (WritesWhole result text.now) (O.written sink.old) (O.written sink.new) }
{
    let mut count = 0;
    while count < text.len() {
        match sink.write(&text[count..]) {
            WriteAnswer::Took(more) => count += more,
            WriteAnswer::Failed => return false,
        }
    }
    true
}
