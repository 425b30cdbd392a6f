// The lines on the readers of a live session.
ghost use Rattle.std.specs.Prelude.{◌≡◌, ◌++◌, All, OnOk};
ghost use Rattle.slate_published.specs.States.{last_of};
ghost use Rattle.slate_readers.specs.Session.{reader_text, readers_text};

use slate_published::FollowerReader;
use slate_text::{write_number, write_text};
use slate_types::NoMemory;

/// Writes a line for each reader, all of which have seen states up to one with this number.
pub(crate) fn print_readers(
    out: &mut Vec<u8>,
    readers: &[FollowerReader],
    number: u64,
) -> Result<(), NoMemory>
    requires { All (λ reader. (last_of reader.states).number ≡ number) readers.now }
    ensures { OnOk result (out.new.items ≡ out.old.items ++ readers_text 0 readers.now) }
{
    for place in 0..readers.len() {
        print_reader(out, place as u64, number)?;
    }
    Ok(())
}

/// Writes the line of a reader.
fn print_reader(out: &mut Vec<u8>, place: u64, number: u64) -> Result<(), NoMemory>
    ensures { OnOk result (out.new.items ≡ out.old.items ++ reader_text place number) }
{
    write_text(out, "reader ")?;
    write_number(out, place)?;
    write_text(out, " at ")?;
    write_number(out, number)?;
    write_text(out, "\n")?;
    Ok(())
}
