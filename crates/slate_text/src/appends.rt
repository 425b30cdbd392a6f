// Writing at the end of a text, and cutting back what isn't whole.
ghost use Rattle.std.specs.Prelude.{◌≡◌, ◌++◌, take, OnOk, OnErr};

use slate_types::NoMemory;

/// Hands on the result of writing at the end of a text. Where memory ran out, it first cuts the text back to `length`
/// bytes, so that a text which was so long before is as it was. It takes no memory.
pub fn cut_back(
    out: &mut Vec<u8>,
    length: usize,
    written: Result<(), NoMemory>,
) -> Result<(), NoMemory>
    ensures same { result ≡ written }
    ensures ok { OnOk result (out.new.items ≡ out.old.items) }
    ensures err { OnErr result (out.new.items ≡ take length out.old.items) }
{
    if written.is_err() {
        out.truncate(length);
    }
    written
}

/// Writes a text at the end. Where memory runs out, nothing was written.
pub fn write_text(out: &mut Vec<u8>, text: &str) -> Result<(), NoMemory>
    ensures ok { OnOk result (out.new.items ≡ out.old.items ++ text.now) }
    ensures err { OnErr result (out.new.items ≡ out.old.items) }
{
    out.extend_from_slice(text.as_bytes())?;
    Ok(())
}
