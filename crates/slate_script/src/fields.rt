// Cutting a script into lines, and a line into fields.
ghost use Rattle.std.specs.Prelude.{◌≡◌, ◌∷◌, ◌<◌, ◌≤◌, length, map, IfOk, OnOk};
ghost use Rattle.slate_script.specs.Lines.{fields_of, lines_of, is_newline};
ghost use Rattle.std.specs.List.{position_or_len};
ghost use Rattle.std.specs.Str.Lines.{strip_carriage_return};

use bytes::Bytes;
use slate_text::find_byte;
use slate_types::NoMemory;
use std::alloc::Global;

/// The fields of a line: what stands between single spaces. They share the line's storage.
pub fn script_fields<'a>(alloc: Global, line: &'a [u8]) -> Result<Vec<&'a [u8]>, NoMemory>
    ensures { IfOk result (λ fields. map (λ field. field.now) fields.items ≡ fields_of line.now) }
{
    let mut fields = Vec::new(alloc);
    let mut rest = line;
    while let Some(space) = find_byte(rest, b' ') {
        let (field, behind) = rest.split_at(space);
        fields.push(field)?;
        rest = &behind[1..];
    }
    fields.push(rest)?;
    Ok(fields)
}

/// The fields of a line as `script_fields` cuts them, each of which shares the line's storage.
pub(crate) fn cut_fields(alloc: Global, line: Bytes) -> Result<Vec<Bytes>, NoMemory>
    ensures { IfOk result (λ fields. fields.items ≡ fields_of line) }
{
    let mut fields = Vec::new(alloc);
    let mut rest = line;
    while let Some(space) = find_byte(rest.as_slice(), b' ') {
        fields.push(rest.split_to(space)?)?;
        rest.advance(1);
    }
    fields.push(rest)?;
    Ok(fields)
}

// How many bytes stand before the first newline, or at all where there is none.
fn end_of_line(bytes: &[u8]) -> usize
    ensures { result ≡ position_or_len is_newline bytes.now }
{
    find_byte(bytes, b'\n').unwrap_or(bytes.len())
}

// The line without one carriage return at its end.
fn without_carriage_return(mut line: Bytes) -> Bytes
    ensures { result ≡ strip_carriage_return line }
{
    let length = line.len();
    if length > 0 && line.as_slice()[length - 1] == b'\r' {
        line.truncate(length - 1);
    }
    line
}

/// Takes the first line off the rest of a script.
pub(crate) fn take_line(rest: &mut Bytes) -> Result<Bytes, NoMemory>
    requires { 0 < length rest.old }
    ensures line { IfOk result (λ line. lines_of rest.old ≡ line ∷ lines_of rest.new) }
    ensures shorter { OnOk result (length rest.new < length rest.old) }
{
    let line = rest.split_to(end_of_line(rest.as_slice()))?;
    if !rest.is_empty() {
        rest.advance(1);
    }
    Ok(without_carriage_return(line))
}
