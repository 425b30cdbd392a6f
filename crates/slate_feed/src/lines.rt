// Reading a line of a script with feeds as the command that its fields spell.
ghost use Rattle.std.specs.Prelude.{◌≡◌, IfOk};
ghost use Rattle.slate_feed.specs.Lines.{feed_command_of, next_form, open_form, short_of, timed};

use crate::commands::FeedCommand;
use bytes::Bytes;
use slate_script::{Command, FromFields};
use slate_text::{read_moment, read_number};
use slate_types::NoMemory;
use std::alloc::Global;

fn read_open(fields: &[Bytes]) -> Option<FeedCommand>
    ensures form { result ≡ open_form fields.now }
{
    let [after] = fields else {
        return None;
    };
    let after = read_number(after.as_slice())?;
    Some(FeedCommand::Open { after })
}

/// A number below 2^32.
fn read_short(field: &[u8]) -> Option<u32>
    ensures { result ≡ short_of field.now }
{
    u32::try_from(read_number(field)?).ok()
}

fn read_next(fields: &[Bytes]) -> Option<FeedCommand>
    ensures form { result ≡ next_form fields.now }
{
    let [feed, limit] = fields else {
        return None;
    };
    let feed = read_number(feed.as_slice())?;
    let limit = read_short(limit.as_slice())?;
    Some(FeedCommand::Next { feed, limit })
}

/// A command behind a moment.
fn read_timed(moment: &[u8], command: Option<FeedCommand>) -> Option<FeedCommand>
    ensures { result ≡ timed moment.now command }
{
    read_moment(moment)?;
    command
}

fn read_command(alloc: Global, fields: &[Bytes]) -> Result<Option<FeedCommand>, NoMemory>
    ensures form { IfOk result (λ command. command ≡ feed_command_of fields.now) }
{
    if let [moment, name, rest @ ..] = fields {
        if name.as_slice() == b"feed".as_slice() {
            return Ok(read_timed(moment.as_slice(), read_open(rest)));
        }
        if name.as_slice() == b"next".as_slice() {
            return Ok(read_timed(moment.as_slice(), read_next(rest)));
        }
    }
    match Command::from_fields(alloc, fields)? {
        Some(command) => Ok(Some(FeedCommand::Run(command))),
        None => Ok(None),
    }
}

impl FromFields for FeedCommand {
    ghost use Rattle.slate_feed.specs.Lines.{feed_command_of as spelled_command};

    ghost spelled = { spelled_command };

    fn from_fields(alloc: Global, fields: &[Bytes]) -> Result<Option<FeedCommand>, NoMemory> {
        read_command(alloc, fields)
    }
}
