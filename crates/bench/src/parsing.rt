// The grammar of the console: a line read as a command.
use crate::commands::Command;
use crate::complaints::Complaint;
use crate::names;
use crate::numbers::{bytes, end, number, number_of, word};
use assembler::LARGEST_IMAGE;
use histories::Action;
use machine::{Layout, ServiceRange};
use std::alloc::Global;
use std::array;
use std::str::SplitWhitespace;

// The largest buffer that the console makes.
const MOST_BYTES: usize = 0x10_0000;

fn size_of(text: &str) -> Result<usize, Complaint> {
    let size = number_of(text)?;
    if size > MOST_BYTES {
        return Err(Complaint::TooLarge);
    }
    Ok(size)
}

fn memory(words: &mut SplitWhitespace<'_>) -> Result<Command, Complaint> {
    match word(words)? {
        "flat" => Ok(Command::FlatMemory(size_of(word(words)?)?)),
        "mapped" => Ok(Command::MappedMemory(
            size_of(word(words)?)?,
            array::try_from_fn(|_| number(words))?,
        )),
        _ => Err(Complaint::UnknownName),
    }
}

fn range(words: &mut SplitWhitespace<'_>) -> Result<ServiceRange, Complaint> {
    Ok(ServiceRange {
        low: number(words)?,
        high: number(words)?,
    })
}

fn layout(words: &mut SplitWhitespace<'_>) -> Result<Layout, Complaint> {
    Ok(Layout {
        text: number(words)?,
        service: range(words)?,
    })
}

// An action of a rehearsal: `request`, `step` or `run:BUDGET`.
// No FromStr, as the type is the histories crate's and the complaints are the grammar's.
fn action_of(word: &str) -> Result<Action, Complaint> {
    match word {
        "request" => Ok(Action::Request),
        "step" => Ok(Action::Step),
        _ => {
            let budget = word.strip_prefix("run:").ok_or(Complaint::UnknownName)?;
            Ok(Action::Run(number_of(budget)?))
        }
    }
}

fn actions(heap: Global, words: &mut SplitWhitespace<'_>) -> Result<Vec<Action>, Complaint> {
    words.map(action_of).try_collect(heap)
}

fn command(
    heap: Global,
    name: &str,
    words: &mut SplitWhitespace<'_>,
) -> Result<Command, Complaint> {
    Ok(match name {
        "read" => Command::Read(number(words)?),
        "write" => Command::Write(names::instruction(words)?),
        "memory" => memory(words)?,
        "byte" => Command::Byte(number(words)?),
        "store" => Command::Store(number(words)?, number(words)?),
        "checksum" => Command::Checksum,
        "listing" => Command::Listing(bytes(heap, words)?),
        "more" => Command::More(bytes(heap, words)?),
        "assemble" => Command::Assemble(words.next().map_or(Ok(LARGEST_IMAGE), size_of)?),
        "image" => Command::Image(bytes(heap, words)?),
        "dump" => Command::Dump,
        "load" => Command::Load(layout(words)?),
        "request" => Command::Request,
        "step" => Command::Step,
        "run" => Command::Run(number(words)?),
        "counter" => Command::Counter,
        "registers" => Command::Registers,
        "register" => Command::Register(number(words)?),
        "owing" => Command::Owing,
        "rehearse" => Command::Rehearse(range(words)?, actions(heap, words)?),
        _ => return Err(Complaint::UnknownCommand),
    })
}

// The command of a line; none where it is blank or a comment.
pub(crate) fn parse(heap: Global, line: &str) -> Result<Option<Command>, Complaint> {
    let mut words = line.split_whitespace();
    let Some(name) = words.next().filter(|name| !name.starts_with('#')) else {
        return Ok(None);
    };
    let command = command(heap, name, &mut words)?;
    end(&mut words)?;
    Ok(Some(command))
}
