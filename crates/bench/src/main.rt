// The console of the bench: commands from standard input, one to a line, and their answers.
#![tactic(auto)]

mod answers;
mod commands;
mod complaints;
mod console;
mod memories;
mod names;
mod numbers;
mod parsing;
mod showing;

use answers::Answer;
use complaints::Complaint;
use console::Console;
use std::io::{BufRead, BufReader};

// What a line answers; nothing where it is blank or a comment.
fn answer_to<'a>(console: &'a mut Console, line: &[u8]) -> Result<Option<Answer<'a>>, Complaint> {
    let text = std::str::from_utf8(line)?;
    parsing::parse(console.heap(), text)?
        .map(|command| console.obey(command))
        .transpose()
}

fn respond(
    rt: &HostRuntime,
    console: &mut Console,
    number: u64,
    line: &[u8],
) -> anyhow::Result<()> {
    match answer_to(console, line) {
        // An image without bytes has no rows.
        Ok(None | Some(Answer::Image([]))) => Ok(()),
        Ok(Some(answer)) => Ok(println!(rt; "{answer}")?),
        Err(complaint) if complaint.is_refusal() => Ok(println!(rt; "{complaint}")?),
        Err(complaint) => Ok(println!(rt; "error line {number}: {complaint}")?),
    }
}

fn run(rt: &HostRuntime) -> anyhow::Result<()> {
    let mut console = Console::new(rt.alloc())?;
    let lines = BufReader::new(rt.alloc(), rt.stdin())?.split(rt.alloc(), b'\n');
    for (number, line) in (1u64..).zip(lines) {
        let line = line?;
        respond(rt, &mut console, number, line.as_slice())?;
    }
    Ok(())
}

fn main(rt: HostRuntime) -> anyhow::Result<()> {
    run(&rt)
}
