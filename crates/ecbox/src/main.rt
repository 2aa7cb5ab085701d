//! A console for the codec: one command a line on standard input, each answered on standard output.
#![tactic(auto)]

ghost use Rattle.std.specs.Prelude.{◌≡◌};

mod header;
mod text;

use console::{Console, Misread, Unanswered, alone, answer_lines, bits_word};
use header::{Stages, take_through};
use std::alloc::Global;
use std::io::BufReader;
use text::Stage;

// What a line asks for.
#[derive(Drop)]
enum Command {
    Header(Vec<u8>),
    Help,
}

#[derive(Drop)]
struct HeaderConsole;

impl Console for HeaderConsole {
    type Command = Command;

    ghost carries = { λ old _ new. new ≡ old };

    fn command(heap: Global, line: &str) -> Result<Option<Command>, Misread> {
        let mut words = line.split_ascii_whitespace();
        let Some(name) = words.next() else {
            return Ok(None);
        };
        let command = match name {
            "header" => Command::Header(bits_word(heap, words.next())?),
            "help" => Command::Help,
            _ => return Err(Misread::Unknown),
        };
        alone(command, words.next())
    }

    fn carry_out(&mut self, rt: &HostRuntime, command: Command) -> Result<(), Unanswered> {
        match command {
            Command::Header(message) => {
                let stages = take_through(message.as_slice())?;
                say_stages(rt, message.as_slice(), &stages)?;
            }
            Command::Help => say_help(rt)?,
        }
        Ok(())
    }
}

fn say_stages(rt: &HostRuntime, message: &[u8], stages: &Stages) -> anyhow::Result<()> {
    say_stage(rt, "message", message)?;
    say_stage(rt, "parity", &stages.word[16..])?;
    say_stage(rt, "word", &stages.word)?;
    say_stage(rt, "coded", &stages.coded)?;
    say_stage(rt, "kept", &stages.kept)
}

fn say_stage(rt: &HostRuntime, name: &str, bits: &[u8]) -> anyhow::Result<()> {
    let stage = Stage { name, bits };
    println!(rt; "{stage}")?;
    Ok(())
}

fn say_help(rt: &HostRuntime) -> anyhow::Result<()> {
    println!(rt;
        "header BITS    16 bits of a header: its parity, its coded bits, and those that are sent"
    )?;
    println!(rt; "help           this list")?;
    Ok(())
}

fn main(rt: HostRuntime) -> anyhow::Result<()> {
    let input = BufReader::new(rt.alloc(), rt.stdin())?;
    answer_lines(&rt, &mut HeaderConsole, input)
}
