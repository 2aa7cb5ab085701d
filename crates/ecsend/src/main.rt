//! A console for the codec: one command a line on standard input, each answered on standard output.
#![tactic(auto)]

ghost use Rattle.ecsend.specs.Session.{BlockNamed};

mod command;
mod text;

use block::{Block, EcBlock, MOST_BURSTS};
use command::{Call, Command, block_word, number_word};
use console::{Console, Misread, Unanswered, alone, answer_lines, bits_word};
use fault::Fault;
use placement::BURST;
use sender::send;
use std::alloc::Global;
use std::io::BufReader;
use text::Answer;
use timeslot::Schedule;

// The block that was named last, which calls are for.
#[derive(Drop)]
struct SendingConsole {
    block: Option<EcBlock>,
}

impl Console for SendingConsole {
    type Command = Command;

    ghost carries = { BlockNamed };

    fn command(heap: Global, line: &str) -> Result<Option<Command>, Misread> {
        let mut words = line.split_ascii_whitespace();
        let Some(name) = words.next() else {
            return Ok(None);
        };
        let command = match name {
            "block" => Command::Block(block_word(words.next())?),
            "send" => Command::Call(Call::Send(bits_word(heap, words.next())?)),
            "slot" => Command::Call(Call::Slot {
                total: number_word(words.next())?,
                slots: number_word(words.next())?,
                repeat: number_word(words.next())?,
                burst: number_word(words.next())?,
            }),
            "repeat" => Command::Call(Call::Repeat {
                total: number_word(words.next())?,
                slots: number_word(words.next())?,
                burst: number_word(words.next())?,
                slot: number_word(words.next())?,
            }),
            "help" => Command::Help,
            _ => return Err(Misread::Unknown),
        };
        alone(command, words.next())
    }

    fn carry_out(&mut self, rt: &HostRuntime, command: Command) -> Result<(), Unanswered> {
        match command {
            Command::Block(block) => {
                self.block = Some(block);
                say(rt, Answer::Block(block))?;
            }
            Command::Call(call) => make(rt, self.block.ok_or(Misread::NoBlock)?, call)?,
            Command::Help => say_help(rt)?,
        }
        Ok(())
    }
}

// Makes a call on a block.
fn make(rt: &HostRuntime, block: EcBlock, call: Call) -> Result<(), Unanswered> {
    let schedule = |total, slots| Schedule {
        block,
        total,
        slots,
    };
    match call {
        Call::Send(message) => say_bursts(rt, block, message.as_slice())?,
        Call::Slot {
            total,
            slots,
            repeat,
            burst,
        } => {
            let (burst, slot) = schedule(total, slots).to_timeslot(repeat, burst)?;
            say(rt, Answer::Slot { burst, slot })?;
        }
        Call::Repeat {
            total,
            slots,
            burst,
            slot,
        } => {
            let (repeat, burst) = schedule(total, slots).from_timeslot(burst, slot)?;
            say(rt, Answer::Repeat { repeat, burst })?;
        }
    }
    Ok(())
}

// Sends a message and writes its bursts.
fn say_bursts(rt: &HostRuntime, block: EcBlock, message: &[u8]) -> Result<(), Unanswered> {
    let mut buffer = [0; MOST_BURSTS * BURST];
    let bursts = &mut buffer[..BURST * block.burst_count()];
    send(&block, message, bursts).map_err(Fault::from)?;
    for (number, places) in bursts.chunks(BURST).enumerate() {
        say(rt, Answer::Burst { number, places })?;
    }
    Ok(())
}

fn say(rt: &HostRuntime, answer: Answer<'_>) -> anyhow::Result<()> {
    println!(rt; "{answer}")?;
    Ok(())
}

fn say_help(rt: &HostRuntime) -> anyhow::Result<()> {
    println!(rt;
        "block NAME          the block to code: CCCH/D, PACCH/D, PACCH/U, PACCH/U/48 or MCS-1'/48"
    )?;
    println!(rt; "send BITS           the bursts of a message")?;
    println!(rt; "slot M P m B        where burst B of repeat m goes, of M repeats on P slots")?;
    println!(rt; "repeat M P B' PN    the repeat and burst that burst B' of slot PN is")?;
    println!(rt; "help                this list")?;
    Ok(())
}

fn main(rt: HostRuntime) -> anyhow::Result<()> {
    let input = BufReader::new(rt.alloc(), rt.stdin())?;
    answer_lines(&rt, &mut SendingConsole { block: None }, input)
}
