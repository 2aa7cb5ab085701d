//! Lines of an input, each answered on standard output.
ghost use Rattle.std.specs.Prelude.{◌≡◌, ℕ, List, Option, Result, IfSome, OnOk, ⊤};
ghost use Rattle.console.specs.Lines.{LeftByInput, LeftByLine};
ghost use Rattle.console.specs.declared.lines.Unanswered.TheVariants.{Ended, Misread, Refused};
ghost use Rattle.console.specs.declared.misread.Misread.{Misread as Wrong};

use crate::misread::Misread;
use crate::shown::Refusal;
use fault::Fault;
use std::alloc::Global;
use std::io::BufRead;
use std::str::from_utf8;

/// What a console makes of its lines.
pub trait Console {
    type Command: Drop;

    /// What a line of text may be read as.
    ghost reads: { List ℕ → Result (Option Self.Command) Wrong → Type 0 } = { λ _ _. ⊤ };

    /// What a command may leave of the console, however it is answered.
    ghost carries: { Self → Self.Command → Self → Type 0 };

    /// The command of a line, if the line is not blank.
    fn command(heap: Global, line: &str) -> Result<Option<Self::Command>, Misread>
        ensures value { reads line.now result };

    /// Carries out a command and writes its answer.
    fn carry_out(&mut self, rt: &HostRuntime, command: Self::Command) -> Result<(), Unanswered>
        ensures after { carries self.old command self.new };
}

/// Why a line is not answered: it is no command, which is told, or the console ends here.
#[derive(Debug, Drop)]
pub enum Unanswered {
    Misread(Misread),
    /// The codec refused the call.
    Refused(Fault),
    Ended(anyhow::Error),
}

impl From<Misread> for Unanswered {
    ghost from_gives = { λ m r. r ≡ Misread m };

    fn from(misread: Misread) -> Unanswered {
        Unanswered::Misread(misread)
    }
}

impl From<Fault> for Unanswered {
    ghost from_gives = { λ f r. r ≡ Refused f };

    fn from(fault: Fault) -> Unanswered {
        Unanswered::Refused(fault)
    }
}

impl From<anyhow::Error> for Unanswered {
    ghost from_gives = { λ e r. r ≡ Ended e };

    fn from(error: anyhow::Error) -> Unanswered {
        Unanswered::Ended(error)
    }
}

/// Answers the lines of an input, counted from 1, until it ends.
pub fn answer_lines<C: Console, R: BufRead + Drop>(
    rt: &HostRuntime,
    console: &mut C,
    input: R,
) -> anyhow::Result<()>
    ensures after { OnOk result (IfSome (R.remaining input) (LeftByInput C.reads C.carries console.old console.new)) }
{
    for (index, line) in input.split(rt.alloc(), b'\n').enumerate() {
        match answer(rt, console, line?.as_slice()) {
            Ok(()) => {}
            Err(Unanswered::Misread(misread)) => {
                let number = index + 1;
                println!(rt; "error {number} {misread}")?
            }
            Err(Unanswered::Refused(fault)) => println!(rt; "{}", Refusal(fault))?,
            Err(Unanswered::Ended(error)) => return Err(error),
        }
    }
    Ok(())
}

// A line that begins with # is skipped.
fn answer<C: Console>(rt: &HostRuntime, console: &mut C, line: &[u8]) -> Result<(), Unanswered>
    ensures after { LeftByLine C.reads C.carries console.old line.now console.new }
{
    if line.first() == Some(&b'#') {
        return Ok(());
    }
    let text = from_utf8(line).map_err(|_| Misread::NotText)?;
    match C::command(rt.alloc(), text)? {
        Some(command) => console.carry_out(rt, command),
        None => Ok(()),
    }
}

#[cfg(test)]
mod tests {
    use super::*;
    use std::test::Fail;

    // Counts the commands that are carried out; each line with a word is one.
    #[derive(Drop)]
    struct Counter {
        count: usize,
    }

    impl Console for Counter {
        type Command = ();

        ghost carries = { λ _ _ _. ⊤ };

        fn command(_heap: Global, line: &str) -> Result<Option<()>, Misread> {
            Ok(line.split_ascii_whitespace().next().map(|_| ()))
        }

        fn carry_out(&mut self, _rt: &HostRuntime, _command: ()) -> Result<(), Unanswered> {
            self.count = self.count.wrapping_add(1);
            Ok(())
        }
    }

    #[test]
    fn each_line_is_handed_on(rt: HostRuntime) -> Result<(), Fail> {
        let mut counter = Counter { count: 0 };
        let input = "one\n\n# two\n \nthree\n\nfour".as_bytes();
        answer_lines(&rt, &mut counter, input)?;
        assert_eq!(rt; counter.count, 3);
        Ok(())
    }
}
