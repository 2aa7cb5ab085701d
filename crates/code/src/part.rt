//! What a code part is.
ghost use Rattle.std.specs.Prelude.{◌≡◌};
ghost use Rattle.code.specs.Part.{Limits, steps, places};
ghost use Rattle.code.specs.declared.part.Ending.{Ending};
ghost use Rattle.code.specs.declared.part.Generator.{Generator};
ghost use Rattle.code.specs.declared.part.Rule.{Rule};

/// The longest word of a part.
pub const LONGEST_WORD: usize = 256;

/// How the coding of a word starts and ends.
#[derive(Clone, Copy, PartialEq, Eq, Debug)]
pub enum Ending {
    /// The coder starts in the state in which it ends: the bits before the word are its last six.
    TailBiting,
    /// Zeros stand before the word, and six follow it.
    ZeroTail,
}

/// A parity polynomial: its degree, and its coefficients below the leading one, bit i for D^i.
#[derive(Clone, Copy, PartialEq, Eq, Debug)]
pub struct Generator {
    pub degree: u8,
    pub taps: u32,
}

/// What a code part means: the lengths of its messages and words, how its code ends, and its parity.
#[derive(Clone, Copy, PartialEq, Eq, Debug)]
pub struct Rule {
    pub message: u16,
    pub word: u16,
    pub ending: Ending,
    pub generator: Generator,
}

/// One separately coded piece of a block. Its answers are those of its rule, so that equal questions are answered alike.
pub trait CodePart {
    ghost rule: { Self → Rule };

    fn message_length(&self) -> usize
        ensures value { result ≡ (rule self.now).message };

    fn word_length(&self) -> usize
        ensures value { result ≡ (rule self.now).word };

    fn ending(&self) -> Ending
        ensures value { result ≡ (rule self.now).ending };

    fn generator(&self) -> Generator
        ensures value { result ≡ (rule self.now).generator };

    /// How many steps the coder takes over a word.
    fn step_count(&self) -> usize
        ensures value { result ≡ steps (rule self.now).ending (rule self.now).word }
    {
        match self.ending() {
            Ending::TailBiting => self.word_length(),
            Ending::ZeroTail => self.word_length() + 6,
        }
    }

    /// How many coded places a word has.
    fn coded_count(&self) -> usize
        ensures value { result ≡ places (rule self.now) }
    {
        3 * self.step_count()
    }

    ghost limits: { (p : Self) → Limits (rule p) };
}
