//! The six parts that are coded here.
ghost use Rattle.std.specs.Prelude.{◌≡◌};
ghost use Rattle.code.specs.Parts.{rule_of};
ghost use Rattle.code.specs.Limits.{table_limits};

use crate::part::{CodePart, Ending, Generator, Rule};

/// One of the six parts.
#[derive(Clone, Copy, PartialEq, Eq, Debug)]
pub enum EcPart {
    /// CCCH/D
    CcchDown,
    /// PACCH/D
    PacchDown,
    /// PACCH/U
    PacchUp,
    /// PACCH/U/48
    PacchUp48,
    /// Part 0 of MCS-1'/48
    McsHeader,
    /// Part 1 of MCS-1'/48
    McsData,
}

// D^18 + D^17 + D^14 + D^13 + D^11 + D^10 + D^8 + D^7 + D^6 + D^3 + D^2 + 1
const CONTROL: Generator = Generator {
    degree: 18,
    taps: 0b10_0110_1101_1100_1101,
};
// D^8 + D^6 + D^3 + 1
const HEADER: Generator = Generator {
    degree: 8,
    taps: 0b0100_1001,
};
// D^12 + D^11 + D^10 + D^8 + D^5 + D^4 + 1
const DATA: Generator = Generator {
    degree: 12,
    taps: 0b1101_0011_0001,
};

const RULES: [Rule; 6] = [
    Rule {
        message: 88,
        word: 106,
        ending: Ending::TailBiting,
        generator: CONTROL,
    },
    Rule {
        message: 80,
        word: 98,
        ending: Ending::TailBiting,
        generator: CONTROL,
    },
    Rule {
        message: 64,
        word: 82,
        ending: Ending::TailBiting,
        generator: CONTROL,
    },
    Rule {
        message: 56,
        word: 74,
        ending: Ending::TailBiting,
        generator: CONTROL,
    },
    Rule {
        message: 16,
        word: 24,
        ending: Ending::TailBiting,
        generator: HEADER,
    },
    Rule {
        message: 178,
        word: 190,
        ending: Ending::ZeroTail,
        generator: DATA,
    },
];

impl EcPart {
    /// What the part means, by the table.
    pub fn rule(self) -> Rule
        ensures value { result ≡ rule_of self }
    {
        RULES[self as usize]
    }
}

impl CodePart for EcPart {
    ghost rule = { λ p. rule_of p };

    ghost limits = { λ p. table_limits p };

    fn message_length(&self) -> usize {
        usize::from(self.rule().message)
    }

    fn word_length(&self) -> usize {
        usize::from(self.rule().word)
    }

    fn ending(&self) -> Ending {
        self.rule().ending
    }

    fn generator(&self) -> Generator {
        self.rule().generator
    }
}
