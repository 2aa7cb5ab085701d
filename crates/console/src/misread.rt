//! Why a line is no command.
ghost use Rattle.std.specs.Prelude.{◌≡◌, Some};
ghost use Rattle.console.specs.Misread.{misread_text};
ghost use Rattle.console.specs.declared.misread.Misread.TheVariants.{NoMemory};

use std::alloc::AllocFailed;
use std::fmt;

/// What is wrong with a line, first as it is read from left to right.
#[derive(Clone, Copy, PartialEq, Eq, Debug)]
pub enum Misread {
    NotText,
    Unknown,
    NoName,
    NoSuchBlock,
    NoBits,
    NotBits,
    NoNumber,
    NotANumber,
    TooManyWords,
    NoBlock,
    NoMemory,
}

impl<T: Drop> From<AllocFailed<T>> for Misread {
    ghost from_gives = { λ _ r. r ≡ NoMemory };

    fn from(_error: AllocFailed<T>) -> Misread {
        Misread::NoMemory
    }
}

impl fmt::Display for Misread {
    ghost output = { λ misread. Some (misread_text misread) };

    fn fmt<W: fmt::Write>(&self, f: &mut fmt::Formatter<W>) -> fmt::Result {
        f.write_str(match self {
            Misread::NotText => "the line is not text",
            Misread::Unknown => "there is no such command: try help",
            Misread::NoName => "the name of a block is missing",
            Misread::NoSuchBlock => "there is no such block: try help",
            Misread::NoBits => "the bits are missing",
            Misread::NotBits => "bits are written 0 and 1",
            Misread::NoNumber => "a number is missing",
            Misread::NotANumber => "numbers are whole, from 0 to 18446744073709551615",
            Misread::TooManyWords => "there are more words than the command takes",
            Misread::NoBlock => "there is no block yet: name one with block",
            Misread::NoMemory => "there is no memory for the line",
        })
    }
}
