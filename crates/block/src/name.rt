//! The names of the five blocks.
ghost use Rattle.std.specs.Prelude.{Some};
ghost use Rattle.block.specs.Names.{block_name, Named};

use crate::blocks::EcBlock;
use std::fmt;
use std::str::FromStr;

/// A text that is no block's name.
#[derive(Clone, Copy, PartialEq, Eq, Debug)]
pub struct UnknownBlock;

impl fmt::Display for EcBlock {
    ghost output = { λ b. Some (block_name b) };

    fn fmt<W: fmt::Write>(&self, f: &mut fmt::Formatter<W>) -> fmt::Result {
        f.write_str(match self {
            EcBlock::CcchDown => "CCCH/D",
            EcBlock::PacchDown => "PACCH/D",
            EcBlock::PacchUp => "PACCH/U",
            EcBlock::PacchUp48 => "PACCH/U/48",
            EcBlock::Mcs => "MCS-1'/48",
        })
    }
}

impl FromStr for EcBlock {
    type Err = UnknownBlock;

    ghost from_str_gives = { Named };

    fn from_str(name: &str) -> Result<EcBlock, UnknownBlock> {
        match name {
            "CCCH/D" => Ok(EcBlock::CcchDown),
            "PACCH/D" => Ok(EcBlock::PacchDown),
            "PACCH/U" => Ok(EcBlock::PacchUp),
            "PACCH/U/48" => Ok(EcBlock::PacchUp48),
            "MCS-1'/48" => Ok(EcBlock::Mcs),
            _ => Err(UnknownBlock),
        }
    }
}
