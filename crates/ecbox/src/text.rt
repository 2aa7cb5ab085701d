//! Stages as the console writes them.
ghost use Rattle.std.specs.Prelude.{Some};
ghost use Rattle.ecbox.specs.Line.{stage_line};

use console::Bits;
use std::fmt;

/// The bits of a stage.
#[derive(Clone, Copy)]
pub struct Stage<'a> {
    pub name: &'a str,
    pub bits: &'a [u8],
}

impl fmt::Display for Stage<'_> {
    ghost output = { λ stage. Some (stage_line stage.name.now stage.bits.now) };

    fn fmt<W: fmt::Write>(&self, f: &mut fmt::Formatter<W>) -> fmt::Result {
        let name = self.name;
        let count = self.bits.len();
        let bits = Bits(self.bits);
        write!(f, "{name} {count} bits {bits}")
    }
}
