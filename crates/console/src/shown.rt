//! Bits and refusals as a console writes them.
ghost use Rattle.std.specs.Prelude.{◌≡◌, Some};
ghost use Rattle.console.specs.Line.{bit_code, bit_codes, refusal_line};

use fault::Fault;
use std::fmt;

/// Bits, written 0 and 1, first bit first.
#[derive(Clone, Copy)]
pub struct Bits<'a>(pub &'a [u8]);

impl fmt::Display for Bits<'_> {
    ghost output = { λ bits. Some (bit_codes bits.0.now) };

    fn fmt<W: fmt::Write>(&self, f: &mut fmt::Formatter<W>) -> fmt::Result {
        for bit in self.0 {
            f.write_char(bit_char(*bit))?;
        }
        Ok(())
    }
}

fn bit_char(bit: u8) -> char
    ensures value { result ≡ bit_code bit }
{
    if bit == 0 { '0' } else { '1' }
}

/// A refusal in one line: number, layer, detail.
#[derive(Clone, Copy)]
pub struct Refusal(pub Fault);

impl fmt::Display for Refusal {
    ghost output = { λ refusal. Some (refusal_line refusal.0) };

    fn fmt<W: fmt::Write>(&self, f: &mut fmt::Formatter<W>) -> fmt::Result {
        let number = self.0.number();
        let layer = self.0.layer();
        let detail = self.0.detail();
        write!(f, "refused {number} {layer} {detail}")
    }
}

#[cfg(test)]
mod tests {
    use super::*;
    use fault::PlacementFault;
    use std::test::Fail;

    #[test]
    fn bits_and_a_refusal(rt: HostRuntime) -> Result<(), Fail> {
        let bits = Bits(&[0, 1, 1]).to_string(rt.alloc())?;
        assert_eq!(rt; bits.as_str(), "011");
        let fault = Fault::Placement(PlacementFault::NoSuchBurst { burst: 4 });
        let refusal = Refusal(fault).to_string(rt.alloc())?;
        assert_eq!(rt; refusal.as_str(), "refused 3 placement 4");
        Ok(())
    }
}
