//! Division of polynomials over GF(2), bit by bit.
ghost use Rattle.std.specs.Prelude.{◌≡◌, ℕ, ◌^◌, ◌<◌, fold, replicate, bit_xor};
ghost use Rattle.code.specs.Bits.{Bits};
ghost use Rattle.code.specs.Part.{Sound};
ghost use Rattle.parity.specs.Division.{Leaves, all_ones};
ghost use Rattle.parity.specs.Register.{next};

use code::Generator;

/// The register of a division: the polynomial that divides, and what is left of the bits taken so far.
#[derive(Drop)]
pub struct Register {
    generator: Generator,
    left: u32,
    ghost sound: { Sound generator },
    ghost small: { left < 2 ^ generator.degree },
}

impl Register {
    /// The register of a division by the generator, once it has taken the bits.
    pub fn after(generator: Generator, bits: &[u8]) -> Self
        requires sound { Sound generator }
        requires binary { Bits bits.now }
        ensures divisor { result.generator ≡ generator }
        ensures value { Leaves generator bits.now result.left }
        ensures only { (s : ℕ) → Leaves generator bits.now s → s ≡ result.left }
    {
        let mut register = Register { generator, left: 0 };
        for bit in bits {
            register.take(*bit);
        }
        register
    }

    // Takes one more bit.
    fn take(&mut self, bit: u8)
        requires binary { bit < 2 }
        ensures divisor { self.new.generator ≡ self.old.generator }
        ensures left { self.new.left ≡ next self.old.generator self.old.left bit }
    {
        let shifted = 2 * self.left + u32::from(bit);
        let leading = 1 << self.generator.degree;
        self.left = if shifted < leading {
            shifted
        } else {
            (shifted - leading) ^ self.generator.taps
        };
    }

    /// Takes a zero for each power below the polynomial's degree.
    pub fn take_zeros(&mut self)
        ensures divisor { self.new.generator ≡ self.old.generator }
        ensures left { self.new.left ≡ fold (next self.old.generator) self.old.left (replicate self.old.generator.degree 0) }
    {
        for _zero in 0..self.generator.degree {
            self.take(0);
        }
    }

    /// What must be added to what is left before every coefficient is 1.
    #[tactic(auto, using(std::proofs::lemmas::Nat::xor_lt))]
    pub fn missing(&self) -> u32
        ensures bound { result < 2 ^ self.now.generator.degree }
        ensures value { result ≡ bit_xor self.now.left (all_ones self.now.generator) }
    {
        self.left ^ ((1 << self.generator.degree) - 1)
    }
}
