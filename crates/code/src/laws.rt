//! Laws of the code, each the contract of a function.
ghost use Rattle.code.specs.Convolution.{CodingIsLinear};

/// The coded bits of a sum of two words are the sums of their coded bits.
pub fn coding_is_linear()
    ensures law { CodingIsLinear }
{}
