//! Laws of parity, each the contract of a function.
ghost use Rattle.parity.specs.Division.{OneRemainder};
ghost use Rattle.parity.specs.Parity.{OneWord};

/// A division leaves one remainder, and no other.
pub fn division_leaves_one_remainder()
    ensures law { OneRemainder }
{}

/// Every message of a part has one word with right parity, and no other.
pub fn every_message_has_one_word()
    ensures law { OneWord }
{}
