//! Laws of sending, each the contract of a function.
ghost use Rattle.sender.specs.Sent.{EveryMessageIsSentInOneWay};

/// Every message of a block within its limits has one sending and no other, and all its bytes are bits.
pub fn every_message_is_sent_in_one_way()
    ensures law { EveryMessageIsSentInOneWay }
{}
