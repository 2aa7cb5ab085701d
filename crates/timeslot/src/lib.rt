//! Timeslots: which burst of which slot carries a burst of a repeat of a block, and back.
#![tactic(auto)]

ghost use Rattle.std.specs.Prelude.{◌≡◌, ◌<◌, IfOk, Ok};
ghost use Rattle.fault.specs.Check.{unless};
ghost use Rattle.fault.specs.declared.TimingFault.TheVariants.{Slots};
ghost use Rattle.block.specs.Blocks.{layout_of};
ghost use Rattle.timeslot.specs.Timeslot.{total_permitted, slots_permitted, slots_used, timeslot, repeat_at};

use block::{Block, EcBlock};
use fault::{Fault, PlacementFault, TimingFault};

/// How a block is sent: how many times in all, and on how many slots side by side.
#[derive(Clone, Copy, PartialEq, Eq, Debug)]
pub struct Schedule {
    pub block: EcBlock,
    /// How many times the block is sent in all.
    pub total: usize,
    /// On how many slots; not looked at for CCCH/D, which stays on one.
    pub slots: usize,
}

impl Schedule {
    /// Where a burst of a repeat goes: the burst of its slot, and the slot. It checks the total, the repeat, the slots,
    /// then the burst.
    pub fn to_timeslot(self, repeat: usize, burst: usize) -> Result<(usize, usize), Fault>
        ensures value { result ≡ timeslot self.block self.total repeat self.slots burst }
        ensures back { IfOk result (λ t. repeat_at self.block self.total self.slots t.0 t.1 ≡ Ok (repeat, burst)) }
    {
        refuse_unless(self.permits_total(), TimingFault::Total)?;
        refuse_unless(repeat < self.total, TimingFault::Repeat)?;
        let slots = self.slots_used()?;
        let bursts = self.block.burst_count();
        refuse_unless(burst < bursts, PlacementFault::NoSuchBurst { burst })?;
        Ok((burst + bursts * (repeat / slots), repeat % slots))
    }

    /// What stands at a burst of a slot: the repeat, and the burst of the block. It checks the total, the slots, the
    /// slot, then the repeat that it finds.
    pub fn from_timeslot(self, burst: usize, slot: usize) -> Result<(usize, usize), Fault>
        ensures value { result ≡ repeat_at self.block self.total self.slots burst slot }
        ensures back { IfOk result (λ t. timeslot self.block self.total t.0 self.slots t.1 ≡ Ok (burst, slot)) }
    {
        refuse_unless(self.permits_total(), TimingFault::Total)?;
        let slots = self.slots_used()?;
        refuse_unless(slot < slots, TimingFault::Slots)?;
        let bursts = self.bursts();
        let found = slots * (burst / bursts) + slot;
        refuse_unless(found < self.total, TimingFault::Repeat)?;
        Ok((found, burst % bursts))
    }

    // Whether the block may be sent that many times in all.
    fn permits_total(self) -> bool
        ensures value { result ≡ total_permitted self.block self.total }
    {
        match self.block {
            EcBlock::CcchDown => matches!(self.total, 1 | 8 | 16 | 32),
            EcBlock::PacchDown | EcBlock::PacchUp => matches!(self.total, 1 | 4 | 8 | 16),
            EcBlock::PacchUp48 | EcBlock::Mcs => self.total == 48,
        }
    }

    // How many bursts the block has. They are written out, and not asked of the table, so that a division by them is a
    // shift.
    fn bursts(self) -> usize
        ensures value { result ≡ (layout_of self.block).bursts }
    {
        match self.block {
            EcBlock::CcchDown => 2,
            _ => 4,
        }
    }

    // How many slots the block uses, if it may use so many.
    fn slots_used(self) -> Result<usize, TimingFault>
        ensures value { result ≡ unless (slots_permitted self.block self.slots) Slots (Ok (slots_used self.block self.slots)) }
    {
        match (self.block, self.slots) {
            (EcBlock::CcchDown, _) => Ok(1),
            (_, 2 | 4) => Ok(self.slots),
            _ => Err(TimingFault::Slots),
        }
    }
}

// Refuses by the fault what does not pass.
fn refuse_unless<F: Drop>(passes: bool, fault: F) -> Result<(), F>
    ensures value { result ≡ unless passes fault (Ok tt) }
{
    if passes { Ok(()) } else { Err(fault) }
}

#[cfg(test)]
mod tests {
    use super::*;

    #[test]
    fn four_and_two_slots(rt: HostRuntime) {
        let on_four = Schedule {
            block: EcBlock::PacchUp,
            total: 8,
            slots: 4,
        };
        let on_two = Schedule {
            slots: 2,
            ..on_four
        };
        assert_eq!(rt; on_four.to_timeslot(5, 2), Ok((6, 1)));
        assert_eq!(rt; on_two.to_timeslot(5, 2), Ok((10, 1)));
    }

    #[test]
    fn one_slot(rt: HostRuntime) {
        let schedule = Schedule {
            block: EcBlock::CcchDown,
            total: 32,
            slots: 7,
        };
        assert_eq!(rt; schedule.to_timeslot(31, 1), Ok((63, 0)));
    }

    #[test]
    fn the_largest_burst_is_no_repeat(rt: HostRuntime) {
        let schedule = Schedule {
            block: EcBlock::Mcs,
            total: 48,
            slots: 4,
        };
        let found = schedule.from_timeslot(usize::MAX, 3);
        assert_eq!(rt; found, Err(Fault::Timing(TimingFault::Repeat)));
    }
}
