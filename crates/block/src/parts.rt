//! The parts of a block as an iterator.
ghost use Rattle.std.specs.Iterator.{YieldsFirstBy, item_count};
ghost use Rattle.block.specs.Left.{parts_left};

use crate::block::Block;

/// The parts of a block that are still to come, in their order.
#[derive(Drop)]
pub struct Parts<'b, B> {
    pub(crate) block: &'b B,
    pub(crate) next: usize,
}

impl<B: Block> Iterator for Parts<'_, B> {
    type Item = B::Part;

    ghost next_gives = { YieldsFirstBy B.Part.CodePart.rule (parts_left B.layout) };

    ghost remaining = { item_count (parts_left B.layout) };

    #[tactic(auto, using(crate::proofs::Left::first_left, crate::proofs::Left::none_left))]
    fn next(&mut self) -> Option<B::Part> {
        let part = self.block.part(self.next)?;
        self.next += 1;
        Some(part)
    }
}
