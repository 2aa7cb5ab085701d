//! What a block is.
ghost use Rattle.std.specs.Prelude.{◌≡◌, length};
ghost use Rattle.std.specs.Option.{option_map};
ghost use Rattle.std.specs.List.{slice_get};
ghost use Rattle.block.specs.Layout.{Layout, Limits};
ghost use Rattle.block.specs.Left.{parts_left};

use crate::parts::Parts;
use code::CodePart;
use placement::Placement;

/// The most bursts of a block.
pub const MOST_BURSTS: usize = 4;

/// The most coded places of a block.
pub const MOST_CODED: usize = 1024;

/// Code parts, and where their coded bits go. The answers are those of `layout`, so that equal questions are answered
/// alike.
pub trait Block {
    type Part: CodePart + Drop;

    type Pile: Placement + Drop;

    ghost layout: { Self → Layout };

    fn part_count(&self) -> usize
        ensures value { result ≡ length (layout self.now).parts };

    /// The part with this number, counted from 0; none past the last.
    fn part(&self, number: usize) -> Option<Self::Part>
        ensures value { option_map Self.Part.CodePart.rule result ≡ slice_get (layout self.now).parts number };

    /// All parts, part 0 first.
    fn parts(&self) -> Parts<'_, Self>
        ensures value { parts_left layout result ≡ (layout self.now).parts }
    {
        Parts {
            block: self,
            next: 0,
        }
    }

    /// Where the coded places of all parts go, part 0's first.
    fn pile(&self) -> Self::Pile
        ensures value { Self.Pile.Placement.placing result ≡ (layout self.now).pile };

    fn burst_count(&self) -> usize
        ensures value { result ≡ (layout self.now).bursts };

    /// How often at most a receiver accepts a burst of one number.
    fn most_repeats(&self) -> usize
        ensures value { result ≡ (layout self.now).repeats };

    ghost limits: { (b : Self) → Limits (layout b) };
}
