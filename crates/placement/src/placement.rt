//! What a placement is.
ghost use Rattle.std.specs.Prelude.{◌≡◌, ◌*◌, ◌/◌, ◌%◌, ◌<◌, ◌≤◌};
ghost use Rattle.placement.specs.Placing.{Placing, Sound};
ghost use Rattle.placement.specs.declared.placement.Place.TheVariants.{Fixed};

/// The places of a burst.
pub const BURST: usize = 116;

/// What stands at an outer place.
#[derive(Clone, Copy, PartialEq, Eq, Debug)]
pub enum Place {
    /// The coded bit of this number.
    Coded(usize),
    /// This bit, whatever the message.
    Fixed(u8),
}

/// Which coded place or fixed bit each outer place shows. Past the outer count that is a fixed 0, so that no question is
/// refused. The answers are those of `placing`, so that equal questions are answered alike.
pub trait Placement {
    ghost placing: { Self → Placing };

    fn coded_count(&self) -> usize
        ensures value { result ≡ (placing self.now).coded };

    fn outer_count(&self) -> usize
        ensures value { result ≡ (placing self.now).outer };

    fn at(&self, place: usize) -> Place
        ensures value { result ≡ (placing self.now).shows place };

    ghost sound: { (p : Self) → Sound (placing p) };
}

// What `shows` puts at one of the first `outer` places; past them stands a fixed 0.
pub(crate) fn up_to<F: FnOnce(usize) -> Place>(outer: usize, place: usize, shows: F) -> Place
    requires callable { place < outer → F.pre shows place }
    ensures within { place < outer → F.post shows place result }
    ensures past { outer ≤ place → result ≡ Fixed 0 }
{
    if place < outer {
        shows(place)
    } else {
        Place::Fixed(0)
    }
}

// What `shows` puts at a place of a burst, for each of so many bursts.
pub(crate) fn by_burst<F: FnOnce(usize, usize) -> Place>(
    bursts: u8,
    place: usize,
    shows: F,
) -> Place
    requires callable { place < 116 * bursts → F.pre shows (place / 116) (place % 116) }
    ensures within { place < 116 * bursts → F.post shows (place / 116) (place % 116) result }
    ensures past { 116 * bursts ≤ place → result ≡ Fixed 0 }
{
    let in_burst = |place: usize|
        requires { F.pre shows (place / 116) (place % 116) }
    { shows(place / BURST, place % BURST) };
    up_to(BURST * usize::from(bursts), place, in_burst)
}
