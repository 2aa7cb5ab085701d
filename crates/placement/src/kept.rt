//! The coded places that are sent.
ghost use Rattle.std.specs.Prelude.{◌≡◌, ◌<◌, IfSome};
ghost use Rattle.std.specs.List.{slice_get};
ghost use Rattle.placement.specs.Kept.{header_kept};

/// The coded place of the header that is sent as bit `index`.
#[tactic(auto, using(crate::proofs::Header::header_by_formula))]
pub fn header_place(index: usize) -> Option<usize>
    ensures value { result ≡ slice_get header_kept index }
    ensures bound { IfSome result (λ c. c < 72) }
{
    // Of the places that do not leave 2 when divided by 3, the one with `index` of them before it.
    (index < 48).then(|| 3 * (index / 2) + index % 2)
}
