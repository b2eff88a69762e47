//! Places among the values of clauses.
ghost use Rattle.std.specs.Prelude.{◌≡◌, drop};
ghost use Rattle.tree_sizes.specs.Clauses.{first_place, is_masked, is_true, places_left};

use loop_folds::Masking;
use typed_tree::ClauseForm;

/// The value of a clause, or its mask.
#[derive(Clone, Copy)]
pub struct Place {
    /// The clause.
    pub at: usize,
    /// Whether it is the mask.
    pub is_mask: bool,
}

/// Whether what stands at a place is a mask of `unless`, where there is such a place.
pub fn is_unless(clauses: &[ClauseForm], place: Place) -> Option<bool>
    ensures { result ≡ first_place (places_left clauses.now place) }
{
    if place.at >= clauses.len() {
        return None;
    }
    match clauses[place.at].masking {
        Masking::Unless => Some(place.is_mask),
        _ => Some(false),
    }
}

/// Whether it is a mask of `unless`.
pub fn is_not(clauses: &[ClauseForm], place: Place) -> bool
    ensures { result ≡ is_true (first_place (places_left clauses.now place)) }
{
    match is_unless(clauses, place) {
        Some(is_not) => is_not,
        None => false,
    }
}

/// Whether a mask stands behind.
fn is_masked(masking: Masking, is_mask: bool) -> bool
    ensures { result ≡ is_masked masking is_mask }
{
    match masking {
        Masking::All => false,
        _ => !is_mask,
    }
}

/// The place behind.
pub fn next(clauses: &[ClauseForm], place: Place) -> Place
    ensures { places_left clauses.now result ≡ drop 1 (places_left clauses.now place) }
{
    if place.at >= clauses.len() {
        return place;
    }
    let is_before = is_masked(clauses[place.at].masking, place.is_mask);
    if is_before {
        Place {
            at: place.at,
            is_mask: true,
        }
    } else {
        Place {
            at: place.at + 1,
            is_mask: false,
        }
    }
}
