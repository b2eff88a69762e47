//! The least of some labels.
ghost use Rattle.std.specs.Prelude.{◌≡◌, ◌≢◌, ◌↔◌, Some, IsTrue, if◌then◌else◌};
ghost use Rattle.mark_check.specs.Least.{IsLeast, IsAmong, lesser_of};

/// The lesser of two labels that may be missing.
pub fn lesser(one: Option<u32>, other: Option<u32>) -> Option<u32>
    ensures { result ≡ lesser_of one other }
{
    match one {
        None => other,
        Some(a) => match other {
            None => Some(a),
            Some(b) => Some(a.min(b)),
        },
    }
}

/// The least label so far, once one more is looked at, which may be wanted.
pub fn keep(wanted: bool, least: Option<u32>, label: u32) -> Option<u32>
    ensures { result ≡ (if wanted then lesser_of least (Some label) else least) }
{
    if wanted {
        return lesser(least, Some(label));
    }
    least
}

fn is_another(label: u32, other: u32) -> bool
    ensures { IsTrue result ↔ (label ≢ other) }
{
    label != other
}

/// The least label of a list that is another one than this.
pub fn least_other(labels: &[u32], label: u32) -> Option<u32>
    ensures { IsLeast (IsAmong labels.now (λ l. l ≢ label)) result }
{
    let mut least = None;
    for other in labels {
        let wanted = is_another(*other, label);
        least = keep(wanted, least, *other);
    }
    least
}
