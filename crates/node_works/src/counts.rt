//! Counts that may not be known.
ghost use Rattle.std.specs.Prelude.{◌≡◌, unwrap_or};

/// The count, 0 where there is none.
pub fn or_none(count: Option<u32>) -> u32
    ensures { result ≡ unwrap_or count 0 }
{
    match count {
        Some(count) => count,
        None => 0,
    }
}
