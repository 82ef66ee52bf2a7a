ghost use Rattle.ms_lower.specs.Counted.{above_count, both_counts, too_large};
ghost use Rattle.std.specs.Prelude.{◌≡◌, ◌+◌, min, Some};

/// The size and the depth of some parts of a source: the sum of their sizes and the greatest of their depths. A size that is
/// too large counts as the least such size.
#[derive(Clone, Copy)]
pub struct Counted {
    pub size: u64,
    pub depth: u32,
}

/// The least size that is too large.
pub const TOO_LARGE: u64 = 1_000_001;

/// The greatest depth of a part of a source, which is deeper itself by one.
pub const DEEPEST: u32 = 299;

/// The count of no parts.
pub const NO_PARTS: Counted = Counted { size: 0, depth: 0 };

/// A sum of sizes.
pub fn capped_sum(one: u64, other: u64) -> u64
    ensures { result ≡ min (one + other) too_large }
{
    one.saturating_add(other).min(TOO_LARGE)
}

/// The count of a node above its parts.
pub fn above(parts: Option<Counted>) -> Option<Counted>
    ensures { result ≡ above_count parts }
{
    match parts {
        None => None,
        Some(parts) => Some(Counted {
            size: capped_sum(1, parts.size),
            depth: parts.depth.saturating_add(1),
        }),
    }
}

/// The count of the parts of both.
pub fn sum(one: Counted, other: Counted) -> Counted
    ensures { Some result ≡ both_counts (Some one) (Some other) }
{
    Counted {
        size: capped_sum(one.size, other.size),
        depth: one.depth.max(other.depth),
    }
}

/// The count of the parts of both, where both have one.
pub fn both(one: Option<Counted>, other: Option<Counted>) -> Option<Counted>
    ensures { result ≡ both_counts one other }
{
    let one = one?;
    let other = other?;
    Some(sum(one, other))
}
