//! Where claims begin: at the first block that may be free. Blocks before it are found too, since a
//! claim tries every block once.

ghost use Rattle.std.specs.Prelude.{◌≤◌, ◌<◌};

/// The block at which a claim begins, on a volume of so many.
pub(crate) fn start_at(free_from: u64, blocks: u64) -> u64
    requires { 2 ≤ blocks }
    ensures { (1 ≤ result) × (result < blocks) }
{
    if free_from >= 1 && free_from < blocks {
        free_from
    } else {
        1
    }
}

/// From where on blocks may be free, now that these, which rise, are taken.
pub(crate) fn after_taking(free_from: u64, blocks: &[u64]) -> u64
    ensures { free_from ≤ result }
{
    match (blocks.first(), blocks.last()) {
        (Some(first), Some(last)) if free_from <= *first => free_from.max(last.saturating_add(1)),
        _ => free_from,
    }
}

/// From where on blocks may be free, now that these are.
pub(crate) fn after_freeing(free_from: u64, blocks: &[u64]) -> u64
    ensures { result ≤ free_from }
{
    match blocks.iter().copied().min() {
        Some(first) => free_from.min(first),
        None => free_from,
    }
}
