//! What a turn asks of its value.
ghost use Rattle.std.specs.Prelude.{◌≡◌, ◌^◌, ◌<◌, length};

/// A value with a history: a list of entries, each of one session. It stands on a basis that stays.
///
/// Contracts alone see the entries and the basis. The code of a turn sees their number.
pub trait Keeps {
    type Entry;

    type Basis;

    ghost use Rattle.std.specs.Prelude.{ℕ, List};

    ghost session: { Self.Entry → ℕ };

    ghost entries: { Self → List Self.Entry };

    ghost basis: { Self → Self.Basis };

    /// The number of entries. A history stays shorter than 2^63 entries.
    fn count(&self) -> u64
        ensures count { result ≡ length (entries self.now) }
        ensures below { result < 2 ^ 63 };
}
