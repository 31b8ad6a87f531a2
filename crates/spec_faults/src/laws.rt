//! What counts of faults say over several calls.

ghost use Rattle.std.specs.Prelude.{◌≡◌, ◌<◌, ◌≤◌, ◌⊎◌, ℕ, ◌-◌, ◌^◌};
ghost use Rattle.spec_faults.specs.Faults.{Rose};

/// A rise of a count that never falls is still seen after more calls, and a count that rises no
/// more is full.
pub fn a_rise_is_seen_later()
    ensures later { (before now last : ℕ) → Rose before now → now ≤ last → Rose before last }
    ensures earlier { (before now last : ℕ) → before ≤ now → Rose now last → Rose before last }
    ensures higher { (before now : ℕ) → Rose before now → (before < now) ⊎ (2 ^ 64 - 1 ≤ before) }
{}
