//! The list of what a search has gained, with the room for all that it still may gain.

ghost use Rattle.std.specs.Prelude.{◌≡◌, ◌+◌, ◌-◌, ◌<◌, ◌≤◌, ◌∷◌, [], ◌++◌, vec_len, vec_capacity};

/// Blocks gained, and how many more may be.
pub struct Tally {
    pub gained: Vec<u64>,
    pub left: u64,
    ghost space: { vec_len gained + left ≤ vec_capacity gained },
}

impl Tally {
    /// Notes one block more. It takes no memory.
    pub fn add(&mut self, block: u64)
        requires { 0 < self.old.left }
        ensures gained { self.new.gained.items ≡ self.old.gained.items ++ block ∷ [] }
        ensures left { self.new.left + 1 ≡ self.old.left }
    {
        self.gained.push_reserved(block);
        self.left -= 1;
    }
}
