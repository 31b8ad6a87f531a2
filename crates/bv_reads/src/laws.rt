//! The law of ranges: what the function ensures holds of all values.

ghost use Rattle.std.specs.Prelude.{◌≡◌, ◌⊎◌, ◌+◌, ◌-◌, ◌≤◌, ℕ, List, length, take, drop};
ghost use Rattle.spec_tree.specs.Tree.{root_of};
ghost use Rattle.spec_exhibit.specs.Exhibit.{AreBytes};
ghost use Rattle.bv_pager.specs.Reading.{Reading, IsReading};
ghost use Rattle.bv_pager.specs.Range.{KnowsRange, range_of};
ghost use Rattle.bv_reads.specs.Ranges.{ShowsIn};

/// Of any bytes of the reader's size with its name as root, what a reader that knows a range reads
/// there is that range of these bytes, or one of its pages and the honest one show something.
pub fn a_known_range_is_that_of_its_name()
    ensures { (r : Reading) (v : List ℕ) (from to : ℕ) → IsReading r → AreBytes v
        → length v ≡ r.size → root_of v ≡ r.root → from ≤ to → to ≤ from + 65536 → to ≤ r.size
        → KnowsRange r from to
        → (range_of r from to ≡ take (to - from) (drop from v)) ⊎ ShowsIn r v from to }
{}
