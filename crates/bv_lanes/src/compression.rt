//! The compression of a piece of 64 bytes into the hash value (FIPS 180-4, 6.2.2), in each lane.

ghost use Rattle.std.specs.Prelude.{◌≡◌, ℕ, ◌*◌, ◌<◌, List};
ghost use Rattle.sha2.specs.Sha256.{compress};
ghost use Rattle.bv_lanes.specs.Lanes.{EachLane, HasWords, lane_state, lane_words};

use crate::rounds::{State, sixteen_rounds};
use crate::schedule::{Window, put_next_words};
use crate::vectors::add;

/// Runs the 64 rounds over each lane's piece, given as its words, and adds what they leave to the
/// hash values. The words are used up: what is left of them is the end of the schedule.
pub(crate) fn compress(state: &mut State, words: &mut Window)
    ensures { EachLane (λ j. (piece : List ℕ) → HasWords (lane_words j words.old) piece
        → lane_state j state.new ≡ compress (lane_state j state.old) piece) }
{
    let mut v = sixteen_rounds(words, *state, 0);
    'turns: for turn in 1..4 {
        put_next_words(words);
        v = sixteen_rounds(words, v, turn);
    }
    *state = [
        add(state[0], v[0]),
        add(state[1], v[1]),
        add(state[2], v[2]),
        add(state[3], v[3]),
        add(state[4], v[4]),
        add(state[5], v[5]),
        add(state[6], v[6]),
        add(state[7], v[7]),
    ];
}
