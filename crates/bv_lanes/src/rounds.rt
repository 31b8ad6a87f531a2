//! The 64 rounds (FIPS 180-4, 6.2.2, step 3) in each lane, sixteen at a time.

ghost use Rattle.std.specs.Prelude.{◌≡◌, ℕ, ◌+◌, ◌*◌, ◌<◌, ◌≤◌, List, slice_index};
ghost use Rattle.sha2.specs.Sha256.{round};
ghost use Rattle.bv_lanes.specs.Lanes.{EachLane, RunsRounds, lane_state};

use crate::functions::{choose, majority, upper_sigma0, upper_sigma1};
use crate::schedule::Window;
use crate::vectors::{Words, add, splat};

/// The words a to h of each lane: its hash value, or its working variables.
pub(crate) type State = [Words; 8];

/// The constants of the rounds (4.2.2).
const K: [u32; 64] = [
    0x428a2f98, 0x71374491, 0xb5c0fbcf, 0xe9b5dba5, 0x3956c25b, 0x59f111f1, 0x923f82a4, 0xab1c5ed5,
    0xd807aa98, 0x12835b01, 0x243185be, 0x550c7dc3, 0x72be5d74, 0x80deb1fe, 0x9bdc06a7, 0xc19bf174,
    0xe49b69c1, 0xefbe4786, 0x0fc19dc6, 0x240ca1cc, 0x2de92c6f, 0x4a7484aa, 0x5cb0a9dc, 0x76f988da,
    0x983e5152, 0xa831c66d, 0xb00327c8, 0xbf597fc7, 0xc6e00bf3, 0xd5a79147, 0x06ca6351, 0x14292967,
    0x27b70a85, 0x2e1b2138, 0x4d2c6dfc, 0x53380d13, 0x650a7354, 0x766a0abb, 0x81c2c92e, 0x92722c85,
    0xa2bfe8a1, 0xa81a664b, 0xc24b8b70, 0xc76c51a3, 0xd192e819, 0xd6990624, 0xf40e3585, 0x106aa070,
    0x19a4c116, 0x1e376c08, 0x2748774c, 0x34b0bcb5, 0x391c0cb3, 0x4ed8aa4a, 0x5b9cca4f, 0x682e6ff3,
    0x748f82ee, 0x78a5636f, 0x84c87814, 0x8cc70208, 0x90befffa, 0xa4506ceb, 0xbef9a3f7, 0xc67178f2,
];

/// One round on the working variables, with its constant and each lane's word.
#[inline(always)]
fn round(v: State, constant: u32, word: Words) -> State
    ensures { EachLane (λ j. lane_state j result
        ≡ round (lane_state j v) constant (slice_index word j)) }
{
    let [a, b, c, d, e, f, g, h] = v;
    let chosen = add(add(h, upper_sigma1(e)), choose(e, f, g));
    let first = add(add(chosen, splat(constant)), word);
    let second = add(upper_sigma0(a), majority(a, b, c));
    [add(first, second), a, b, c, add(d, first), e, f, g]
}

/// Round `16 * turn + place`.
#[inline(always)]
fn step(window: &Window, v: State, turn: usize, place: usize) -> State
    requires turn { turn < 4 }
    requires place { place < 16 }
    ensures { RunsRounds window.now v result turn place 1 }
{
    round(v, K[16 * turn + place], window[place])
}

#[inline(always)]
fn four_steps(window: &Window, v: State, turn: usize, place: usize) -> State
    requires turn { turn < 4 }
    requires place { place + 4 ≤ 16 }
    ensures { RunsRounds window.now v result turn place 4 }
{
    let v = step(window, v, turn, place);
    let v = step(window, v, turn, place + 1);
    let v = step(window, v, turn, place + 2);
    step(window, v, turn, place + 3)
}

/// The rounds that take the words of a window: from `16 * turn` on.
#[inline(always)]
pub(crate) fn sixteen_rounds(window: &Window, v: State, turn: usize) -> State
    requires { turn < 4 }
    ensures { RunsRounds window.now v result turn 0 16 }
{
    let v = four_steps(window, v, turn, 0);
    let v = four_steps(window, v, turn, 4);
    let v = four_steps(window, v, turn, 8);
    four_steps(window, v, turn, 12)
}
