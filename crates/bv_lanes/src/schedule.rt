//! The words that the rounds take (FIPS 180-4, 6.2.2, step 1), in each lane, sixteen at a time.
//!
//! The next sixteen words are made before the rounds that take them, and not each one before its
//! own: so fewer vectors are in use at once.

ghost use Rattle.std.specs.Prelude.{◌≡◌, ℕ, ◌+◌, ◌*◌, ◌%◌, ◌<◌, ◌≤◌, slice_index};
ghost use Rattle.sha2.specs.Sha256.{window_word};
ghost use Rattle.bv_lanes.specs.Lanes.{EachLane, MovesOn, lane_words};

use crate::functions::{lower_sigma0, lower_sigma1};
use crate::vectors::{Words, add};

/// The last 16 words of each lane's schedule: word t is at place t % 16.
pub(crate) type Window = [Words; 16];

/// The next word of the schedule, where the word 16 before it is at `place`.
#[inline(always)]
fn next_word(window: &Window, place: usize) -> Words
    requires { place < 16 }
    ensures { EachLane (λ j. slice_index result j ≡ window_word (lane_words j window.now) place) }
{
    let far = add(
        lower_sigma1(window[(place + 14) % 16]),
        window[(place + 9) % 16],
    );
    let near = add(far, lower_sigma0(window[(place + 1) % 16]));
    add(near, window[place])
}

/// Puts the next word of the schedule over the word 16 before it, at `place`.
#[inline(always)]
fn put_next_word(window: &mut Window, place: usize)
    requires { place < 16 }
    ensures { MovesOn window.old window.new place 1 }
{
    window[place] = next_word(window, place);
}

#[inline(always)]
fn put_next_four(window: &mut Window, place: usize)
    requires { place + 4 ≤ 16 }
    ensures { MovesOn window.old window.new place 4 }
{
    put_next_word(window, place);
    put_next_word(window, place + 1);
    put_next_word(window, place + 2);
    put_next_word(window, place + 3);
}

/// Puts the next sixteen words of the schedule over the sixteen before them.
#[inline(always)]
pub(crate) fn put_next_words(window: &mut Window)
    ensures { MovesOn window.old window.new 0 16 }
{
    put_next_four(window, 0);
    put_next_four(window, 4);
    put_next_four(window, 8);
    put_next_four(window, 12);
}
