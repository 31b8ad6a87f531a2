//! The digests of up to eight messages.

ghost use Rattle.std.specs.Prelude.{◌≡◌, ℕ, ◌+◌, ◌*◌, ◌<◌, ◌≤◌, length, map, take};
ghost use Rattle.sha2.specs.Sha256.{digest_bytes, final_hash, initial_hash_256, sha256};
ghost use Rattle.bv_lanes.specs.Lanes.{EachLane, lane_state};
ghost use Rattle.bv_lanes.specs.Messages.{IsMessage, bytes_of, message_at};

use crate::compression::compress;
use crate::message::Message;
use crate::pieces::{LAST_PIECE, put_first_words, put_last_words, put_middle_words};
use crate::rounds::State;
use crate::vectors::splat;

/// The bytes of a word.
const WORD_LEN: usize = 4;

/// The initial hash value (FIPS 180-4, 5.3.3) in each lane.
fn initial_state() -> State
    ensures { EachLane (λ j. lane_state j result ≡ initial_hash_256) }
{
    [
        splat(0x6a09e667),
        splat(0xbb67ae85),
        splat(0x3c6ef372),
        splat(0xa54ff53a),
        splat(0x510e527f),
        splat(0x9b05688c),
        splat(0x1f83d9ab),
        splat(0x5be0cd19),
    ]
}

/// The hash value of each lane's message.
fn final_state(messages: &[Message; 8]) -> State
    ensures { EachLane (λ j. lane_state j result
        ≡ final_hash initial_hash_256 (bytes_of (message_at messages.now j))) }
{
    let mut state = initial_state();
    let mut words = [splat(0); 16];
    put_first_words(&mut words, messages);
    compress(&mut state, &mut words);
    'pieces: for piece in 1..LAST_PIECE {
        put_middle_words(&mut words, messages, piece);
        compress(&mut state, &mut words);
    }
    put_last_words(&mut words, messages);
    compress(&mut state, &mut words);
    state
}

/// The digest in a lane: the words of its hash value, high byte first.
fn lane_digest(state: &State, lane: usize) -> [u8; 32]
    requires { lane < 8 }
    ensures { result ≡ digest_bytes (lane_state lane state.now) 8 }
{
    let mut digest = [0; 32];
    'words: for i in 0..8 {
        let word = state[i].as_array()[lane];
        digest[WORD_LEN * i..WORD_LEN * i + WORD_LEN].copy_from_slice(&word.to_be_bytes());
    }
    digest
}

/// The digests of eight messages.
fn eight_digests(messages: &[Message; 8]) -> [[u8; 32]; 8]
    ensures { result ≡ map (λ message. sha256 (bytes_of message)) messages.now }
{
    let state = final_state(messages);
    [
        lane_digest(&state, 0),
        lane_digest(&state, 1),
        lane_digest(&state, 2),
        lane_digest(&state, 3),
        lane_digest(&state, 4),
        lane_digest(&state, 5),
        lane_digest(&state, 6),
        lane_digest(&state, 7),
    ]
}

/// The SHA-256 digests of one to eight messages, in their order.
///
/// As many digests count as there are messages: the other lanes repeat the first one. It takes as
/// long for one message as for eight.
pub fn digests(messages: &[Message]) -> [[u8; 32]; 8]
    requires some { 0 < length messages.now }
    requires few { length messages.now ≤ 8 }
    ensures { take (length messages.now) result
        ≡ map (λ message. sha256 (bytes_of message)) messages.now }
{
    let mut lanes = [messages[0]; 8];
    lanes[..messages.len()].copy_from_slice(messages);
    eight_digests(&lanes)
}
