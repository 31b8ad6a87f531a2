//! What no clause says: digests known outside, with each number of messages.

ghost use Rattle.std.specs.Prelude.{◌<◌};

use bv_lanes::{Block, Message, digests};

// By python's hashlib: the first eight bytes of the digest of the message of each lane.
const HEADS: [u64; 8] = [
    0x0f72_784f_7a12_b484,
    0x6d30_9ba3_8498_9e33,
    0x7a3e_dbdc_9e4c_3f39,
    0xd8c5_8668_b640_04dc,
    0x2db4_81d7_4090_7c8a,
    0xa594_dfe1_46fa_389b,
    0x74dd_e1ac_9f53_1365,
    0x151a_fbf6_53d1_31ab,
];

// The first eight bytes of a digest, as its hexadecimal text has them.
fn head(digest: &[u8; 32]) -> u64 {
    u64::from_be_bytes([
        digest[0], digest[1], digest[2], digest[3], digest[4], digest[5], digest[6], digest[7],
    ])
}

// A block whose bytes differ from lane to lane and from place to place.
fn block_of(lane: usize) -> Block
    requires { lane < 8 }
{
    let mut block = [0; 8192];
    for i in 0..8192usize {
        block[i] = ((31 * lane + 7 * i + i / 256) % 256) as u8;
    }
    block
}

fn message(lane: u8, block: &Block) -> Message<'_> {
    Message {
        prefix: [lane, 10, 20, 30, 40, 50, 60, 70, 80, 90, 100, 110],
        block,
    }
}

#[test]
fn each_number_of_messages_has_the_digests_known_outside(rt: HostRuntime) {
    let blocks = [
        block_of(0),
        block_of(1),
        block_of(2),
        block_of(3),
        block_of(4),
        block_of(5),
        block_of(6),
        block_of(7),
    ];
    let messages = [
        message(0, &blocks[0]),
        message(1, &blocks[1]),
        message(2, &blocks[2]),
        message(3, &blocks[3]),
        message(4, &blocks[4]),
        message(5, &blocks[5]),
        message(6, &blocks[6]),
        message(7, &blocks[7]),
    ];
    for count in 1..9usize {
        let found = digests(&messages[..count]);
        for lane in 0..count {
            assert_eq!(rt;
                head(&found[lane]),
                HEADS[lane],
                "message {lane} of {count}"
            );
        }
    }
}
