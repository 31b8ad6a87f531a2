//! CRC-32 over tables of 256 words, eight bytes a turn.
ghost use Rattle.std.specs.Prelude.{◌≡◌, ℕ, ◌+◌, ◌*◌, ◌<◌, List, [], ◌∷◌, ◌++◌, length};
ghost use Rattle.spec_record.specs.Crc.{crc32 as crc32_of, crc_register, message_bits};
ghost use Rattle.bv_bytes.specs.Crc.{shifts, crc_after};

/// A table of all bytes' words, from the words of the eight bits, the lowest first: the word of a
/// byte is the exclusive or of its bits' words.
macro_rules! table {
    ($($bit:literal)*) => { table!(@ [0] $($bit)*) };
    (@ [$($word:expr),*]) => { [$($word),*] };
    (@ [$($word:expr),*] $bit:literal $($more:literal)*) => {
        table!(@ [$($word),*, $($word ^ $bit),*] $($more)*)
    };
}

/// Table k: what 8 (k + 1) steps over zero bits make of each byte.
const NEAR: [[u32; 256]; 4] = [
    table![
        0x7707_3096 0xee0e_612c 0x076d_c419 0x0edb_8832
        0x1db7_1064 0x3b6e_20c8 0x76dc_4190 0xedb8_8320
    ],
    table![
        0x191b_3141 0x3236_6282 0x646c_c504 0xc8d9_8a08
        0x4ac2_1251 0x9584_24a2 0xf079_4f05 0x3b83_984b
    ],
    table![
        0x01c2_6a37 0x0384_d46e 0x0709_a8dc 0x0e13_51b8
        0x1c26_a370 0x384d_46e0 0x709a_8dc0 0xe135_1b80
    ],
    table![
        0xb8bc_6765 0xaa09_c88b 0x8f62_9757 0xc5b4_28ef
        0x5019_579f 0xa032_af3e 0x9b14_583d 0xed59_b63b
    ],
];

/// Table k: what 8 (k + 5) steps over zero bits make of each byte.
const FAR: [[u32; 256]; 4] = [
    table![
        0x3d60_29b0 0x7ac0_5360 0xf580_a6c0 0x3070_4bc1
        0x60e0_9782 0xc1c1_2f04 0x58f3_5849 0xb1e6_b092
    ],
    table![
        0xcb5c_d3a5 0x4dc8_a10b 0x9b91_4216 0xec53_826d
        0x03d6_029b 0x07ac_0536 0x0f58_0a6c 0x1eb0_14d8
    ],
    table![
        0xa677_0bb4 0x979f_1129 0xf44f_2413 0x33ef_4e67
        0x67de_9cce 0xcfbd_399c 0x440b_7579 0x8816_eaf2
    ],
    table![
        0xccaa_009e 0x4225_077d 0x844a_0efa 0xd3e5_1bb5
        0x7cbb_312b 0xf976_6256 0x299d_c2ed 0x533b_85da
    ],
];

/// The tables, each at one place in memory.
static NEAR_WORDS: [[u32; 256]; 4] = NEAR;

static FAR_WORDS: [[u32; 256]; 4] = FAR;

fn near(k: usize, byte: u8) -> u32
    requires { k < 4 }
    ensures { result ≡ shifts (8 * (k + 1)) byte }
{
    NEAR_WORDS[k][byte as usize]
}

fn far(k: usize, byte: u8) -> u32
    requires { k < 4 }
    ensures { result ≡ shifts (8 * (k + 5)) byte }
{
    FAR_WORDS[k][byte as usize]
}

/// What 64 steps over zero bits make of a register.
fn after_64(register: u32) -> u32
    ensures { result ≡ shifts 64 register }
{
    let [a, b, c, d] = register.to_le_bytes();
    far(3, a) ^ far(2, b) ^ far(1, c) ^ far(0, d)
}

/// The register after four bytes, from 0 on.
fn after_four(bytes: &[u8]) -> u32
    requires { length bytes.now ≡ 4 }
    ensures { result ≡ crc_register 0 (message_bits bytes.now) }
{
    near(3, bytes[0]) ^ near(2, bytes[1]) ^ near(1, bytes[2]) ^ near(0, bytes[3])
}

/// The register after eight bytes.
fn after_eight(register: u32, bytes: &[u8]) -> u32
    requires { length bytes.now ≡ 8 }
    ensures { result ≡ crc_register register (message_bits bytes.now) }
{
    let front = u32::from_le_bytes([bytes[0], bytes[1], bytes[2], bytes[3]]);
    after_64(register ^ front) ^ after_four(&bytes[4..8])
}

/// The register after one byte.
fn after_one(register: u32, byte: u8) -> u32
    ensures { result ≡ crc_register register (message_bits (byte ∷ [])) }
{
    let [low, _, _, _] = register.to_le_bytes();
    (register >> 8) ^ near(0, low ^ byte)
}

/// The CRC-32 of a message and then `bytes`, where the message's own is `crc`; 0 is that of no
/// bytes.
pub fn crc_more(crc: u32, bytes: &[u8]) -> u32
    ensures more { result ≡ crc_after crc bytes.now }
    ensures message { (message : List ℕ) → crc ≡ crc32_of message
        → result ≡ crc32_of (message ++ bytes.now) }
{
    let mut register = crc ^ u32::MAX;
    let mut rest = bytes;
    while rest.len() >= 8 {
        let (eight, after) = rest.split_at(8);
        register = after_eight(register, eight);
        rest = after;
    }
    for byte in rest {
        register = after_one(register, *byte);
    }
    register ^ u32::MAX
}

/// The CRC-32 of bytes: the check of ISO/IEC 3309 and ITU-T V.42.
pub fn crc32(bytes: &[u8]) -> u32
    ensures { result ≡ crc32_of bytes.now }
{
    crc_more(0, bytes)
}
