//! The info block: where the journal begins.
ghost use Rattle.std.specs.Prelude.{◌≡◌, ◌≤◌, ◌<◌, ◌^◌, ◌++◌, ◌∷◌, [], ℕ, take, IfOk, Ok};
ghost use Rattle.spec_record.specs.Field.{fields, AllFit};
ghost use Rattle.spec_record.specs.Tests.{IsBetween};
ghost use Rattle.spec_record.specs.Info.{info_or_fault, info_bytes};
ghost use Rattle.spec_record.specs.Laws.{SpellsInfo};
ghost use Rattle.bv_entry.specs.Rows.{front_numbers, info_widths};

use bv_bytes::{Block, Field, crc32, ensure, fields, find_set};
use spec_record::{Info, InfoFault};

/// The number with which an info block begins.
const MAGIC: u64 = 0x626c_6f62_6a72_6e6c;

/// The largest number of the entry at the start: one past the last entry's.
const LAST_NEXT: u64 = 1 << 62;

/// The rows before the checksum.
#[derive(Drop)]
struct Front {
    magic: u64,
    start: u64,
    reserved: u64,
    number: u64,
}

macro_rules! front {
    ($($what:tt)*) => {
        fields! {
            $($what)*;
            0 8 magic;
            8 8 start;
            16 8 reserved;
            24 8 number;
        }
    };
}

/// The checksum of the rows before it.
type Checksum = Field<32, 4>;

fn front_in(block: &Block) -> Front
    ensures { front_numbers result ≡ take 4 (fields 0 info_widths block.now) }
{
    front!(get Front from block)
}

/// The block with these rows, zeros in its rest.
fn front_block(front: &Front) -> Block
    requires { AllFit (take 4 info_widths) (front_numbers front.now) }
    ensures { fields 0 info_widths result ≡ front_numbers front.now ++ 0 ∷ 0 ∷ [] }
{
    let mut block = [0; 8192];
    front!(put front into &mut block);
    block
}

/// The value of a block with these rows, or the first row that fails.
#[tactic(auto, unfolding(spec_record::specs::Info::info_or_fault))]
fn tested(front: &Front, block: &Block, ring: u64) -> Result<Info, InfoFault>
    requires { front_numbers front.now ≡ take 4 (fields 0 info_widths block.now) }
    ensures { result ≡ info_or_fault block.now ring }
{
    ensure!(front.magic == MAGIC => InfoFault::Magic);
    let wanted = Checksum::get(block) as u32;
    let found = crc32(&block[..32]);
    ensure!(wanted == found => InfoFault::Checksum { wanted, found });
    if let Some(offset) = find_set(block, 16, 8) {
        return Err(InfoFault::Zero { offset });
    }
    if let Some(offset) = find_set(block, 36, 8156) {
        return Err(InfoFault::Zero { offset });
    }
    let start = front.start;
    ensure!(start < ring => InfoFault::Start { value: start });
    let number = front.number;
    ensure!(1 <= number && number <= LAST_NEXT => InfoFault::Number { value: number });
    Ok(Info { start, number })
}

/// Reads the info block of a ring of so many slots.
pub fn read_info(block: &Block, ring: u64) -> Result<Info, InfoFault>
    ensures value { result ≡ info_or_fault block.now ring }
    ensures ok { IfOk result (λ info. SpellsInfo block.now ring info) }
{
    tested(&front_in(block), block, ring)
}

/// Writes an info block.
pub fn write_info(info: &Info) -> Block
    requires { IsBetween 1 info.now.number (2 ^ 62) }
    ensures bytes { result ≡ info_bytes info.now }
    ensures read { (ring : ℕ) → info.now.start < ring → ring ≤ 2 ^ 64
        → info_or_fault result ring ≡ Ok info.now }
{
    let mut block = front_block(&Front {
        magic: MAGIC,
        start: info.start,
        reserved: 0,
        number: info.number,
    });
    let checksum = crc32(&block[..32]);
    Checksum::put(&mut block, checksum as u64);
    block
}
