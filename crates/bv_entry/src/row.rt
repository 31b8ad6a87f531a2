//! The rows of headers and commits.
ghost use Rattle.std.specs.Prelude.{◌≡◌, ◌<◌, ◌^◌, ◌++◌, ◌∷◌, [], take};
ghost use Rattle.spec_record.specs.Field.{fields, AllFit};
ghost use Rattle.bv_entry.specs.Rows.{header_numbers, header_widths, commit_numbers, commit_widths};

use bv_bytes::{Block, fields};

/// The number with which headers and commits begin.
pub(crate) const MAGIC: u64 = 0x626c_6f62_6e74_7279;

/// The kind of a header.
pub(crate) const HEADER: u64 = 1;

/// The kind of a commit.
pub(crate) const COMMIT: u64 = 2;

/// The rows of a header before its targets.
#[derive(Drop)]
pub(crate) struct Header {
    pub magic: u64,
    pub number: u64,
    pub kind: u64,
    pub reserved: u64,
    pub count: u64,
}

/// The rows of a commit before its zeros.
#[derive(Drop)]
pub(crate) struct Commit {
    pub magic: u64,
    pub number: u64,
    pub kind: u64,
    pub reserved: u64,
    pub checksum: u64,
}

/// The prefix of header and commit, and the row after it.
macro_rules! table {
    ($width:literal $name:ident; $($what:tt)*) => {
        fields! {
            $($what)*;
            0 8 magic;
            8 8 number;
            16 8 kind;
            24 8 reserved;
            32 $width $name;
        }
    };
}

pub(crate) fn header_in(block: &Block) -> Header
    ensures { header_numbers result ≡ take 5 (fields 0 header_widths block.now) }
{
    table!(8 count; get Header from block)
}

pub(crate) fn commit_in(block: &Block) -> Commit
    ensures rows { commit_numbers result ≡ take 5 (fields 0 commit_widths block.now) }
    ensures checksum { result.checksum < 2 ^ 32 }
{
    table!(4 checksum; get Commit from block)
}

/// The block with these rows of a header, zeros in its rest.
pub(crate) fn header_block(header: &Header) -> Block
    requires { AllFit (take 5 header_widths) (header_numbers header.now) }
    ensures { fields 0 header_widths result ≡ header_numbers header.now ++ 0 ∷ [] }
{
    let mut block = [0; 8192];
    table!(8 count; put header into &mut block);
    block
}

/// The block with these rows of a commit, zeros in its rest.
pub(crate) fn commit_block(commit: &Commit) -> Block
    requires { AllFit (take 5 commit_widths) (commit_numbers commit.now) }
    ensures { fields 0 commit_widths result ≡ commit_numbers commit.now ++ 0 ∷ [] }
{
    let mut block = [0; 8192];
    table!(4 checksum; put commit into &mut block);
    block
}
