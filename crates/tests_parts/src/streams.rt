//! Runs of each call over streams in memory, whose bytes and failing calls are named.
use bv_io::{Failed, MemSink, MemSource, ReadAllFault, Sink, Source, Trickle, give_all, read_all};
use std::alloc::{AllocError, Global};
use std::test::Fail;

// The bytes of the rows: more than two pieces of a read.
fn counted(alloc: Global, len: usize) -> Result<Vec<u8>, AllocError> {
    (0..len).map(|i| (i % 251) as u8).collect(alloc)
}

#[test]
fn read_all_gives_what_is_left_or_says_why_not(rt: HostRuntime) -> Result<(), Fail> {
    let alloc = rt.alloc();
    // How many bytes are left, the call that fails (0: none), the limit, and the answer.
    let rows = [
        ("nothing", 0, 0, 0, Ok(())),
        ("at the limit", 5, 0, 5, Ok(())),
        (
            "one more than the limit",
            6,
            0,
            5,
            Err(ReadAllFault::TooLong),
        ),
        ("several pieces", 20_000, 0, 20_000, Ok(())),
        (
            "too long in a later piece",
            20_001,
            0,
            20_000,
            Err(ReadAllFault::TooLong),
        ),
        (
            "the first call fails",
            20_000,
            1,
            20_000,
            Err(ReadAllFault::ReadFault),
        ),
        (
            "a middle call fails",
            20_000,
            2,
            20_000,
            Err(ReadAllFault::ReadFault),
        ),
        (
            "the call for the end fails",
            20_000,
            4,
            20_000,
            Err(ReadAllFault::ReadFault),
        ),
        ("a call past the end would fail", 20_000, 5, 20_000, Ok(())),
    ];
    for (row, len, fails, limit, want) in rows {
        let held = counted(alloc, len)?;
        let mut source = MemSource::new(held.clone()?, vec![in alloc; fails]?);
        match read_all(alloc, &mut source, limit) {
            Ok(bytes) => {
                assert_eq!(rt; want, Ok(()), "{row}");
                assert_eq!(rt; bytes.as_slice(), held.as_slice(), "{row}");
            }
            Err(fault) => assert_eq!(rt; want, Err(fault), "{row}"),
        }
    }
    Ok(())
}

#[test]
fn a_failed_write_leaves_a_prefix(rt: HostRuntime) -> Result<(), Fail> {
    let alloc = rt.alloc();
    // The call that fails (0: none), and how many bytes of three come before it, one a call.
    for (fails, want) in [(0, 3), (1, 0), (2, 1), (3, 2), (4, 3)] {
        let mut sink = Trickle {
            inner: MemSink::new(vec![in alloc; fails]?, alloc),
        };
        let answer = give_all(&mut sink, &[7, 8, 9]);
        assert_eq!(rt;
            answer,
            if want < 3 { Err(Failed) } else { Ok(()) },
            "at {fails}"
        );
        assert_eq!(rt; sink.inner.bytes(), &[7, 8, 9][..want], "at {fails}");
    }
    Ok(())
}
