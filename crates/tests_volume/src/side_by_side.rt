//! Sessions that run beside one another: a gate lets one go on only once the other came as far.

use crate::answers::{Answer, have_answered};
use crate::device::{made, runs};
use bv_io::Gate;
use std::sync::atomic::{AtomicU64, Ordering};
use std::test::Fail;
use std::thread;

/// How often a session that waits looks, before it goes on alone.
const TURNS: u64 = 100_000_000;

/// Waits until as many are counted, and counts a wait that had no end.
fn waits(counted: &AtomicU64, wanted: u64, late: &AtomicU64) {
    for _ in 0..TURNS {
        if counted.load(Ordering::SeqCst) >= wanted {
            return;
        }
        thread::yield_now();
    }
    late.fetch_add(1, Ordering::SeqCst);
}

/// Counts one more, and says how many there are then.
fn counts(counted: &AtomicU64) -> u64 {
    counted.fetch_add(1, Ordering::SeqCst).wrapping_add(1)
}

/// Sessions 0 and 1 wait for one another: 0 before its second line for the second of 1, and 1 before
/// its third for the third of 0.
#[derive(Drop)]
struct Lines {
    first: AtomicU64,
    second: AtomicU64,
    late: AtomicU64,
}

impl Gate for Lines {
    fn pass(&self, session: u32, _line: u32) {
        if session == 0 && counts(&self.first) == 2 {
            waits(&self.second, 2, &self.late);
        }
        if session == 1 && counts(&self.second) == 3 {
            waits(&self.first, 3, &self.late);
        }
    }

    fn work(&self, _session: u32, _line: u32) {}
}

/// Session 1 waits before each of its three lines for the work of session 0 of the same number, and in
/// this work session 0 waits until session 1 has done that line.
#[derive(Drop)]
struct Works {
    works: AtomicU64,
    lines: AtomicU64,
    late: AtomicU64,
}

impl Gate for Works {
    fn pass(&self, session: u32, _line: u32) {
        if session == 1 {
            let line = counts(&self.lines);
            if line <= 3 {
                waits(&self.works, line, &self.late);
            }
        }
    }

    fn work(&self, session: u32, _line: u32) {
        if session == 0 {
            let work = counts(&self.works);
            waits(&self.lines, work.wrapping_add(1), &self.late);
        }
    }
}

#[test]
fn sessions_run_beside_one_another(rt: HostRuntime) -> Result<(), Fail> {
    let gate = Lines {
        first: AtomicU64::new(0),
        second: AtomicU64::new(0),
        late: AtomicU64::new(0),
    };
    let dev = made(&rt, rt.alloc(), 1)?;
    let script = b"0 sync\n0 sync\n0 sync\n1 sync\n1 sync\n1 sync\n";
    let (ends, _) = runs(&rt, rt.alloc(), dev, script, &gate)?;
    let wanted: [Answer; 6] = [("synced", 0); 6];
    have_answered(&rt, &ends, &wanted);
    assert_eq!(rt; gate.late.load(Ordering::SeqCst), 0);
    Ok(())
}

#[test]
fn an_add_is_worked_on_outside_the_lock(rt: HostRuntime) -> Result<(), Fail> {
    let gate = Works {
        works: AtomicU64::new(0),
        lines: AtomicU64::new(0),
        late: AtomicU64::new(0),
    };
    let dev = made(&rt, rt.alloc(), 1)?;
    let script = b"0 add hex:6869\n0 open 0 hex:6869\n1 sync\n1 sync\n1 sync\n";
    let (ends, _) = runs(&rt, rt.alloc(), dev, script, &gate)?;
    let wanted: [Answer; 5] = [
        ("published", 0),
        ("opened", 2),
        ("synced", 0),
        ("synced", 0),
        ("synced", 0),
    ];
    have_answered(&rt, &ends, &wanted);
    assert_eq!(rt; gate.works.load(Ordering::SeqCst), 3);
    assert_eq!(rt; gate.late.load(Ordering::SeqCst), 0);
    Ok(())
}
