//! A gate that puts the calls of sessions into an order.

use bv_io::Gate;
use std::sync::atomic::{AtomicU64, Ordering};
use std::thread;

/// How often a call that waits looks, before it goes on alone.
const TURNS: u64 = 100_000_000;

/// A session's nth `pass`, or its nth `work`.
#[derive(Clone, Copy, Debug, PartialEq, Eq)]
pub enum Call {
    Pass(u32, u64),
    Work(u32, u64),
}

/// How many calls a session has made.
#[derive(Drop)]
struct Made {
    passes: AtomicU64,
    works: AtomicU64,
}

impl Made {
    fn none() -> Made {
        Made {
            passes: AtomicU64::new(0),
            works: AtomicU64::new(0),
        }
    }
}

/// Counts one more, and says how many there are then.
fn counts(counted: &AtomicU64) -> u64 {
    counted.fetch_add(1, Ordering::SeqCst).wrapping_add(1)
}

/// Sessions 0 and 1, of which some calls go on only once another one was begun.
#[derive(Drop)]
pub struct Order {
    rules: &'static [(Call, Call)],
    sessions: [Made; 2],
    late: AtomicU64,
}

impl Order {
    /// The first call of each rule waits for its second one.
    pub fn new(rules: &'static [(Call, Call)]) -> Order {
        Order {
            rules,
            sessions: [Made::none(), Made::none()],
            late: AtomicU64::new(0),
        }
    }

    /// How many calls waited in vain.
    pub fn late(&self) -> u64 {
        self.late.load(Ordering::SeqCst)
    }

    /// How often a session was at work.
    pub fn works(&self, session: usize) -> u64 {
        self.sessions
            .get(session)
            .map_or(0, |made| made.works.load(Ordering::SeqCst))
    }

    /// Whether this call was begun.
    fn is_begun(&self, call: Call) -> bool {
        let (session, nth) = match call {
            Call::Pass(session, nth) | Call::Work(session, nth) => (session, nth),
        };
        let Some(made) = self.sessions.get(session as usize) else {
            return false;
        };
        let counted = match call {
            Call::Pass(_, _) => &made.passes,
            Call::Work(_, _) => &made.works,
        };
        counted.load(Ordering::SeqCst) >= nth
    }

    /// Waits for a call, and counts a wait that had no end.
    fn waits_for(&self, call: Call) {
        for _ in 0..TURNS {
            if self.is_begun(call) {
                return;
            }
            thread::yield_now();
        }
        self.late.fetch_add(1, Ordering::SeqCst);
    }

    /// A call that is begun waits for those that it has to.
    fn begins(&self, call: Call) {
        for (waiting, other) in self.rules {
            if *waiting == call {
                self.waits_for(*other);
            }
        }
    }
}

impl Gate for Order {
    fn pass(&self, session: u32, _line: u32) {
        if let Some(made) = self.sessions.get(session as usize) {
            self.begins(Call::Pass(session, counts(&made.passes)));
        }
    }

    fn work(&self, session: u32, _line: u32) {
        if let Some(made) = self.sessions.get(session as usize) {
            self.begins(Call::Work(session, counts(&made.works)));
        }
    }
}
