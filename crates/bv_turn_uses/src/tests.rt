//! Sessions over a list of events, each on a thread of its own.
use crate::journal::Journal;
use crate::run::run_sessions;
use crate::script::{Line, Script};
use std::alloc::Global;
use std::test::Fail;

// What session s adds in its nth line.
fn amount(session: u32, n: u64) -> u64 {
    (10 * u64::from(session)).wrapping_add(n)
}

// Each session's lines, one of each in turn.
fn script(alloc: Global, sessions: u32, lines: u64) -> Result<Script, Fail> {
    let mut script = Script {
        lines: Vec::new(alloc),
    };
    for n in 0..lines {
        for session in 0..sessions {
            script.lines.push(Line {
                session,
                amount: amount(session, n),
            })?;
        }
    }
    Ok(script)
}

#[test]
fn each_sessions_events_stand_in_its_order(rt: HostRuntime) -> Result<(), Fail> {
    for (sessions, lines) in [(1, 3), (2, 3), (16, 3), (16, 50)] {
        let script = script(rt.alloc(), sessions, lines)?;
        let journal = Journal {
            events: Vec::new(rt.alloc()),
            base: 7,
        };
        let Ok((journal, whole)) = run_sessions(&rt, rt.alloc(), journal, sessions, &script) else {
            panic!(rt; "no memory for {sessions} sessions")
        };
        assert_eq!(rt; whole.len(), sessions as usize);
        assert!(rt; whole.iter().all(|done| *done));
        assert_eq!(rt; journal.events.len() as u64, u64::from(sessions) * lines);
        for session in 0..sessions {
            let mut n = 0;
            for event in journal
                .events
                .iter()
                .filter(|event| event.session == session)
            {
                assert_eq!(rt;
                    event.amount,
                    amount(session, n),
                    "session {session}, line {n}"
                );
                n = n.wrapping_add(1);
            }
            assert_eq!(rt; n, lines, "session {session}");
        }
    }
    Ok(())
}
