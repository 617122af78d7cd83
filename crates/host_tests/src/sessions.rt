//! Sessions of callers who share a machine: that they run at once.

ghost use Rattle.std.specs.Prelude.{◌<◌};

use script_text::read_sessions;
use shared_vm::shared_run::share_run;
use shared_vm::{Closed, Gate};
use std::sync::{Mutex, Wait};
use std::test::Fail;

// How often a session looks for the other one before it gives up.
const LOOKS: u64 = 100_000_000;

// Which of two sessions have begun, and which saw that the other one had.
#[derive(Drop)]
struct Flags {
    begun: [bool; 2],
    met: [bool; 2],
}

// Before its first command each of the first two sessions says that it has begun, and then looks whether the other has.
#[derive(Drop)]
struct MeetingGate<'a, R> {
    rt: &'a R,
    flags: Mutex<Flags>,
}

impl<'a, R: Wait> Gate for MeetingGate<'a, R> {
    fn before(&self, seat: u32, number: u64) {
        match (seat, number) {
            (1, 0) => self.meet(0, 1),
            (2, 0) => self.meet(1, 0),
            _ => {}
        }
    }
}

impl<'a, R: Wait> MeetingGate<'a, R> {
    fn meet(&self, own: usize, other: usize)
        requires own { own < 2 }
        requires other { other < 2 }
    {
        self.flags.lock(self.rt).begun[own] = true;
        for _ in 0..LOOKS {
            let mut flags = self.flags.lock(self.rt);
            if flags.begun[other] {
                flags.met[own] = true;
                return;
            }
        }
    }
}

// Each session sees, before its first command, that the other one has begun: no order on one thread gives that.
#[test]
fn sessions_run_at_once(rt: HostRuntime) -> Result<(), Fail> {
    let sessions = read_sessions(rt.alloc(), b"[[],[1],[2]]")?;
    let gate = MeetingGate {
        rt: &rt,
        flags: Mutex::new(Flags {
            begun: [false, false],
            met: [false, false],
        }),
    };
    let Closed { journal, .. } = share_run(&rt, sessions, 100, &gate)?;
    assert_eq!(rt; journal.len(), 2);
    let flags = gate.flags.lock(&rt);
    assert!(rt; flags.met[0] && flags.met[1]);
    Ok(())
}
