//! Sixteen sessions in threads over one target: what each is told must fit any order of their turns.

ghost use Rattle.std.specs.Prelude.{◌≤◌, ◌<◌, ◌-◌};
ghost use denote.Param.Send.{IsSync};
ghost use Rattle.pr_gate.specs.Passes.{IsOf, IsNoteOf, IsFree, spare_of};

use super::*;
use crate::requests::{
    ABORTED, CHECK, CONFLICT, GOOD, PREEMPT, REGISTER, RESERVE, WRITERS, add_login, add_logout,
    add_read, add_read_keys, add_reserve_out, add_write, connect, first_reply,
};
use crate::samples::{Target, fresh_gate};
use pr_gate::{Gate, Note, Pass};
use pr_io::NoBreath;
use pr_words::{BLOCK, FRAME_HEAD};
use std::alloc::{AllocError, Global};
use std::sync::Wait;
use std::test::*;
use std::thread::{Threads, join};

const SESSIONS: u8 = WRITERS;

const COMMANDS: u64 = 200;

/// A command of a session. Nobody unregisters, releases or clears, and all reservations are of
/// type 5h, so that one which stands never ends: it goes from one holder to the next.
#[derive(Clone, Copy)]
enum Ask {
    Register,
    Reserve,
    Preempt { of: u8 },
    Keys,
    Read { lba: u8, count: u8 },
    Write { lba: u8, count: u8 },
}

/// The commands of a session, each time the same.
#[derive(Clone, Copy)]
struct Asks {
    own: u8,
    state: u64,
}

/// A session's own number is its key and its initiator's name, from 1 on.
fn asks_of(own: u8) -> Asks {
    Asks {
        own,
        state: u64::from(own),
    }
}

impl Asks {
    fn next(&mut self) -> Ask {
        self.state = self
            .state
            .wrapping_mul(6_364_136_223_846_793_005)
            .wrapping_add(1_442_695_040_888_963_407);
        let [kind, other, lba, count, ..] = self.state.to_be_bytes();
        let (lba, count) = (lba % 4, 1 + count % 4);
        match kind % 16 {
            0..=2 => Ask::Register,
            3 => Ask::Reserve,
            4..=5 => Ask::Preempt {
                of: another(self.own, other),
            },
            6..=8 => Ask::Keys,
            9..=11 => Ask::Read { lba, count },
            _ => Ask::Write { lba, count },
        }
    }
}

/// The number of another session.
fn another(own: u8, any: u8) -> u8 {
    own.wrapping_add(any % (SESSIONS - 1)) % SESSIONS + 1
}

/// A session's frames.
fn frames_of(alloc: Global, own: u8) -> Result<Vec<u8>, AllocError> {
    let mut frames = Vec::new(alloc);
    let key = u64::from(own);
    add_login(&mut frames, key)?;
    let mut asks = asks_of(own);
    for _ in 0..COMMANDS {
        match asks.next() {
            Ask::Register => add_reserve_out(&mut frames, REGISTER, 0, key)?,
            Ask::Reserve => add_reserve_out(&mut frames, RESERVE, key, 0)?,
            Ask::Preempt { of } => {
                add_reserve_out(&mut frames, PREEMPT, key, u64::from(of))?;
            }
            Ask::Keys => add_read_keys(&mut frames)?,
            Ask::Read { lba, count } => add_read(&mut frames, lba, count)?,
            Ask::Write { lba, count } => add_write(&mut frames, lba, count, own.wrapping_sub(1))?,
        }
    }
    add_logout(&mut frames)?;
    Ok(frames)
}

/// What a session knows by its replies alone.
#[derive(Clone, Copy)]
struct Knowledge {
    own: u8,
    /// Whether it was told of the power-up.
    is_awake: bool,
    /// Whether it has registered, and wasn't told that it was preempted.
    is_registered: bool,
    /// Whether it knows that a reservation stands.
    is_reserved: bool,
    /// The last PRGENERATION that it read.
    generation: u32,
}

fn nothing_of(own: u8) -> Knowledge {
    Knowledge {
        own,
        is_awake: false,
        is_registered: false,
        is_reserved: false,
        generation: 0,
    }
}

impl Knowledge {
    /// Learns from the reply to a command, and says whether there can be such a reply.
    fn learn(&mut self, ask: Ask, status: u8, body: &[u8]) -> bool {
        if status == CHECK {
            return self.learn_attention(body);
        }
        if !self.is_awake {
            return false;
        }
        match ask {
            Ask::Register => self.learn_registration(status),
            Ask::Reserve => self.learn_reservation(status),
            Ask::Preempt { .. } => { status == CONFLICT || (status == GOOD && self.is_registered) }
            Ask::Keys => status == GOOD && self.learn_keys(body),
            Ask::Read { lba, count } => {
                self.is_aborted(status) || (status == GOOD && are_blocks(body, lba, count))
            }
            Ask::Write { .. } => self.is_aborted(status) || self.learn_write(status),
        }
    }

    /// Power-up is told first and once, and a preemption once for each registration.
    fn learn_attention(&mut self, sense: &[u8]) -> bool {
        match sense {
            [_, _, 6, _, _, _, _, _, _, _, _, _, 0x29, 0, ..] => {
                let is_first = !self.is_awake;
                self.is_awake = true;
                is_first
            }
            [_, _, 6, _, _, _, _, _, _, _, _, _, 0x2A, 5, ..] => {
                let was_registered = self.is_registered;
                self.is_registered = false;
                was_registered
            }
            _ => false,
        }
    }

    fn learn_registration(&mut self, status: u8) -> bool {
        self.is_registered = true;
        status == GOOD
    }

    /// A registered nexus is refused only where another holds a reservation.
    fn learn_reservation(&mut self, status: u8) -> bool {
        self.is_reserved |= self.is_registered;
        status == CONFLICT || (status == GOOD && self.is_registered)
    }

    /// PRGENERATION never falls. The session's own key stands there exactly where it has registered
    /// and wasn't told that it was preempted.
    fn learn_keys(&mut self, keys: &[u8]) -> bool {
        let Some((generation, keys)) = keys.split_first_chunk::<4>() else {
            return false;
        };
        let before = self.generation;
        self.generation = u32::from_be_bytes(*generation);
        let own = [0, 0, 0, 0, 0, 0, 0, self.own];
        let (keys, _) = keys.get(4..).unwrap_or(&[]).as_chunks::<8>();
        before <= self.generation && keys.contains(&own) == self.is_registered
    }

    /// Only a registered nexus has tasks that a preemption aborts.
    fn is_aborted(&self, status: u8) -> bool {
        status == ABORTED && self.is_registered
    }

    /// Once a reservation stands, a nexus that isn't registered can't write.
    fn learn_write(&mut self, status: u8) -> bool {
        let is_stranger = !self.is_registered;
        match status {
            GOOD => !(is_stranger && self.is_reserved),
            CONFLICT => {
                self.is_reserved = true;
                is_stranger
            }
            _ => false,
        }
    }
}

/// Whether these are so many blocks from this one on, each of which holds in all its bytes zero or
/// one of its own marks.
fn are_blocks(data: &[u8], lba: u8, count: u8) -> bool {
    let (blocks, rest) = data.as_chunks::<BLOCK>();
    let mut place = lba;
    for block in blocks {
        let value = block[0];
        let is_marked = value.wrapping_sub(1) / WRITERS == place;
        if !block.iter().all(|byte| *byte == value) || !(value == 0 || is_marked) {
            return false;
        }
        place = place.wrapping_add(1);
    }
    rest.is_empty() && place == lba.wrapping_add(count)
}

/// Whether a session's replies can be those to its commands.
fn are_replies(own: u8, replies: &[u8]) -> bool {
    let mut asks = asks_of(own);
    let mut known = nothing_of(own);
    let Some((0, _, mut replies)) = first_reply(replies) else {
        return false;
    };
    for _ in 0..COMMANDS {
        let Some((status, body, rest)) = first_reply(replies) else {
            return false;
        };
        if !known.learn(asks.next(), status, body) {
            return false;
        }
        replies = rest;
    }
    replies.len() == FRAME_HEAD
}

/// Serves a session, and says whether all is well with its replies.
fn run_session<R: Wait>(
    alloc: Global,
    rt: &R,
    gate: &Gate<Target>,
    mut pass: Pass<Target>,
    own: u8,
) -> (Note<Target>, bool)
    requires { IsOf gate.now pass × IsFree pass }
    ensures { IsNoteOf gate.now result.0 }
{
    let is_well = match frames_of(alloc, own) {
        Ok(frames) => {
            let (end, sink) = connect(alloc, rt, gate, &mut pass, frames, &mut NoBreath);
            end == SessionEnd::Closed && are_replies(own, sink.bytes())
        }
        Err(_) => false,
    };
    (gate.note(&mut pass), is_well)
}

/// Serves the sessions of the numbers down from this one, each in a thread of its own, and says
/// whether all is well with all. The first pass has then seen all that they did.
fn run_sessions<R: Threads + Wait + Sync>(
    alloc: Global,
    rt: &R,
    gate: &Gate<Target>,
    mut first: Pass<Target>,
    sessions: u8,
) -> (Pass<Target>, bool)
    requires { IsOf gate.now first × IsFree first × (sessions ≤ spare_of first) }
    ensures { IsOf gate.now result.0 × IsFree result.0 }
{
    if sessions == 0 {
        return (first, true);
    }
    let one = gate.new_pass(&mut first);
    let ((note, is_well), (mut first, are_well)) = join(
        rt,
        move || -> (Note<Target>, bool)
            requires { IsSync R.row × IsOf gate.now one × IsFree one }
            ensures { IsNoteOf gate.entry.now result.0 }
        { run_session(alloc, rt, gate, one, sessions) },
        move || -> (Pass<Target>, bool)
            requires { IsSync R.row × IsOf gate.now first × IsFree first × (0 < sessions)
                × (sessions - 1 ≤ spare_of first) }
            ensures { IsOf gate.entry.now result.0 × IsFree result.0 }
        { run_sessions(alloc, rt, gate, first, sessions - 1) },
    );
    gate.meet(&mut first, note);
    (first, is_well && are_well)
}

// A login, the commands and a logout are at least as many entries.
#[test]
fn sixteen_sessions_fit_some_order(rt: HostRuntime) -> Result<(), Fail> {
    let alloc = rt.alloc();
    let (gate, first) = fresh_gate(alloc)?;
    let (first, are_well) = run_sessions(alloc, &rt, &gate, first, SESSIONS);
    assert!(rt; are_well);
    assert!(rt; first.length() >= u64::from(SESSIONS) * (COMMANDS + 2));
    Ok(())
}
