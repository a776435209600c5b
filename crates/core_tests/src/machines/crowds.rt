//! Runs of moves of many threads: they come and go, and wait and are notified.

use super::{Answer, BROKEN, LAWFUL, OBJECT, WAIT, take};
use fast_path::Call;
use fat_monitor::Reply;
use jls_check::{Machine, MoveFault};
use lock_word::{Memory, ThreadId};
use std::alloc::Global;
use step_core::Move;

/// What a thread does, as a plain list has it.
#[derive(Clone, Copy, PartialEq, Eq)]
enum Stands {
    Gone,
    Idle,
    Waits,
}

/// What a thread of a crowd does.
#[derive(Clone, Copy)]
enum Deed {
    /// It becomes live, if it is not.
    Attach,
    /// It ends, if it may.
    End,
    /// It goes into the wait set, if it is live and not there.
    GoToWait,
    /// It is live and not in the wait set, and takes all others out of it.
    NotifyAll,
    /// After that, just those that were in the wait set lock again.
    Relock,
}

/// The moves of a deed, which name any thread.
#[derive(Clone, Copy)]
struct Moves {
    /// What it does where it stands like this, and how it stands then.
    from: Stands,
    moves: &'static [(Move, Answer)],
    to: Stands,
    /// What it does then, wherever it stood.
    always: &'static [(Move, Answer)],
}

const ANY: ThreadId = ThreadId(0);

const ATTACH: Moves = Moves {
    from: Stands::Gone,
    moves: &[
        (calls!(ANY, Call::End), BROKEN),
        (Move::Attach { thread: ANY }, LAWFUL),
    ],
    to: Stands::Idle,
    always: &[(Move::Attach { thread: ANY }, BROKEN)],
};

const END: Moves = Moves {
    from: Stands::Idle,
    moves: &[
        (calls!(ANY, Call::End), LAWFUL),
        (Move::End { thread: ANY }, LAWFUL),
        (returns!(ANY, Reply::Ended), LAWFUL),
    ],
    to: Stands::Gone,
    always: &[
        (calls!(ANY, Call::End), BROKEN),
        (returns!(ANY, Reply::Ended), BROKEN),
    ],
};

const GO_TO_WAIT: Moves = Moves {
    from: Stands::Idle,
    moves: &[
        (calls!(ANY, Call::Enter(OBJECT)), LAWFUL),
        (Move::Lock { thread: ANY }, LAWFUL),
        (returns!(ANY, Reply::Entered), LAWFUL),
        (calls!(ANY, WAIT), LAWFUL),
        (Move::Wait { thread: ANY }, LAWFUL),
    ],
    to: Stands::Waits,
    always: &[],
};

const NOTIFY_ALL: Moves = Moves {
    from: Stands::Idle,
    moves: &[],
    to: Stands::Idle,
    always: &[
        (calls!(ANY, Call::Enter(OBJECT)), LAWFUL),
        (Move::Lock { thread: ANY }, LAWFUL),
        (returns!(ANY, Reply::Entered), LAWFUL),
        (calls!(ANY, Call::NotifyAll(OBJECT)), LAWFUL),
        (Move::NotifyAll { thread: ANY }, LAWFUL),
        (returns!(ANY, Reply::Notified), LAWFUL),
        (calls!(ANY, Call::Exit(OBJECT)), LAWFUL),
        (Move::Unlock { thread: ANY }, LAWFUL),
        (returns!(ANY, Reply::Exited), LAWFUL),
    ],
};

const RELOCK: Moves = Moves {
    from: Stands::Waits,
    moves: &[
        (Move::Relock { thread: ANY }, LAWFUL),
        (returns!(ANY, Reply::WaitOver), LAWFUL),
        (calls!(ANY, Call::Exit(OBJECT)), LAWFUL),
        (Move::Unlock { thread: ANY }, LAWFUL),
        (returns!(ANY, Reply::Exited), LAWFUL),
    ],
    to: Stands::Idle,
    always: &[(Move::Relock { thread: ANY }, BROKEN)],
};

fn moves_of(deed: Deed) -> Moves {
    match deed {
        Deed::Attach => ATTACH,
        Deed::End => END,
        Deed::GoToWait => GO_TO_WAIT,
        Deed::NotifyAll => NOTIFY_ALL,
        Deed::Relock => RELOCK,
    }
}

/// A move of a deed, as this thread makes it.
fn made_by(thread: ThreadId, made: Move) -> Move {
    match made {
        Move::Attach { .. } => Move::Attach { thread },
        Move::Call { call, .. } => Move::Call { thread, call },
        Move::Return { reply, .. } => Move::Return { thread, reply },
        Move::Lock { .. } => Move::Lock { thread },
        Move::Unlock { .. } => Move::Unlock { thread },
        Move::Wait { .. } => Move::Wait { thread },
        Move::NotifyAll { .. } => Move::NotifyAll { thread },
        Move::Relock { .. } => Move::Relock { thread },
        Move::End { .. } => Move::End { thread },
        _ => made,
    }
}

/// What the threads of a crowd do, those below a number or so many others.
#[derive(Clone, Copy)]
pub(super) enum Act {
    /// They come, some of them wait, they go and come again, and the last ones notify.
    Live(u32),
    /// They are live, a few of them wait, and these are notified beside the others.
    NotifyFew(u32, u32),
    /// They come, two of three wait, and the rest ends before all are notified.
    NotifyRest(u32),
}

/// A machine with one object, beside a plain list of what each of some threads does.
#[derive(Drop)]
struct Crowd<'a> {
    machine: &'a mut Machine,
    // The thread at an index has this multiple of it for its number.
    step: u32,
    threads: &'a mut [Stands],
}

impl Crowd<'_> {
    /// Whether a move is answered so. An attach that is to be lawful and is refused memory leaves
    /// its thread not live, and is tried again.
    fn takes(&mut self, made: Move, answer: Answer) -> bool {
        let told = take(self.machine, made);
        match made {
            Move::Attach { thread } if answer == LAWFUL && told == Err(MoveFault::Memory) => {
                take(self.machine, calls!(thread, Call::End)) == BROKEN
                    && take(self.machine, made) == answer
            }
            _ => told == answer,
        }
    }

    fn takes_all(&mut self, thread: ThreadId, moves: &[(Move, Answer)]) -> bool {
        for &(made, answer) in moves {
            if !self.takes(made_by(thread, made), answer) {
                return false;
            }
        }
        true
    }

    /// Whether a thread does what it should.
    fn does(&mut self, index: u32, deed: Deed) -> bool {
        let Moves {
            from,
            moves,
            to,
            always,
        } = moves_of(deed);
        let thread = ThreadId(index.wrapping_mul(self.step));
        let Some(stands) = self.threads.get_mut(index as usize) else {
            return false;
        };
        let stood_so = *stands == from;
        if stood_so {
            *stands = to;
        }
        (!stood_so || self.takes_all(thread, moves)) && self.takes_all(thread, always)
    }

    /// The same of threads from the first up to an end, but for each that is a multiple of this.
    fn all_do(&mut self, first: u32, end: u32, but: u32, deed: Deed) -> bool {
        for index in first..end {
            if index.checked_rem(but) != Some(0) && !self.does(index, deed) {
                return false;
            }
        }
        true
    }

    /// Threads come, and some of them wait.
    fn come(&mut self, count: u32) -> bool {
        for index in 0..count {
            let waits = index % 7 == 3;
            if !self.does(index, Deed::Attach) || waits && !self.does(index, Deed::GoToWait) {
                return false;
            }
        }
        true
    }

    /// Threads go, and come again.
    fn come_and_go(&mut self, count: u32) -> bool {
        let mut drawn = count;
        for _ in 0..count {
            drawn = drawn.wrapping_mul(1_664_525).wrapping_add(1_013_904_223);
            let index = (drawn >> 8) % count.max(1);
            let deed = if drawn % 3 == 0 {
                Deed::Attach
            } else {
                Deed::End
            };
            if !self.does(index, deed) {
                return false;
            }
        }
        true
    }

    /// Whether the threads act as they should.
    fn acts(&mut self, act: Act) -> bool {
        match act {
            Act::Live(count) => {
                self.come(count)
                    && self.come_and_go(count)
                    && self.all_do(1, count, 0, Deed::End)
                    && self.does(0, Deed::Attach)
                    && self.does(0, Deed::NotifyAll)
                    && self.all_do(0, count, 0, Deed::Relock)
                    && self.all_do(0, count, 0, Deed::End)
            }
            Act::NotifyFew(count, waiting) => {
                self.all_do(0, count, 0, Deed::Attach)
                    && self.all_do(1, waiting.saturating_add(1), 0, Deed::GoToWait)
                    && self.does(0, Deed::NotifyAll)
                    && self.all_do(0, count, 0, Deed::Relock)
            }
            Act::NotifyRest(count) => {
                self.all_do(0, count, 0, Deed::Attach)
                    && self.all_do(0, count, 3, Deed::GoToWait)
                    && self.all_do(1, count, 0, Deed::End)
                    && self.does(0, Deed::NotifyAll)
                    && self.all_do(0, count, 0, Deed::Relock)
            }
        }
    }
}

/// Whether a crowd acts as it should.
fn all_act(crowd: &mut Crowd<'_>, acts: &[Act]) -> bool {
    for act in acts {
        if !crowd.acts(*act) {
            return false;
        }
    }
    true
}

/// The same of a new crowd of so many threads, whose numbers are so far apart.
pub(super) fn plays(alloc: Global, step: u32, count: usize, acts: &[Act]) -> Result<bool, Memory> {
    let mut threads = vec![in alloc; Stands::Gone; count]?;
    let mut machine = Machine::new(alloc, 1)?;
    let mut crowd = Crowd {
        machine: &mut machine,
        step,
        threads: threads.as_mut_slice(),
    };
    Ok(all_act(&mut crowd, acts))
}

/// Threads come and go while a table of positions for their numbers grows and gives memory back:
/// with numbers one after the other, with numbers whose low bits are all alike, and with numbers
/// far apart.
#[test]
fn crowds_come_and_go(rt: HostRuntime) {
    const STEPS: [u32; 6] = [1, 7, 65_536, 1_048_576, 2_147_483_647, 2_654_435_769];
    const ACTS: [Act; 9] = [
        Act::Live(1),
        Act::Live(4),
        Act::Live(5),
        Act::Live(9),
        Act::Live(16),
        Act::Live(40),
        Act::Live(300),
        Act::Live(1_500),
        Act::Live(20),
    ];
    for step in STEPS {
        assert!(rt; plays(rt.alloc(), step, 1_500, &ACTS) == Ok(true), "{step}");
    }
}

/// Many threads wait, and some of those that do not end before all are notified, so that others
/// stand where they stood.
#[test]
fn the_rest_of_a_crowd_is_notified(rt: HostRuntime) {
    const STEPS: [u32; 3] = [65_536, 1, 2_654_435_769];
    const ACTS: [Act; 1] = [Act::NotifyRest(1_200)];
    for step in STEPS {
        assert!(rt; plays(rt.alloc(), step, 1_200, &ACTS) == Ok(true), "{step}");
    }
}

/// A few threads wait among many that do not, and stay live: fewer than there are notes to look at,
/// as many, and more.
#[test]
fn a_few_of_a_crowd_are_notified(rt: HostRuntime) {
    for waiting in [1, 3, 9, 10, 11, 40] {
        let acts = [Act::NotifyFew(320, waiting), Act::NotifyFew(320, 2)];
        assert!(rt;
            plays(rt.alloc(), 65_536, 320, &acts) == Ok(true),
            "{waiting}"
        );
    }
}
