//! What is done before a move is judged.

use step_core::{Call, Move, ObjectId, Reply, ThreadId};

/// What is done before a move is judged: some lawful moves.
#[derive(Clone, Copy)]
pub enum Setup {
    /// The thread enters the object, and returns.
    Enters(ThreadId, ObjectId),
    /// It exits the object, and returns.
    Exits(ThreadId, ObjectId),
    /// It interrupts the other thread, and returns.
    Interrupts(ThreadId, ThreadId),
    /// It makes this call of a wait, and waits.
    Waits(ThreadId, Call),
    /// This move is made.
    Makes(Move),
}

impl Setup {
    /// The moves of a setup, in order.
    pub fn moves(self) -> [Option<Move>; 3] {
        match self {
            Setup::Enters(thread, object) => whole_call(
                thread,
                Call::Enter(object),
                Move::Lock { thread },
                Reply::Entered,
            ),
            Setup::Exits(thread, object) => whole_call(
                thread,
                Call::Exit(object),
                Move::Unlock { thread },
                Reply::Exited,
            ),
            Setup::Interrupts(thread, target) => whole_call(
                thread,
                Call::Interrupt(target),
                Move::Interrupt { thread },
                Reply::Done,
            ),
            Setup::Waits(thread, call) => [
                Some(Move::Call { thread, call }),
                Some(Move::Wait { thread }),
                None,
            ],
            Setup::Makes(made) => [Some(made), None, None],
        }
    }
}

/// A call, its answer and its return.
fn whole_call(thread: ThreadId, call: Call, answer: Move, reply: Reply) -> [Option<Move>; 3] {
    [
        Some(Move::Call { thread, call }),
        Some(answer),
        Some(Move::Return { thread, reply }),
    ]
}
