//! Which replies a call may have.

use crate::trouble::Trouble;
use fast_path::Call;
use fat_monitor::Reply;
use live_turns::LiveFault;

/// Whether the call may have this reply, by a thread that calls only where it is allowed.
fn may_have(call: Call, reply: Reply) -> bool {
    match call {
        Call::Enter(_) => reply == Reply::Entered,
        Call::Exit(_) => reply == Reply::Exited,
        Call::Wait { .. } => reply == Reply::WaitOver || reply == Reply::Interrupted,
        Call::Notify(_) | Call::NotifyAll(_) => reply == Reply::Notified,
        Call::Interrupt(_) => reply == Reply::Done,
        Call::Holds(_) => reply == Reply::No,
        Call::Interrupted | Call::IsInterrupted(_) => reply == Reply::Yes || reply == Reply::No,
        Call::End => false,
    }
}

/// Each call of a worker must have its reply.
pub fn check(calls: &[Call], answers: &[Result<Reply, LiveFault>]) -> Result<(), Trouble> {
    if answers.len() < calls.len() {
        return Err(Trouble::Stopped);
    }
    for (call, answer) in calls.iter().zip(answers) {
        match answer {
            Ok(reply) if may_have(*call, *reply) => {}
            Ok(reply) => return Err(Trouble::Reply(*call, *reply)),
            Err(fault) => return Err(Trouble::Fault(*call, *fault)),
        }
    }
    Ok(())
}
