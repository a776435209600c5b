//! What must not happen.

use fast_path::Call;
use fat_monitor::Reply;
use live_turns::LiveFault;
use lock_word::Memory;
use std::num::ParseIntError;
use std::{fmt, io};
use thiserror::Error;

/// What must not happen.
#[derive(Drop, Error)]
pub enum Trouble {
    #[error("the argument is no number of rounds")]
    Rounds(#[from] ParseIntError),
    #[error("{0}")]
    Memory(#[from] Memory),
    #[error("{0:?} has the reply {1}")]
    Reply(Call, Reply),
    #[error("{0:?} met the fault {1}")]
    Fault(Call, LiveFault),
    #[error("the thread that tells the moments met the fault {0}")]
    Keeper(LiveFault),
    #[error("a worker was stopped")]
    Stopped,
    #[error("object {object} was entered {enters} times, and its account has {balance}")]
    Account {
        object: u32,
        enters: u64,
        balance: u64,
    },
    #[error("the record has {logged} deeds, and the threads did {counted}")]
    Record {
        logged: u64,
        counted: u64,
    },
    #[error("the passes are not those of the service")]
    Passes,
    #[error("the deeds of a pass are not those of the record")]
    Torn,
    #[error("no thread could be started for a round")]
    Thread,
    #[error("the system: {0}")]
    System(#[from] io::Error),
}

/// Its text, which has all that it says.
impl fmt::Debug for Trouble {
    fn fmt<W: fmt::Write>(&self, f: &mut fmt::Formatter<W>) -> fmt::Result {
        fmt::Display::fmt(self, f)
    }
}
