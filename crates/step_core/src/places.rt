//! Where a thread stands in its call.

use fast_path::{InterruptCall, MonitorCall};
use lock_word::{Lock, ObjectId};

/// Where a thread stands: what its next Go does.
#[derive(Clone, Copy)]
pub enum Place {
    /// In no call.
    Idle,
    /// At a stage of a call on an object, or about interrupts.
    InCall(Stage),
    /// It is to end. It loaded the words of the objects below `loaded`, none of which it owns
    /// thinly, and is to load the next one, or to act where there is none.
    Ending { loaded: u32 },
    /// Its post among the fat monitors says it: it stands in a line, or was granted its reply,
    /// which its next Go collects.
    AtPost,
}

/// A stage of a call on an object, or about interrupts.
#[derive(Clone, Copy)]
pub enum Stage {
    /// At the load of its object's word. A contended call has met another thread, by a thin word of
    /// that thread's or by an exchange that it lost.
    Begun {
        call: MonitorCall,
        contended: bool,
    },
    /// An enter loaded the free word, which it is to exchange for its own.
    Taking {
        object: ObjectId,
        contended: bool,
    },
    /// It loaded a thin word of its own, which it is to store with this lock.
    Storing {
        call: MonitorCall,
        lock: Lock,
    },
    /// It loaded a thin word of its own with this count, and is to bind a fat monitor.
    Binding {
        call: MonitorCall,
        count: u16,
    },
    /// It loaded a fat word, and is to act on its monitor.
    Acting {
        call: MonitorCall,
        monitor: u32,
    },
    /// A contended enter won the word, and is to bind a fat monitor.
    Won {
        object: ObjectId,
    },
    /// It bound the monitor, and is to store the fat word; `won` says of an enter that it has won
    /// the word after contention.
    Bound {
        call: MonitorCall,
        won: bool,
        monitor: u32,
    },
    /// It stored the fat word, and is to act on the monitor.
    Inflated {
        call: MonitorCall,
        monitor: u32,
    },
    /// Its call is about interrupts, and is to act.
    Direct {
        call: InterruptCall,
    },
}
