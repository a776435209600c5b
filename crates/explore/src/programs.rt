//! Programs, and the choices of what is done next.

ghost use Rattle.std.specs.Prelude.{◌≡◌, ◌≤◌, true, vec_len};
ghost use Rattle.explore.specs.Starts.{rise_to};
ghost use Rattle.lock_word.specs.Layout.{greatest_index};

use fast_path::Call;
use lock_word::Split;

/// A program: objects, threads with the calls that each makes, and a clock.
///
/// The threads have the numbers from 0 on, and are attached in their order before anything else.
#[derive(Drop)]
pub struct Program {
    /// The low byte of each object's header word: 0 to 65,535 of them.
    pub lows: Vec<u8>,
    /// How many fat monitors there may be, 0 to 8,388,608.
    pub monitors: u32,
    /// How many threads may be live at once, at least as many as there are: 1 to 32,767, or 2,047
    /// where the split is [`Deep`](Split::Deep).
    pub indices: u16,
    /// How thin words divide their bits between index and count.
    pub split: Split,
    /// The calls of the first thread in order, then those of the second, and so on: at most 1,024.
    pub calls: Vec<Call>,
    /// Where in `calls` those of each thread begin, in rising order ([`are_in_order`]): at most 64
    /// threads. They go on to where the next thread's begin.
    pub starts: Vec<usize>,
    /// The moments that the clock tells, one after the other, in nanoseconds: at most 1,048,576.
    /// One that is before the moment that was told last is refused, and the clock stops there.
    pub moments: Vec<u64>,
    /// Whether a wait may end for no reason that a program can see.
    pub spurious: bool,
    ghost monitors_fit: { monitors ≤ 8388608 },
    ghost has_indices: { 1 ≤ indices },
    ghost indices_fit: { indices ≤ greatest_index split },
    ghost objects_fit: { vec_len lows ≤ 65535 },
    ghost starts_rise: { rise_to 0 starts.items (vec_len calls) ≡ true },
    ghost threads_fit: { vec_len starts ≤ 64 },
    ghost threads_are_live: { vec_len starts ≤ indices },
    ghost calls_fit: { vec_len calls ≤ 1024 },
    ghost moments_fit: { vec_len moments ≤ 1048576 },
}

/// Whether positions rise, and none is past the end: so do those where the calls of threads begin.
pub fn are_in_order(starts: &[usize], end: usize) -> bool
    ensures { result ≡ rise_to 0 starts.now end }
{
    let mut last = 0;
    'starts: for start in starts {
        if *start < last {
            return false;
        }
        last = *start;
    }
    last <= end
}

/// What is done next.
#[derive(Clone, Copy, PartialEq, Eq, Debug)]
pub enum Choice {
    /// The thread begins its next call.
    Begin { thread: u8 },
    /// The thread does the next atomic step of its call.
    Go { thread: u8 },
    /// The wait of the thread ends, since its deadline has come.
    Expire { thread: u8 },
    /// The wait of the thread ends for no reason that a program can see.
    Spurious { thread: u8 },
    /// The clock tells its next moment.
    Tick,
}
