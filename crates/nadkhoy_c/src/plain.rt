//! Steps and what they did, as structs of numbers. `include/nadkhoy.h` has the same structs and
//! numbers.

/// A call: which one, the object or the thread that it names, and the time of a wait. What a call
/// of its kind does not use is not read.
#[repr(C)]
#[derive(Clone, Copy)]
pub struct PlainCall {
    /// Milliseconds.
    pub millis: i64,
    pub nanos: i32,
    /// 1 to 10, in the order of [`Call`](step_core::Call); 0 is no call.
    pub kind: u32,
    /// The object that the call is on, or the thread that it asks about.
    pub target: u32,
}

/// A step. What a step of its kind does not use is not read.
#[repr(C)]
#[derive(Clone, Copy)]
pub struct PlainStep {
    /// 1 to 6, in the order of [`Step`](step_core::Step).
    pub kind: u32,
    pub thread: u32,
    /// The moment that a Tick tells, in nanoseconds.
    pub moment: u64,
    /// What a Begin begins.
    pub call: PlainCall,
}

/// The one change that a step made. What a change of its kind does not have is 0.
#[repr(C)]
#[derive(Clone, Copy)]
pub struct PlainAtomic {
    /// 0 to 7, in the order of [`Atomic`](step_core::Atomic).
    pub kind: u32,
    pub object: u32,
    /// The word that was loaded, or that stood there before.
    pub before: u32,
    /// The word that stands there now.
    pub after: u32,
    /// The monitor that was bound.
    pub monitor: u32,
    /// Why none was bound.
    pub cause: u32,
    /// 1 to 13, in the order of [`Action`](step_core::Action).
    pub action: u32,
    /// 1 a reply, 2 parked, 3 neither.
    pub answer: u32,
}

/// A move of the abstract machine. What a move of its kind does not have is 0.
#[repr(C)]
#[derive(Clone, Copy)]
pub struct PlainMove {
    /// 1 to 20, in the order of [`Move`](step_core::Move); 0 is no move.
    pub kind: u32,
    pub thread: u32,
    pub reply: u32,
    pub cause: u32,
    /// 1 where a Notify took a thread out of the wait set, which is `chosen`.
    pub has_chosen: u32,
    pub chosen: u32,
    /// The moment that a Time tells, in nanoseconds.
    pub moment: u64,
    pub call: PlainCall,
}

/// What a step did.
#[repr(C)]
#[derive(Clone, Copy)]
pub struct PlainDid {
    pub atomic: PlainAtomic,
    /// 1 to 12, in the order of [`Reply`](step_core::Reply); 0 where the call has none yet.
    pub reply: u32,
    /// Why the call was refused.
    pub cause: u32,
    pub moves: [PlainMove; 3],
}

/// The sizes of a world, and its moment.
#[repr(C)]
#[derive(Clone, Copy)]
pub struct PlainSizes {
    /// The moment that was told last, in nanoseconds.
    pub moment: u64,
    pub objects: u32,
    /// The most threads that are live at once.
    pub indices: u32,
}

/// What a world shows of an object.
#[repr(C)]
#[derive(Clone, Copy)]
pub struct PlainObject {
    pub word: u32,
    /// 1 where it has an owner.
    pub is_owned: u32,
    /// The owner, and 0 where there is none.
    pub owner: u32,
    /// How often the owner holds it, 0 to 65,535.
    pub holds: u32,
}

/// What a thread is doing. What is not said of its kind is 0.
#[repr(C)]
#[derive(Clone, Copy)]
pub struct PlainDoing {
    /// 1 to 5, in the order of [`Doing`](step_core::Doing).
    pub kind: u32,
    /// The object that it waits on, or comes back to.
    pub object: u32,
    /// How often it held the object.
    pub holds: u32,
    /// 1 to 4, in the order of [`Why`](step_core::Why): why it is back.
    pub why: u32,
    /// The reply that it has.
    pub reply: u32,
    /// Why its call was refused.
    pub cause: u32,
    /// 1 where its wait has a deadline, which is `deadline_high` times 2 to the power of 64, and
    /// `deadline_low`, in nanoseconds.
    pub has_deadline: u32,
    pub deadline_high: u64,
    pub deadline_low: u64,
    /// The call that it wants.
    pub call: PlainCall,
}

/// What a world shows of a live thread.
#[repr(C)]
#[derive(Clone, Copy)]
pub struct PlainThread {
    pub index: u32,
    /// 1 where it is interrupted.
    pub is_interrupted: u32,
    pub doing: PlainDoing,
}

/// What a turn of a call of the live service came to.
#[repr(C)]
#[derive(Clone, Copy)]
pub struct PlainTurned {
    /// 1 the call is over, 2 another thread owns the object, 3 another seat has the gate, 4 parked.
    pub standing: u32,
    /// 1 to 12, in the order of [`Reply`](step_core::Reply); 0 where the call goes on.
    pub reply: u32,
    /// Why the call was refused.
    pub cause: u32,
    /// The number of the thread that the turn made an owner; 0 for none.
    pub granted: u32,
}

/// The sizes of the end of a live service.
#[repr(C)]
#[derive(Clone, Copy)]
pub struct PlainEnd {
    pub objects: u64,
    /// How many deeds the record has.
    pub deeds: u64,
    pub passes: u64,
}

/// A deed of the record of a live service. What a deed of its kind does not have is 0.
#[repr(C)]
#[derive(Clone, Copy)]
pub struct PlainDeed {
    /// The moment that was told, in nanoseconds.
    pub moment: u64,
    /// Milliseconds, and nanoseconds, of a wait.
    pub millis: i64,
    pub nanos: i32,
    /// 1 to 3, in the order of [`Deed`](live_turns::Deed).
    pub kind: u32,
    /// Who did it.
    pub thread: u32,
    /// The object that got a monitor, and how often the thread held it.
    pub object: u32,
    pub holds: u32,
    /// The monitor that was bound, or that the action is on.
    pub monitor: u32,
    /// 1 to 13, in the order of [`Action`](step_core::Action).
    pub action: u32,
    /// The thread that the action asks about.
    pub target: u32,
    /// 1 a reply, 2 parked, 3 neither.
    pub answer: u32,
    /// 1 to 12, in the order of [`Reply`](step_core::Reply).
    pub reply: u32,
    /// Why the action was refused.
    pub cause: u32,
}

/// A pass of a live service in the end.
#[repr(C)]
#[derive(Clone, Copy)]
pub struct PlainPass {
    /// How many deeds it did.
    pub deeds: u64,
    /// The number of its thread.
    pub thread: u32,
}
