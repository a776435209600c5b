use crate::rows::expect_none;
use fast_path::{Call, Next, decide};
use fat_monitor::Reply;
use lock_word::{Lock, ObjectId, Split};

const OBJECT: ObjectId = ObjectId(3);

const ENTER: Call = Call::Enter(OBJECT);

const EXIT: Call = Call::Exit(OBJECT);

const HOLDS: Call = Call::Holds(OBJECT);

const NOTIFY: Call = Call::Notify(OBJECT);

const NOTIFY_ALL: Call = Call::NotifyAll(OBJECT);

/// A wait of so many milliseconds and nanoseconds.
macro_rules! waits {
    ($millis:expr, $nanos:expr) => {
        Call::Wait {
            object: OBJECT,
            millis: $millis,
            nanos: $nanos,
        }
    };
}

const FAT: Lock = Lock::Fat { monitor: 9 };

const OWN: Lock = thin!(2, 7);

const ANOTHERS: Lock = thin!(1, 7);

const ILLEGAL: Next = Next::Reply(Reply::IllegalMonitorState);

const BAD_TIME: Next = Next::Reply(Reply::IllegalArgument);

const NOTIFIED: Next = Next::Reply(Reply::Notified);

/// A call of the thread with index 2, the lock of its object, and what the call does next.
type Row = (Call, Lock, Next);

/// The first of these rows in which the call does something else, or names another object.
fn first_other(split: Split, rows: &[Row]) -> Option<usize> {
    for (row, &(call, lock, wanted)) in rows.iter().enumerate() {
        if call.object() != Some(OBJECT) || decide(split, call, lock, 2) != wanted {
            return Some(row);
        }
    }
    None
}

const WAITS_AND_NOTIFIES: [Row; 17] = [
    (waits!(-1, 0), Lock::Free, ILLEGAL),
    (waits!(0, 0), OWN, Next::Bind),
    (waits!(0, 999_999), OWN, Next::Bind),
    (waits!(i64::MAX, 0), OWN, Next::Bind),
    (waits!(-1, 0), OWN, BAD_TIME),
    (waits!(0, -1), OWN, BAD_TIME),
    (waits!(0, 1_000_000), OWN, BAD_TIME),
    (waits!(0, 0), ANOTHERS, ILLEGAL),
    (waits!(-1, 0), FAT, Next::Fat(9)),
    (NOTIFY, Lock::Free, ILLEGAL),
    (NOTIFY, OWN, NOTIFIED),
    (NOTIFY, ANOTHERS, ILLEGAL),
    (NOTIFY, FAT, Next::Fat(9)),
    (NOTIFY_ALL, Lock::Free, ILLEGAL),
    (NOTIFY_ALL, OWN, NOTIFIED),
    (NOTIFY_ALL, ANOTHERS, ILLEGAL),
    (NOTIFY_ALL, FAT, Next::Fat(9)),
];

const WIDE: [Row; 15] = [
    (ENTER, Lock::Free, Next::Cas(thin!(2, 0))),
    (ENTER, thin!(2, 0), Next::Store(thin!(2, 1))),
    (ENTER, thin!(2, 254), Next::Store(thin!(2, 255))),
    (ENTER, thin!(2, 255), Next::Bind),
    (ENTER, thin!(1, 0), Next::Spin),
    (ENTER, FAT, Next::Fat(9)),
    (EXIT, Lock::Free, ILLEGAL),
    (EXIT, thin!(2, 1), Next::Store(thin!(2, 0))),
    (EXIT, thin!(2, 0), Next::Store(Lock::Free)),
    (EXIT, thin!(3, 0), ILLEGAL),
    (EXIT, FAT, Next::Fat(9)),
    (HOLDS, Lock::Free, Next::Reply(Reply::No)),
    (HOLDS, OWN, Next::Reply(Reply::Yes)),
    (HOLDS, ANOTHERS, Next::Reply(Reply::No)),
    (HOLDS, FAT, Next::Fat(9)),
];

const DEEP: [Row; 2] = [
    (ENTER, thin!(2, 255), Next::Store(thin!(2, 256))),
    (ENTER, thin!(2, 4_095), Next::Bind),
];

const TABLES: [(&str, Split, &[Row]); 3] = [
    (
        "a wait and a notify call for this",
        Split::Wide,
        &WAITS_AND_NOTIFIES,
    ),
    ("a loaded lock calls for this", Split::Wide, &WIDE),
    ("a loaded deep lock calls for this", Split::Deep, &DEEP),
];

#[test]
fn a_loaded_lock_calls_for_this(rt: HostRuntime) {
    for (name, split, rows) in TABLES {
        expect_none(&rt, name, Ok(first_other(split, rows)));
    }
    assert!(rt; Call::End.object() == None);
}
