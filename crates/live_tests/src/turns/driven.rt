//! Calls of two passes on one object, which one thread drives turn by turn.

ghost use Rattle.std.specs.Prelude.{◌≡◌, false};
ghost use Rattle.live_turns.specs.Ways.{Belongs};

use fast_path::{MonitorCall, Operation};
use fat_monitor::Reply;
use live_turns::{Closed, Crew, Deed, LiveFault, Logged, Standing, TurnPass, Turned, Turns};
use lock_word::{ObjectId, ThreadId, Word};
use std::alloc::Global;
use std::marker::Brand;
use std::process::Abort;
use std::sync::ledger::Blank;
use std::test::Fail;
use step_core::{Place, Point};

const OBJECT: ObjectId = ObjectId(0);

const FIRST: ThreadId = ThreadId(1);

const SECOND: ThreadId = ThreadId(2);

/// What a pass does: the first turn of a call, or one more turn of the call that it is in.
#[derive(Clone, Copy)]
enum Ask {
    Begins(Operation),
    Turns,
}

/// A turn of a thread, where its call stands then, and whom the turn made an owner.
type Row = (ThreadId, Ask, Standing, Option<ThreadId>);

/// A turn of a pass; None where it cannot begin a call, since it is in one.
fn turn<L: Crew>(
    turns: &Turns<L>,
    pass: &mut TurnPass<L>,
    ask: Ask,
) -> Option<Result<Turned, LiveFault>>
    requires belongs { Belongs turns.now false pass.old.holding }
    ensures belongs { Belongs turns.now false pass.new.holding }
{
    match (ask, pass.point()) {
        (Ask::Turns, _) => Some(turns.turn(pass)),
        (Ask::Begins(operation), Point::At(Place::Idle)) => {
            let object = OBJECT;
            Some(turns.begin_on(pass, MonitorCall { object, operation }))
        }
        _ => None,
    }
}

/// Whether a turn comes to what its row says.
fn comes_to<L: Crew>(turns: &Turns<L>, pass: &mut TurnPass<L>, row: Row) -> bool
    requires belongs { Belongs turns.now false pass.old.holding }
    ensures belongs { Belongs turns.now false pass.new.holding }
{
    let (_, ask, standing, granted) = row;
    match turn(turns, pass, ask) {
        Some(Ok(turned)) => turned.standing() == standing && turned.granted == granted,
        _ => false,
    }
}

/// Takes these turns, each of which comes to what its row says.
fn go_through<L: Crew>(
    rt: &impl Abort,
    turns: &Turns<L>,
    first: &mut TurnPass<L>,
    second: &mut TurnPass<L>,
    rows: &[Row],
)
    requires first { Belongs turns.now false first.old.holding }
    requires second { Belongs turns.now false second.old.holding }
    ensures first { Belongs turns.now false first.new.holding }
    ensures second { Belongs turns.now false second.new.holding }
{
    for (number, &row) in rows.iter().enumerate() {
        let comes = if row.0 == FIRST {
            comes_to(turns, first, row)
        } else {
            comes_to(turns, second, row)
        };
        assert!(rt; comes, "row {number}");
    }
}

/// Opens a service of one object, one monitor, two passes and twenty places, takes these turns, and
/// closes it.
fn driven<L: Crew>(
    rt: &impl Abort,
    alloc: Global,
    blank: Blank,
    rows: &[Row],
) -> Result<Closed, Fail>
    requires name { blank.name ≡ L.name }
    requires parts { (blank.parts ≡ L.parts) × (L.parts ≡ 2) }
    requires crew { (L.passes ≡ 2) × (L.monitors ≡ 1) × (L.places ≡ 20) }
{
    let (turns, mut passes) = Turns::<L>::open(alloc, blank, &[0xa5], 1, 2, 20)?;
    let (Some(mut second), Some(mut first)) = (passes.pop(), passes.pop()) else {
        return Err(Fail::from("two passes"));
    };
    go_through(rt, &turns, &mut first, &mut second, rows);
    let Ok(closed) = turns.close(alloc, vec![in alloc; first, second]?) else {
        return Err(Fail::from("not closed"));
    };
    Ok(closed)
}

const ENTERED: Standing = Standing::Said(Reply::Entered);

const EXITED: Standing = Standing::Said(Reply::Exited);

const ENTER: Ask = Ask::Begins(Operation::Enter);

const EXIT: Ask = Ask::Begins(Operation::Exit);

/// An enter meets a thin word of another thread, and once it has the word it inflates it: so the
/// other thread parks, and is granted the monitor.
const MEETS_AND_INFLATES: [Row; 9] = [
    (FIRST, ENTER, ENTERED, None),
    (SECOND, ENTER, Standing::Contended, None),
    (SECOND, Ask::Turns, Standing::Contended, None),
    (FIRST, EXIT, EXITED, None),
    (SECOND, Ask::Turns, ENTERED, None),
    (FIRST, ENTER, Standing::Parked, None),
    (SECOND, EXIT, EXITED, Some(FIRST)),
    (FIRST, Ask::Turns, ENTERED, None),
    (FIRST, EXIT, EXITED, None),
];

/// The first deed of the record: the second thread got the one monitor for its one hold.
const BOUND: Logged = Logged {
    thread: SECOND,
    deed: Deed::Bound {
        object: OBJECT,
        holds: 1,
        monitor: 0,
    },
};

#[test]
fn an_enter_that_met_another_thread_inflates(rt: HostRuntime) -> Result<(), Fail> {
    let closed = driven::<Brand>(&rt, rt.alloc(), Blank::new(2), &MEETS_AND_INFLATES)?;
    assert!(rt; closed.words.first() == Some(&Word(0x8000_00a5)));
    assert!(rt; closed.logged.first() == Some(&BOUND));
    // The bind and an exit; an enter that parked, its collect and an exit.
    assert!(rt; closed.counts.as_slice() == [3, 2].as_slice());
    Ok(())
}
