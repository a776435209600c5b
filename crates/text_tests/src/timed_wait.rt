//! Programs with a timed wait, with the reports that are wanted of them.

/// A thread that waits for a time, and then interrupts one that is not there; and one that notifies
/// it, or comes too early, or too late.
pub(crate) const TIMED: &[u8] = b"world 1 2
object a 00
thread x
call enter a
call wait a 0 5
call interrupt s
thread y
call enter a
call notify a
clock 5
";

/// What comes of it, as the second explorer of `bench` finds it, with scripts.
pub(crate) const TIMED_REPORT: &[u8] = b"states 144 steps 293
outcome 1 ends 1
thread x stuck enter a
thread y Entered Notified
object a owner y holds 1 waiting -
script 12
world 1 2
object a 00
attach x
attach y
begin x enter a
begin y enter a
go y
go y
go x
begin y notify a
go y
tick 5
outcome 2 ends 2
thread x Entered stuck back a 1
thread y Entered Notified
object a owner y holds 1 waiting -
script 19
world 1 2
object a 00
attach x
attach y
begin x enter a
go x
go x
begin x wait a 0 5
go x
go x
go x
go x
begin y enter a
go y
go y
begin y notify a
go y
go y
tick 5
outcome 3 ends 1
thread x Entered WaitOver Refused/NoThread
thread y stuck enter a
object a owner x holds 1 waiting -
script 20
world 1 2
object a 00
attach x
attach y
begin x enter a
go x
go x
begin x wait a 0 5
go x
go x
go x
go x
begin y enter a
go y
tick 5
expire x
go x
begin x interrupt s
go x
go y
";

/// The same with the histories of those scripts.
pub(crate) const TIMED_HISTORIES: &[u8] = b"states 144 steps 293
outcome 1 ends 1
thread x stuck enter a
thread y Entered Notified
object a owner y holds 1 waiting -
history 11
{\"objects\":1}
{\"move\":\"Attach\",\"thread\":0}
{\"move\":\"Attach\",\"thread\":1}
{\"call\":\"Enter\",\"move\":\"Call\",\"object\":0,\"thread\":0}
{\"call\":\"Enter\",\"move\":\"Call\",\"object\":0,\"thread\":1}
{\"move\":\"Lock\",\"thread\":1}
{\"move\":\"Return\",\"reply\":\"Entered\",\"thread\":1}
{\"call\":\"Notify\",\"move\":\"Call\",\"object\":0,\"thread\":1}
{\"chosen\":null,\"move\":\"Notify\",\"thread\":1}
{\"move\":\"Return\",\"reply\":\"Notified\",\"thread\":1}
{\"move\":\"Time\",\"now\":5}
outcome 2 ends 2
thread x Entered stuck back a 1
thread y Entered Notified
object a owner y holds 1 waiting -
history 15
{\"objects\":1}
{\"move\":\"Attach\",\"thread\":0}
{\"move\":\"Attach\",\"thread\":1}
{\"call\":\"Enter\",\"move\":\"Call\",\"object\":0,\"thread\":0}
{\"move\":\"Lock\",\"thread\":0}
{\"move\":\"Return\",\"reply\":\"Entered\",\"thread\":0}
{\"call\":\"Wait\",\"millis\":0,\"move\":\"Call\",\"nanos\":5,\"object\":0,\"thread\":0}
{\"move\":\"Wait\",\"thread\":0}
{\"call\":\"Enter\",\"move\":\"Call\",\"object\":0,\"thread\":1}
{\"move\":\"Lock\",\"thread\":1}
{\"move\":\"Return\",\"reply\":\"Entered\",\"thread\":1}
{\"call\":\"Notify\",\"move\":\"Call\",\"object\":0,\"thread\":1}
{\"chosen\":0,\"move\":\"Notify\",\"thread\":1}
{\"move\":\"Return\",\"reply\":\"Notified\",\"thread\":1}
{\"move\":\"Time\",\"now\":5}
outcome 3 ends 1
thread x Entered WaitOver Refused/NoThread
thread y stuck enter a
object a owner x holds 1 waiting -
history 16
{\"objects\":1}
{\"move\":\"Attach\",\"thread\":0}
{\"move\":\"Attach\",\"thread\":1}
{\"call\":\"Enter\",\"move\":\"Call\",\"object\":0,\"thread\":0}
{\"move\":\"Lock\",\"thread\":0}
{\"move\":\"Return\",\"reply\":\"Entered\",\"thread\":0}
{\"call\":\"Wait\",\"millis\":0,\"move\":\"Call\",\"nanos\":5,\"object\":0,\"thread\":0}
{\"move\":\"Wait\",\"thread\":0}
{\"call\":\"Enter\",\"move\":\"Call\",\"object\":0,\"thread\":1}
{\"move\":\"Time\",\"now\":5}
{\"move\":\"Expire\",\"thread\":0}
{\"move\":\"Relock\",\"thread\":0}
{\"move\":\"Return\",\"reply\":\"WaitOver\",\"thread\":0}
{\"call\":\"Interrupt\",\"move\":\"Call\",\"target\":2,\"thread\":0}
{\"cause\":\"NoThread\",\"move\":\"Refuse\",\"thread\":0}
{\"cause\":\"NoThread\",\"move\":\"Return\",\"reply\":\"Refused\",\"thread\":0}
";

/// A thread that waits for a time, notifies nobody, and interrupts one that is not there; or the
/// moment comes before it waits, and no other.
pub(crate) const TIMED_SMALL: &[u8] = b"world 1 1
object a 00
thread x
call enter a
call wait a 0 5
call notify a
call interrupt s
clock 5
";

/// What comes of that on the Java machine, as the second explorer of the machine finds it.
pub(crate) const TIMED_OF_THE_MACHINE: &[u8] = b"states 22 steps 25
outcome 1 ends 1
thread x Entered stuck waits a 1
object a owner - holds 0 waiting x
history 8
{\"objects\":1}
{\"move\":\"Attach\",\"thread\":0}
{\"call\":\"Enter\",\"move\":\"Call\",\"object\":0,\"thread\":0}
{\"move\":\"Lock\",\"thread\":0}
{\"move\":\"Return\",\"reply\":\"Entered\",\"thread\":0}
{\"call\":\"Wait\",\"millis\":0,\"move\":\"Call\",\"nanos\":5,\"object\":0,\"thread\":0}
{\"move\":\"Time\",\"now\":5}
{\"move\":\"Wait\",\"thread\":0}
outcome 2 ends 1
thread x Entered WaitOver Notified Refused/NoThread
object a owner x holds 1 waiting -
history 17
{\"objects\":1}
{\"move\":\"Attach\",\"thread\":0}
{\"call\":\"Enter\",\"move\":\"Call\",\"object\":0,\"thread\":0}
{\"move\":\"Lock\",\"thread\":0}
{\"move\":\"Return\",\"reply\":\"Entered\",\"thread\":0}
{\"call\":\"Wait\",\"millis\":0,\"move\":\"Call\",\"nanos\":5,\"object\":0,\"thread\":0}
{\"move\":\"Wait\",\"thread\":0}
{\"move\":\"Time\",\"now\":5}
{\"move\":\"Expire\",\"thread\":0}
{\"move\":\"Relock\",\"thread\":0}
{\"move\":\"Return\",\"reply\":\"WaitOver\",\"thread\":0}
{\"call\":\"Notify\",\"move\":\"Call\",\"object\":0,\"thread\":0}
{\"chosen\":null,\"move\":\"Notify\",\"thread\":0}
{\"move\":\"Return\",\"reply\":\"Notified\",\"thread\":0}
{\"call\":\"Interrupt\",\"move\":\"Call\",\"target\":1,\"thread\":0}
{\"cause\":\"NoThread\",\"move\":\"Refuse\",\"thread\":0}
{\"cause\":\"NoThread\",\"move\":\"Return\",\"reply\":\"Refused\",\"thread\":0}
";
