//! Programs that may come to a deadlock, with the reports that are wanted of them.

/// Two threads that enter two objects in opposite order: they come through, or each waits for the
/// other.
pub(crate) const DEADLOCK: &[u8] = b"world 0 2
object a 00
object b 00
thread x
call enter a
call enter b
call exit b
call exit a
thread y
call enter b
call enter a
call exit a
call exit b
";

/// What comes of it, as the second explorer of `bench` finds it, with scripts.
pub(crate) const DEADLOCK_REPORT: &[u8] = b"states 157 steps 276
outcome 1 ends 1
thread x Entered stuck enter b
thread y Entered stuck enter a
object a owner x holds 1 waiting -
object b owner y holds 1 waiting -
cycle x y
script 15
world 0 2
object a 00
object b 00
attach x
attach y
begin x enter a
go x
go x
begin x enter b
begin y enter b
go y
go y
go x
begin y enter a
go y
outcome 2 ends 1
thread x Entered Entered Exited Exited
thread y Entered Entered Exited Exited
object a owner - holds 0 waiting -
object b owner - holds 0 waiting -
script 29
world 0 2
object a 00
object b 00
attach x
attach y
begin x enter a
go x
go x
begin x enter b
go x
go x
begin x exit b
go x
go x
begin x exit a
go x
go x
begin y enter b
go y
go y
begin y enter a
go y
go y
begin y exit a
go y
go y
begin y exit b
go y
go y
";

/// The same with the histories of those scripts.
pub(crate) const DEADLOCK_HISTORIES: &[u8] = b"states 157 steps 276
outcome 1 ends 1
thread x Entered stuck enter b
thread y Entered stuck enter a
object a owner x holds 1 waiting -
object b owner y holds 1 waiting -
cycle x y
history 11
{\"objects\":2}
{\"move\":\"Attach\",\"thread\":0}
{\"move\":\"Attach\",\"thread\":1}
{\"call\":\"Enter\",\"move\":\"Call\",\"object\":0,\"thread\":0}
{\"move\":\"Lock\",\"thread\":0}
{\"move\":\"Return\",\"reply\":\"Entered\",\"thread\":0}
{\"call\":\"Enter\",\"move\":\"Call\",\"object\":1,\"thread\":0}
{\"call\":\"Enter\",\"move\":\"Call\",\"object\":1,\"thread\":1}
{\"move\":\"Lock\",\"thread\":1}
{\"move\":\"Return\",\"reply\":\"Entered\",\"thread\":1}
{\"call\":\"Enter\",\"move\":\"Call\",\"object\":0,\"thread\":1}
outcome 2 ends 1
thread x Entered Entered Exited Exited
thread y Entered Entered Exited Exited
object a owner - holds 0 waiting -
object b owner - holds 0 waiting -
history 27
{\"objects\":2}
{\"move\":\"Attach\",\"thread\":0}
{\"move\":\"Attach\",\"thread\":1}
{\"call\":\"Enter\",\"move\":\"Call\",\"object\":0,\"thread\":0}
{\"move\":\"Lock\",\"thread\":0}
{\"move\":\"Return\",\"reply\":\"Entered\",\"thread\":0}
{\"call\":\"Enter\",\"move\":\"Call\",\"object\":1,\"thread\":0}
{\"move\":\"Lock\",\"thread\":0}
{\"move\":\"Return\",\"reply\":\"Entered\",\"thread\":0}
{\"call\":\"Exit\",\"move\":\"Call\",\"object\":1,\"thread\":0}
{\"move\":\"Unlock\",\"thread\":0}
{\"move\":\"Return\",\"reply\":\"Exited\",\"thread\":0}
{\"call\":\"Exit\",\"move\":\"Call\",\"object\":0,\"thread\":0}
{\"move\":\"Unlock\",\"thread\":0}
{\"move\":\"Return\",\"reply\":\"Exited\",\"thread\":0}
{\"call\":\"Enter\",\"move\":\"Call\",\"object\":1,\"thread\":1}
{\"move\":\"Lock\",\"thread\":1}
{\"move\":\"Return\",\"reply\":\"Entered\",\"thread\":1}
{\"call\":\"Enter\",\"move\":\"Call\",\"object\":0,\"thread\":1}
{\"move\":\"Lock\",\"thread\":1}
{\"move\":\"Return\",\"reply\":\"Entered\",\"thread\":1}
{\"call\":\"Exit\",\"move\":\"Call\",\"object\":0,\"thread\":1}
{\"move\":\"Unlock\",\"thread\":1}
{\"move\":\"Return\",\"reply\":\"Exited\",\"thread\":1}
{\"call\":\"Exit\",\"move\":\"Call\",\"object\":1,\"thread\":1}
{\"move\":\"Unlock\",\"thread\":1}
{\"move\":\"Return\",\"reply\":\"Exited\",\"thread\":1}
";

/// Two threads that do so and exit nothing, for the machine, which asks for memory more often.
pub(crate) const DEADLOCK_SMALL: &[u8] = b"world 0 2
object a 00
object b 00
thread x
call enter a
call enter b
thread y
call enter b
call enter a
";

/// What comes of that on the Java machine, as the second explorer of the machine finds it.
pub(crate) const DEADLOCK_OF_THE_MACHINE: &[u8] = b"states 33 steps 52
outcome 1 ends 1
thread x Entered Entered
thread y stuck enter b
object a owner x holds 1 waiting -
object b owner x holds 1 waiting -
history 10
{\"objects\":2}
{\"move\":\"Attach\",\"thread\":0}
{\"move\":\"Attach\",\"thread\":1}
{\"call\":\"Enter\",\"move\":\"Call\",\"object\":0,\"thread\":0}
{\"move\":\"Lock\",\"thread\":0}
{\"move\":\"Return\",\"reply\":\"Entered\",\"thread\":0}
{\"call\":\"Enter\",\"move\":\"Call\",\"object\":1,\"thread\":0}
{\"move\":\"Lock\",\"thread\":0}
{\"move\":\"Return\",\"reply\":\"Entered\",\"thread\":0}
{\"call\":\"Enter\",\"move\":\"Call\",\"object\":1,\"thread\":1}
outcome 2 ends 1
thread x stuck enter a
thread y Entered Entered
object a owner y holds 1 waiting -
object b owner y holds 1 waiting -
history 10
{\"objects\":2}
{\"move\":\"Attach\",\"thread\":0}
{\"move\":\"Attach\",\"thread\":1}
{\"call\":\"Enter\",\"move\":\"Call\",\"object\":0,\"thread\":0}
{\"call\":\"Enter\",\"move\":\"Call\",\"object\":1,\"thread\":1}
{\"move\":\"Lock\",\"thread\":1}
{\"move\":\"Return\",\"reply\":\"Entered\",\"thread\":1}
{\"call\":\"Enter\",\"move\":\"Call\",\"object\":0,\"thread\":1}
{\"move\":\"Lock\",\"thread\":1}
{\"move\":\"Return\",\"reply\":\"Entered\",\"thread\":1}
outcome 3 ends 1
thread x Entered stuck enter b
thread y Entered stuck enter a
object a owner x holds 1 waiting -
object b owner y holds 1 waiting -
cycle x y
history 11
{\"objects\":2}
{\"move\":\"Attach\",\"thread\":0}
{\"move\":\"Attach\",\"thread\":1}
{\"call\":\"Enter\",\"move\":\"Call\",\"object\":0,\"thread\":0}
{\"move\":\"Lock\",\"thread\":0}
{\"move\":\"Return\",\"reply\":\"Entered\",\"thread\":0}
{\"call\":\"Enter\",\"move\":\"Call\",\"object\":1,\"thread\":0}
{\"call\":\"Enter\",\"move\":\"Call\",\"object\":1,\"thread\":1}
{\"move\":\"Lock\",\"thread\":1}
{\"move\":\"Return\",\"reply\":\"Entered\",\"thread\":1}
{\"call\":\"Enter\",\"move\":\"Call\",\"object\":0,\"thread\":1}
";
