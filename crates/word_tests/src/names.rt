//! A book that the tests keep behind the gate, and what a user of the gate does with it.
ghost use Rattle.std.specs.Prelude.{◌≡◌, ◌<◌, ◌++◌, ◌∷◌, [], List, length, true, false};
ghost use Rattle.std.specs.Prelude.{if◌then◌else◌};
ghost use Rattle.std.specs.Bool.{OnTrue};
ghost use Rattle.std.specs.Vec.{vec_len};
ghost use Rattle.header_words.specs.Bindings.{Binds, Covers};
ghost use Rattle.header_words.specs.Passes.{depth_at};
ghost use Rattle.lock_word.specs.declared.ObjectId.{ObjectId};

use fat_monitor::Receipt;
use header_words::{Headers, Kept, Pass};
use lock_word::ObjectId;
use std::alloc::Global;

/// The objects that are bound, by monitor number.
#[derive(Drop)]
pub struct Names {
    pub objects: Vec<ObjectId>,
}

impl Names {
    pub fn new(alloc: Global) -> Names
        ensures { result.objects.items ≡ [] }
    {
        Names {
            objects: Vec::new(alloc),
        }
    }

    /// Binds the next monitor. False, and nothing is bound, where there is no memory.
    #[tactic(auto, using(header_words::proofs::Bindings::binds_last))]
    pub fn bind(&mut self, object: ObjectId) -> bool
        ensures grows { (rest : List ObjectId) ×
            (self.new.objects.items ≡ self.old.objects.items ++ rest) }
        ensures bound { OnTrue result
            (Binds self.new.objects.items (vec_len self.old.objects) object.0) }
        // Where the answer is true it stands last, and else nothing was bound.
        ensures exact { self.new.objects.items ≡ (if result
            then self.old.objects.items ++ object ∷ []
            else self.old.objects.items) }
    {
        self.objects.push(object).is_ok()
    }
}

impl Kept for Names {
    ghost bound = { λ n. n.objects.items };

    fn object(&self, monitor: u32) -> Option<ObjectId> {
        self.objects.get(monitor as usize).copied()
    }
}

/// Binds the monitor of the receipt in the book in hand, publishes it, and gives the book back.
/// False where the book would have another number for it, or there is no memory.
pub fn inflate(
    headers: &Headers<Names>,
    pass: &mut Pass<Names>,
    mut names: Names,
    receipt: Receipt,
) -> bool
    requires belongs { pass.old.opening ≡ headers.now }
    requires object { receipt.object.0 < length headers.now.lows }
    requires owner { receipt.owner.0 ≡ pass.old.index }
    requires holds { receipt.holds ≡ depth_at pass.old receipt.object.0 }
    requires gate { pass.old.has_gate ≡ true }
    requires covers { Covers names.objects.items pass.old.seen }
    ensures belongs { pass.new.opening ≡ headers.now }
    ensures gate { pass.new.has_gate ≡ false }
{
    let next = names.objects.len();
    let bound = names.bind(receipt.object());
    if !bound || next != receipt.monitor() as usize {
        headers.give(pass, names);
        return false;
    }
    headers.publish(pass, &names, receipt);
    headers.give(pass, names);
    true
}
