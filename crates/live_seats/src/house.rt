//! A service, and a hook for each of its passes that comes back.

ghost use Rattle.std.specs.Prelude.{◌≡◌, ◌≤◌, ◌+◌, ◌++◌, All, IfOk, IfSome, List, length, vec_len, vec_capacity, false};
ghost use Rattle.live_turns.specs.Ways.{PassState, Belongs};

use counted_slot::{Counted, FREE, Fits, PRESENT, TAKEN};
use live_turns::{Crew, TurnPass, Turns};
use std::alloc::{AllocError, Global};
use std::marker::Model;

/// A pass that has come back to its service.
#[derive(Drop)]
pub(crate) struct Back<L: Crew> {
    pass: TurnPass<L>,
}

impl<L: Crew> Fits for Back<L> {
    type Tag = Turns<L>;

    ghost fits = { λ z b. Belongs z false b.pass.holding };
}

/// The hook of a pass that comes back: free until then, and free again once the pass was taken.
/// What hangs on it belongs to the service that it was made for.
pub(crate) type Hook<L> = Counted<Option<Back<L>>>;

/// A service, and a hook for each of its passes.
#[derive(Drop)]
pub(crate) struct House<L: Crew> {
    pub(crate) turns: Turns<L>,
    pub(crate) hooks: Vec<Hook<L>>,
}

impl<L: Crew> Model for House<L> {
    ghost use Rattle.std.specs.Prelude.{◌≡◌, ◌≤◌, All, vec_len};
    ghost use Rattle.header_words.specs.Passes.{Opening};

    ghost Value = { Opening };

    ghost view = { λ h. h.turns };

    ghost invariant = { λ h. All (λ z. z ≡ h.turns) h.hooks.items
        × (vec_len h.hooks ≤ 64) × (L.passes ≡ h.turns.count) };
}

/// A free hook for each of so many passes of a service.
pub(crate) fn free_hooks<L: Crew>(
    alloc: Global,
    turns: &Turns<L>,
    count: u16,
) -> Result<Vec<Hook<L>>, AllocError>
    ensures same { IfOk result (λ v. All (λ z. z ≡ turns.now) v.items) }
    ensures len { IfOk result (λ v. vec_len v ≡ count) }
{
    let mut hooks = Vec::with_capacity(alloc, usize::from(count))?;
    for _ in 0..count {
        hooks.push_reserved(Counted::new(None, turns));
    }
    Ok(hooks)
}

// Hangs a pass on its hook. There is no other pass of its number, so that the hook is free.
fn put<L: Crew>(hook: &Hook<L>, pass: TurnPass<L>)
    requires { Belongs hook.now false pass.holding }
{
    let (found, claim) = hook.turn(FREE, TAKEN);
    if found != FREE {
        claim.done();
        return;
    }
    let _ = claim.put(Some(Back { pass }), PRESENT);
}

// The pass on a hook, if there is one.
fn take<L: Crew>(hook: &Hook<L>) -> Option<TurnPass<L>>
    ensures { IfSome result (λ p. Belongs hook.now false p.holding) }
{
    let (found, claim) = hook.turn(PRESENT, TAKEN);
    if found != PRESENT {
        claim.done();
        return None;
    }
    match claim.put(None, FREE) {
        Some(Back { pass }) => Some(pass),
        None => None,
    }
}

// Hangs a pass on the hook of its number.
fn put_into<L: Crew>(turns: &Turns<L>, hooks: &[Hook<L>], pass: TurnPass<L>)
    requires same { All (λ z. z ≡ turns.now) hooks.now }
    requires belongs { Belongs turns.now false pass.holding }
{
    let _ = turns;
    let at = (pass.thread().0 as usize).wrapping_sub(1);
    if at < hooks.len() {
        put(&hooks[at], pass);
    }
}

// The passes on these hooks, behind those that are there.
#[tactic(auto, using(crate::proofs::Passes::more_after))]
fn take_from<L: Crew>(turns: &Turns<L>, hooks: &[Hook<L>], passes: &mut Vec<TurnPass<L>>)
    requires same { All (λ z. z ≡ turns.now) hooks.now }
    requires room { vec_len passes.old + length hooks.now ≤ vec_capacity passes.old }
    ensures more { (more : List PassState) × (passes.new.items ≡ passes.old.items ++ more)
        × All (λ p. Belongs turns.now false p.holding) more }
    ensures len { vec_len passes.new ≤ vec_len passes.old + length hooks.now }
    ensures room { vec_capacity passes.new ≡ vec_capacity passes.old }
{
    for hook in hooks {
        if let Some(pass) = take(hook) {
            passes.push_reserved(pass);
        }
    }
}

impl<L: Crew> House<L> {
    /// Hangs a pass on its hook.
    pub(crate) fn put(&self, pass: TurnPass<L>)
        requires { Belongs self.now false pass.holding }
    {
        put_into(&self.turns, self.hooks.as_slice(), pass);
    }

    /// The passes that came back, behind those that are there.
    pub(crate) fn take(&self, passes: &mut Vec<TurnPass<L>>)
        requires room { vec_len passes.old + 64 ≤ vec_capacity passes.old }
        ensures more { (more : List PassState) × (passes.new.items ≡ passes.old.items ++ more)
            × All (λ p. Belongs self.now false p.holding) more }
        ensures len { vec_len passes.new ≤ vec_len passes.old + 64 }
        ensures room { vec_capacity passes.new ≡ vec_capacity passes.old }
    {
        take_from(&self.turns, self.hooks.as_slice(), passes);
    }
}
