//! For what a live call is refused.

ghost use Rattle.live_turns.specs.Causes.{OnIsRefusedSo, AboutIsRefusedSo, IsNeverWithoutMemory};

/// A call that went along its path to a refusal was refused for one of few causes: an enter
/// NoMonitor or TooDeep, a wait NoMonitor, and an interrupt, or the question for one, NoThread. No
/// call is refused for want of memory, whatever point it had come to.
#[tactic(auto, using(crate::proofs::Refusing::refused_on, crate::proofs::Refusing::refused_about, crate::proofs::Refusing::no_want_of_memory))]
pub fn no_live_call_is_refused_for_want_of_memory()
    ensures on { OnIsRefusedSo }
    ensures about { AboutIsRefusedSo }
    ensures memory { IsNeverWithoutMemory }
{}
