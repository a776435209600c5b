//! Laws of the table of actions and of numbers.

ghost use Rattle.std.specs.Prelude.{true, ◌≡◌, ℕ, Option, Some};
ghost use Rattle.lock_word.specs.declared.ThreadId.{ThreadId};
ghost use Rattle.fat_monitor.specs.declared.actions.Post.TheVariants.{Waiting, Back};
ghost use Rattle.fat_monitor.specs.declared.actions.Reply.{Reply};
ghost use Rattle.fat_monitor.specs.declared.actions.Why.{Why};
ghost use Rattle.fat_monitor.specs.declared.actions.Why.TheVariants.{Interrupted};
ghost use Rattle.fat_monitor.specs.FatState.{FatState, IsSound, post_of, monitor_at, with_flag};
ghost use Rattle.fat_monitor.specs.Numbers.{reply_number};
ghost use Rattle.fat_monitor.specs.Acting.{after_removal, granted_by_removal, after_rejoining, after_hand_on_if_free, next_if_free};

/// The law of removal: a thread that leaves its wait set joins the end of the entry line, and where
/// nobody owns the monitor, it is handed on then. The table of actions gives a monitor that nobody
/// owns to the thread at once, which is the same.
#[tactic(auto, using(crate::proofs::Removals::removed_rejoins, crate::proofs::Removals::interrupted_rejoins, crate::proofs::Removals::served_next))]
pub fn a_removed_thread_joins_the_entry_line()
    ensures removed { (f : FatState) (u : ThreadId) (m n : ℕ) (d : Option ℕ) (w : Why)
        → IsSound f → post_of f u ≡ Some (Waiting m n d)
        → after_removal f u w (Waiting m n d)
        ≡ after_hand_on_if_free (after_rejoining f u m (Back m n w)) m (monitor_at f m).owner }
    ensures interrupted { (f : FatState) (u : ThreadId) (m n : ℕ) (d : Option ℕ)
        → IsSound f → post_of f u ≡ Some (Waiting m n d)
        → after_removal (with_flag f u true) u Interrupted (Waiting m n d)
        ≡ after_hand_on_if_free (after_rejoining (with_flag f u true) u m (Back m n Interrupted)) m
        (monitor_at f m).owner }
    ensures served { (f : FatState) (u : ThreadId) (m n : ℕ) (d : Option ℕ) (w : Why)
        → IsSound f → post_of f u ≡ Some (Waiting m n d)
        → granted_by_removal f u (Waiting m n d)
        ≡ next_if_free (after_rejoining f u m (Back m n w)) m (monitor_at f m).owner }
{}

/// Two replies with one number are the same reply.
#[tactic(auto, using(crate::proofs::Apart::replies_apart))]
pub fn numbers_tell_replies_apart()
    ensures { (r s : Reply) → reply_number r ≡ reply_number s → r ≡ s }
{}
