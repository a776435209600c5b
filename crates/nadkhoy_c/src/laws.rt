//! What is written is read back.

ghost use Rattle.std.specs.Prelude.{◌≡◌, Some};
ghost use Rattle.nadkhoy_c.specs.Reading.{call_from_numbers};
ghost use Rattle.nadkhoy_c.specs.Writing.{plain_call};

use step_core::Call;

/// The numbers of a call name that call.
pub fn every_call_is_read_back(call: Call)
    ensures { call_from_numbers (plain_call call) ≡ Some call }
{
    match call {
        Call::Enter(_) | Call::Exit(_) | Call::Wait { .. } | Call::Notify(_) => {}
        Call::NotifyAll(_) | Call::Holds(_) | Call::Interrupt(_) | Call::Interrupted => {}
        Call::IsInterrupted(_) | Call::End => {}
    }
}
