//! Texts and digits that are written without a formatter, since a report has some in each line; and
//! the one reply that takes a formatter.

ghost use Rattle.std.specs.Prelude.{◌≡◌, ◌<◌, ◌++◌, ◌∷◌, [], OnOk, codes, string_bytes};
ghost use Rattle.fat_monitor.specs.Names.{action_name, reply_name};
ghost use Rattle.lock_word.specs.Names.{hex_digit, word_text};

use fat_monitor::{Action, Reply};
use lock_word::Word;
use std::alloc::AllocError;
use std::fmt::Write;
use std::str;

/// Ends the line of a `go` with a reply.
///
/// Each text is a constant where it is pushed, so that a few instructions copy it, and no call. The
/// function is called, since its arms in place would make the body of the loop over the steps so
/// large that the compiler calls that instead, and copies each step for it.
#[inline(never)]
pub(crate) fn put_reply(report: &mut String, reply: Reply) -> Result<(), AllocError>
    ensures { OnOk result (string_bytes report.new
        ≡ string_bytes report.old ++ codes " = " ++ reply_name reply ++ 10 ∷ []) }
{
    match reply {
        Reply::Entered => report.push_str(" = Entered\n"),
        Reply::Exited => report.push_str(" = Exited\n"),
        Reply::WaitOver => report.push_str(" = WaitOver\n"),
        Reply::Interrupted => report.push_str(" = Interrupted\n"),
        Reply::Notified => report.push_str(" = Notified\n"),
        Reply::Yes => report.push_str(" = Yes\n"),
        Reply::No => report.push_str(" = No\n"),
        Reply::Done => report.push_str(" = Done\n"),
        Reply::Ended => report.push_str(" = Ended\n"),
        Reply::IllegalMonitorState => report.push_str(" = IllegalMonitorState\n"),
        Reply::IllegalArgument => report.push_str(" = IllegalArgument\n"),
        Reply::Refused(_) => put_refusal(report, reply),
    }
}

/// Ends the line of a `go` with a reply whose text takes a formatter.
///
/// Out of line, so that the other replies need not keep registers for the formatter.
#[inline(never)]
fn put_refusal(report: &mut String, reply: Reply) -> Result<(), AllocError>
    ensures { OnOk result (string_bytes report.new
        ≡ string_bytes report.old ++ codes " = " ++ reply_name reply ++ 10 ∷ []) }
{
    writeln!(report, " = {reply}")
}

/// What a line says of an action on a fat monitor, with the blank before it.
pub(crate) fn act_text(action: Action) -> &'static str
    ensures { result.now ≡ codes " act " ++ action_name action }
{
    match action {
        Action::Enter { .. } => " act Enter",
        Action::Exit { .. } => " act Exit",
        Action::Wait { .. } => " act Wait",
        Action::Notify { .. } => " act Notify",
        Action::NotifyAll { .. } => " act NotifyAll",
        Action::Holds { .. } => " act Holds",
        Action::Interrupt { .. } => " act Interrupt",
        Action::Interrupted => " act Interrupted",
        Action::IsInterrupted { .. } => " act IsInterrupted",
        Action::Expire => " act Expire",
        Action::Spurious => " act Spurious",
        Action::Collect => " act Collect",
        Action::End => " act End",
    }
}

/// Writes a blank and the eight digits of a word.
pub(crate) fn put_word(report: &mut String, word: Word) -> Result<(), AllocError>
    ensures { OnOk result (string_bytes report.new
        ≡ string_bytes report.old ++ 32 ∷ word_text word.0) }
{
    let bits = word.0;
    let text = [
        b' ',
        hex_digit(bits / 0x1000_0000),
        hex_digit(bits / 0x100_0000 % 16),
        hex_digit(bits / 0x10_0000 % 16),
        hex_digit(bits / 0x1_0000 % 16),
        hex_digit(bits / 0x1000 % 16),
        hex_digit(bits / 0x100 % 16),
        hex_digit(bits / 0x10 % 16),
        hex_digit(bits % 16),
    ];
    // Digits and blanks are ASCII.
    report.push_str(unsafe { str::from_utf8_unchecked(&text) })
}

/// Writes the words before and after an exchange or a store, each behind a blank.
pub(crate) fn put_words(report: &mut String, old: Word, new: Word) -> Result<(), AllocError>
    ensures { OnOk result (string_bytes report.new ≡ string_bytes report.old
        ++ 32 ∷ word_text old.0 ++ 32 ∷ word_text new.0) }
{
    let (before, after) = (old.0, new.0);
    let text = [
        b' ',
        hex_digit(before / 0x1000_0000),
        hex_digit(before / 0x100_0000 % 16),
        hex_digit(before / 0x10_0000 % 16),
        hex_digit(before / 0x1_0000 % 16),
        hex_digit(before / 0x1000 % 16),
        hex_digit(before / 0x100 % 16),
        hex_digit(before / 0x10 % 16),
        hex_digit(before % 16),
        b' ',
        hex_digit(after / 0x1000_0000),
        hex_digit(after / 0x100_0000 % 16),
        hex_digit(after / 0x10_0000 % 16),
        hex_digit(after / 0x1_0000 % 16),
        hex_digit(after / 0x1000 % 16),
        hex_digit(after / 0x100 % 16),
        hex_digit(after / 0x10 % 16),
        hex_digit(after % 16),
    ];
    // Digits and blanks are ASCII.
    report.push_str(unsafe { str::from_utf8_unchecked(&text) })
}

/// An upper-case hexadecimal digit, in ASCII.
fn hex_digit(digit: u32) -> u8
    requires { digit < 16 }
    ensures digit { result ≡ hex_digit digit }
    ensures ascii { result < 128 }
{
    if digit < 10 {
        b'0' + digit as u8
    } else {
        b'A' - 10 + digit as u8
    }
}
