//! Writing words so that nothing in them is read as XML.

ghost use Rattle.std.specs.Prelude.{◌≡◌, ◌++◌, OnOk, decimal, string_bytes};
ghost use Rattle.std.specs.Char.{encode_utf8};
ghost use Rattle.picture_text.specs.Nodes.{escaped};

use std::alloc::AllocError;
use std::fmt::Write;

/// Writes words, and a number behind them.
pub(crate) fn put_counted(text: &mut String, words: &str, number: u64) -> Result<(), AllocError>
    ensures { OnOk result (string_bytes text.new
        ≡ string_bytes text.old ++ (escaped words.now ++ decimal number)) }
{
    put_escaped(text, words)?;
    write!(text, "{number}")
}

/// Writes words.
#[tactic(auto, unfolding(crate::specs::Nodes::escaped))]
pub(crate) fn put_escaped(text: &mut String, words: &str) -> Result<(), AllocError>
    ensures { OnOk result (string_bytes text.new
        ≡ string_bytes text.old ++ escaped words.now) }
{
    'chars: for ch in words.chars() {
        put_char(text, ch)?;
    }
    Ok(())
}

/// Writes a character.
#[tactic(auto, unfolding(crate::specs::Nodes::escaped))]
pub(crate) fn put_char(text: &mut String, ch: char) -> Result<(), AllocError>
    ensures { OnOk result (string_bytes text.new
        ≡ string_bytes text.old ++ escaped (encode_utf8 ch)) }
{
    match ch {
        '"' => text.push_str("&quot;"),
        '&' => text.push_str("&amp;"),
        '<' => text.push_str("&lt;"),
        '>' => text.push_str("&gt;"),
        _ => text.push(ch),
    }
}
