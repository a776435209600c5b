//! Reading a line of any spelling from its tokens.

ghost use Rattle.std.specs.Prelude.{◌≡◌, Some, IfSome};
ghost use Rattle.json.specs.Reads.{token_of};
ghost use Rattle.serde_json.specs.Data.{unsigned};
ghost use Rattle.serde_json.specs.Read.{number_of};
ghost use Rattle.history_moves.specs.Lines.{IsMove};
ghost use Rattle.history_moves.specs.GatheredMembers.{key_text, scalar_data, token_data};

use crate::pieces::number_in;
use crate::spelled::gathered::{GatheredMembers, Key, Scalar, key_front};
use json::{Reader, Scratch, Token};
use step_core::Move;

/// The number of 64 bits that a text is; None of one that is negative, or no integer, or too large.
fn whole_of(text: &str) -> Option<u64>
    ensures { IfSome result (λ n. number_of text.now ≡ Some (unsigned n)) }
{
    let (number, rest) = number_in(text.as_bytes())?;
    if rest.is_empty() { Some(number) } else { None }
}

/// The key that a text is.
fn key_named(text: &[u8]) -> Option<Key>
    ensures { IfSome result (λ key. text.now ≡ key_text key) }
{
    let (key, rest) = key_front(text)?;
    if rest.is_empty() { Some(key) } else { None }
}

/// The value that a token is; None of one that no move has.
fn scalar_of<'a>(token: Token<'a>) -> Option<Scalar<'a>>
    ensures { IfSome result (λ s. token_data (token_of token.entry) ≡ Some (scalar_data s)) }
{
    match token {
        Token::String(text) => Some(Scalar::Text(text.as_bytes())),
        Token::Number(text) => Some(Scalar::Number(whole_of(text)?)),
        Token::Null => Some(Scalar::Null),
        _ => None,
    }
}

/// The move that a text is, where it is an object whose values are texts, null and numbers of 64
/// bits that are not negative; of a key that comes twice, the last value stays. None also of other
/// texts, which may be moves, and where the scratch finds no memory.
pub(crate) fn token_move(text: &str, scratch: &mut Scratch) -> Option<Move>
    ensures { IfSome result (IsMove text.now) }
{
    let mut reader = Reader::new(text, scratch).ok()?;
    let Some(Token::BeginObject) = reader.next() else {
        return None;
    };
    let mut found = GatheredMembers::new();
    'members: while let Some(key) = reader.next_key().ok()? {
        let value = scalar_of(reader.next()?)?;
        if !found.take(key_named(key.as_bytes())?, value) {
            return None;
        }
    }
    if reader.next().is_some() {
        return None;
    }
    found.made_move()
}
