//! Members of JSON objects, for any writer.

use crate::Result;
use crate::amount::Amount;
use crate::sentence::Draft;
use json::Token;
use std::alloc::Global;

/// A writer of a JSON object.
pub trait ObjectWriter {
    /// The allocator of the members.
    fn alloc(&self) -> Global;

    /// Adds a token, or remembers that an allocation failed.
    fn token(&mut self, token: Result<Token<'_>>);
}

/// Adds the name of a member, and the first token of its value.
pub fn begin_member<W: ObjectWriter>(out: &mut W, name: &str, token: Token<'_>) {
    out.token(Ok(Token::Key(name)));
    out.token(Ok(token));
}

/// Adds a member whose value is a string.
pub fn add_string<W: ObjectWriter>(out: &mut W, name: &str, text: Result<&str>) {
    out.token(Ok(Token::Key(name)));
    out.token(text.map(Token::String));
}

/// Adds a member whose value is a string, or null if the string is empty.
pub fn add_words<W: ObjectWriter>(out: &mut W, name: &str, text: Result<&str>) {
    match text {
        Ok(text) if text.is_empty() => begin_member(out, name, Token::Null),
        text => add_string(out, name, text),
    }
}

/// Adds a member whose value is a number.
pub fn add_amount<W: ObjectWriter>(out: &mut W, name: &str, number: Amount) {
    let mut digits = Draft::new(out.alloc());
    write!(digits, "{number}");
    out.token(Ok(Token::Key(name)));
    out.token(digits.text().map(Token::Number));
}

/// Adds a member whose value is a whole number.
pub fn add_count<W: ObjectWriter>(out: &mut W, name: &str, count: u64) {
    add_amount(out, name, Amount::of(count, 1, 0));
}

/// Adds a member whose value is an array of the lines of these drafts.
pub fn add_lines<W: ObjectWriter>(out: &mut W, name: &str, drafts: &[&Draft]) {
    begin_member(out, name, Token::BeginArray);
    for draft in drafts {
        match draft.text() {
            Ok(text) => {
                for line in text.split_terminator('\n') {
                    out.token(Ok(Token::String(line)));
                }
            }
            Err(error) => out.token(Err(error)),
        }
    }
    out.token(Ok(Token::EndArray));
}
