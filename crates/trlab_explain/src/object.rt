//! The writer of JSON objects.

ghost use Rattle.std.specs.Prelude.{◌≡◌, ◌++◌, ◌∷◌, [], All, IfOk, OnOk};
ghost use Rattle.json.specs.Print.{IsPrintable, print};
ghost use Rattle.json.specs.Reads.{token_of};
ghost use Rattle.json.specs.Token.{key, number};
ghost use Rattle.std.specs.Fmt.{decimal};
ghost use Rattle.trlab_lines.specs.Plain.{IsPlain, all_shown};
ghost use Rattle.trlab_explain.specs.Explanations.{HasPlainText, answer_token, object_end};

use json::{Token, Writer, is_number};
use std::alloc::{AllocError, Global};
use std::marker::Model;
use trlab_lines::Page;
use trlab_messages::{ObjectWriter, Result, page_of};

/// A JSON object of plain characters that is being written. Its calls remember a failed allocation; `finish` returns
/// it.
#[derive(Drop)]
pub struct Object {
    alloc: Global,
    out: Writer,
    has_failed: bool,
}

impl Model for Object {
    ghost use Rattle.std.specs.Prelude.{◌≡◌, [], All, List};
    ghost use Rattle.json.specs.Token.{Token, tokens_code};
    ghost use Rattle.trlab_explain.specs.Explanations.{HasPlainText};

    ghost Value = { List Token };

    ghost coded = { tokens_code };

    ghost view = { λ object. object.out.tokens };

    ghost invariant = { λ object. (object.out.before ≡ []) × All HasPlainText object.out.tokens };
}

/// Plain text as a string.
fn plain_str(bytes: &[u8]) -> &str
    requires { All IsPlain bytes.now }
    ensures { result.now ≡ bytes.now }
{
    match std::str::from_utf8(bytes) {
        Ok(text) => text,
        // Plain bytes are ASCII, which is UTF-8.
        Err(_) => unreachable!(),
    }
}

impl Object {
    /// An object without tokens.
    pub fn new(alloc: Global) -> Object
        ensures { result ≡ [] }
    {
        Object {
            alloc,
            out: Writer::new(Vec::new(alloc)),
            has_failed: false,
        }
    }

    /// Adds a token whose text, if it has one, is plain already.
    fn put(&mut self, token: Token<'_>) -> Result<()>
        requires plain { HasPlainText (token_of token) }
        requires printable { IsPrintable (token_of token) }
        ensures { OnOk result (self.new ≡ self.old ++ token_of token.entry ∷ []) }
    {
        self.out.token(token)
    }

    /// Adds a number.
    fn number(&mut self, n: u64) -> Result<()>
        ensures { OnOk result (self.new ≡ self.old ++ number (decimal n) ∷ []) }
    {
        self.out.u64(n)
    }

    /// Adds the name of a member.
    fn key(&mut self, name: &str) -> Result<()>
        ensures { OnOk result (self.new ≡ self.old ++ key (all_shown name.now) ∷ []) }
    {
        let mut page = Page::new(self.alloc);
        page.say(name)?;
        self.put(Token::Key(plain_str(page.text())))
    }

    /// Adds a token whose text need not be plain: other bytes are escaped. An invalid number becomes a string.
    fn add(&mut self, token: Token<'_>) -> Result<()> {
        match token {
            Token::Key(name) => self.key(name),
            Token::String(text) => {
                let page = page_of(self.alloc, text)?;
                self.put(Token::String(plain_str(page.text())))
            }
            Token::Number(digits) => {
                let page = page_of(self.alloc, digits)?;
                let digits = plain_str(page.text());
                if is_number(digits) {
                    self.put(Token::Number(digits))
                } else {
                    self.put(Token::String(digits))
                }
            }
            // Only a reader of JSON makes such a token.
            Token::Bad => Ok(()),
            Token::BeginObject
            | Token::EndObject
            | Token::BeginArray
            | Token::EndArray
            | Token::Bool(_)
            | Token::Null => self.put(token),
        }
    }

    /// Ends the whole object with the exit status and the line that the command prints, if it prints one.
    ///
    /// # Errors
    ///
    /// If an allocation fails, or failed before.
    pub fn finish(&mut self, is_rejected: bool, answer: &Page) -> Result<()>
        ensures { OnOk result (self.new ≡ self.old ++ object_end is_rejected answer.now) }
    {
        if self.has_failed {
            return Err(AllocError);
        }
        self.key("status")?;
        self.number(u64::from(is_rejected))?;
        self.key("answer")?;
        self.answer(answer)?;
        self.put(Token::EndObject)
    }

    /// Adds the line that the command prints, without its LF; null for an empty page.
    fn answer(&mut self, answer: &Page) -> Result<()>
        ensures { OnOk result (self.new ≡ self.old ++ answer_token answer.now ∷ []) }
    {
        let line = answer.text();
        if line.is_empty() {
            return self.put(Token::Null);
        }
        let (line, _) = line.split_at(line.len() - 1);
        self.put(Token::String(plain_str(line)))
    }

    /// The text of the object as one line, with its LF.
    pub fn into_line(self) -> Result<Vec<u8>>
        ensures plain { IfOk result (λ text. All IsPlain text.items) }
        ensures text { IfOk result (λ text. text.items ≡ print self ++ 10 ∷ []) }
    {
        let mut text = self.out.into_inner();
        text.push(b'\n')?;
        Ok(text)
    }
}

impl ObjectWriter for Object {
    fn alloc(&self) -> Global {
        self.alloc
    }

    fn token(&mut self, token: Result<Token<'_>>) {
        let has_failed = match token {
            Ok(token) => self.add(token).is_err(),
            Err(_) => true,
        };
        self.has_failed |= has_failed;
    }
}
