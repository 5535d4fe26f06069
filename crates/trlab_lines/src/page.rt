//! Pages of plain text.

ghost use Rattle.std.specs.Prelude.{◌≡◌, ◌++◌, ◌∷◌, [], ◌<◌, All, OnOk, codes, decimal, length};
ghost use Rattle.trlab_lines.specs.Plain.{IsPlain, all_shown, hex_digit, quoted, shown, shows_itself};

use std::alloc::{AllocError, Global};
use std::marker::Model;

/// The maximum number of bytes quoted from a line.
pub const MAX_QUOTED: usize = 80;

/// Lines of printable ASCII characters.
pub struct Page {
    alloc: Global,
    text: Vec<u8>,
}

// Not derived: a derived drop is proved again, field by field, wherever the value goes out of scope.
impl Drop for Page {
    fn drop(self) {
        let Page {
            alloc: _alloc,
            text: _text,
        } = self;
    }
}

impl Model for Page {
    ghost use Rattle.std.specs.Prelude.{All, List, ℕ};
    ghost use Rattle.trlab_lines.specs.Plain.{IsPlain};

    ghost Value = { List ℕ };

    ghost view = { λ page. page.text.items };

    ghost invariant = { λ page. All IsPlain page.text.items };
}

/// Whether a byte is shown as it is: printable, and not a backslash.
fn shows_itself(byte: u8) -> bool
    ensures { result ≡ shows_itself byte }
{
    32 <= byte && byte <= 126 && byte != b'\\'
}

fn hex_digit(value: u8) -> u8
    requires { value < 16 }
    ensures { result ≡ hex_digit value }
{
    if value < 10 {
        b'0' + value
    } else {
        b'a' - 10 + value
    }
}

impl Page {
    /// An empty page.
    pub fn new(alloc: Global) -> Page
        ensures { result ≡ [] }
    {
        Page {
            alloc,
            text: Vec::new(alloc),
        }
    }

    fn push(&mut self, byte: u8) -> Result<(), AllocError>
        requires { IsPlain byte }
        ensures { OnOk result (self.new ≡ self.old ++ byte ∷ []) }
    {
        self.text.push(byte)?;
        Ok(())
    }

    fn put(&mut self, text: &[u8]) -> Result<(), AllocError>
        requires { All IsPlain text.now }
        ensures { OnOk result (self.new ≡ self.old ++ text.now) }
    {
        for byte in text {
            self.push(*byte)?;
        }
        Ok(())
    }

    /// Appends a byte. It is escaped as `\xNN` if it is a backslash or not printable ASCII.
    fn show(&mut self, byte: u8) -> Result<(), AllocError>
        ensures { OnOk result (self.new ≡ self.old ++ shown byte) }
    {
        if shows_itself(byte) {
            return self.push(byte);
        }
        self.push(b'\\')?;
        self.push(b'x')?;
        self.push(hex_digit(byte / 16))?;
        self.push(hex_digit(byte % 16))
    }

    /// Appends bytes. Backslashes and bytes that are not printable ASCII are escaped as `\xNN`.
    ///
    /// # Errors
    ///
    /// If an allocation fails.
    pub fn show_all(&mut self, bytes: &[u8]) -> Result<(), AllocError>
        ensures { OnOk result (self.new ≡ self.old ++ all_shown bytes.now) }
    {
        for byte in bytes {
            self.show(*byte)?;
        }
        Ok(())
    }

    /// Appends a text, escaped like the bytes of [`Page::show_all`].
    ///
    /// # Errors
    ///
    /// If an allocation fails.
    pub fn say(&mut self, words: &str) -> Result<(), AllocError>
        ensures { OnOk result (self.new ≡ self.old ++ all_shown words.now) }
    {
        self.show_all(words.as_bytes())
    }

    /// Appends the decimal digits of a number.
    ///
    /// # Errors
    ///
    /// If an allocation fails.
    pub fn number(&mut self, number: u64) -> Result<(), AllocError>
        ensures { OnOk result (self.new ≡ self.old ++ decimal number) }
    {
        let digits = format!(in self.alloc; "{number}")?;
        self.put(digits.as_bytes())
    }

    /// Ends the line.
    ///
    /// # Errors
    ///
    /// If an allocation fails.
    pub fn end_line(&mut self) -> Result<(), AllocError>
        ensures { OnOk result (self.new ≡ self.old ++ 10 ∷ []) }
    {
        self.push(b'\n')
    }

    /// Appends a text and ends the line.
    ///
    /// # Errors
    ///
    /// If an allocation fails.
    pub fn line(&mut self, words: &str) -> Result<(), AllocError>
        ensures { OnOk result (self.new ≡ self.old ++ all_shown words.now ++ 10 ∷ []) }
    {
        self.say(words)?;
        self.end_line()
    }

    /// Appends the first `MAX_QUOTED` bytes of a line, escaped, and ` ..` if it is longer.
    ///
    /// # Errors
    ///
    /// If an allocation fails.
    pub fn quote(&mut self, line: &[u8]) -> Result<(), AllocError>
        ensures { OnOk result (self.new ≡ self.old ++ quoted line.now) }
    {
        if line.len() > MAX_QUOTED {
            let (start, _) = line.split_at(MAX_QUOTED);
            self.show_all(start)?;
            self.say(" ..")
        } else {
            self.show_all(line)
        }
    }

    /// Appends another page.
    ///
    /// # Errors
    ///
    /// If an allocation fails.
    pub fn add(&mut self, page: &Page) -> Result<(), AllocError>
        ensures { OnOk result (self.new ≡ self.old ++ page.now) }
    {
        self.put(page.text())
    }

    /// The bytes of the page, each of which is printable ASCII or an LF.
    pub fn text(&self) -> &[u8]
        ensures value { result.now ≡ self.now }
        ensures plain { All IsPlain result.now }
    {
        &self.text
    }
}
