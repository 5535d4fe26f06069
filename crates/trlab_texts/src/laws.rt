//! Laws of the words and numbers of lines, independent of the code that reads them.
//!
//! Each law is the contract of a function with an empty body.

ghost use Rattle.trlab_texts.specs.Laws.{NumbersAreAsWritten};

/// A line is read as a number from `low` to `high` exactly if it is a name and then the number's decimal digits.
pub fn numbers_are_as_written()
    ensures { NumbersAreAsWritten }
{}
