//! Laws of program texts, independent of the code that reads and prints them.
//!
//! Each law is the contract of a function with an empty body.

ghost use Rattle.trlab_asm.specs.Laws.{CanonicalTextGivesProgram, TextDeterminesProgram, TextsHaveMeaning, InputsAreNamed, InstructionsAreNamed, RegistersAreNamed};

/// A word names a register, an input or an instruction exactly if it is the name that is printed for it.
pub fn names_are_those_printed()
    ensures registers { RegistersAreNamed }
    ensures inputs { InputsAreNamed }
    ensures instructions { InstructionsAreNamed }
{}

/// The lines of any text give a valid program of each kind, or a first fault, which is never `Memory`.
#[tactic(auto, using(crate::proofs::Said::something))]
pub fn texts_have_meaning()
    ensures { TextsHaveMeaning }
{}

/// Reading the canonical text of a program returns this program.
#[tactic(auto, using(crate::proofs::Reread::again))]
pub fn canonical_text_gives_program()
    ensures { CanonicalTextGivesProgram }
{}

/// Two programs of one kind with the same canonical text are equal.
#[tactic(auto, using(crate::proofs::Reread::one_program))]
pub fn text_determines_program()
    ensures { TextDeterminesProgram }
{}
