//! Laws of programs, their encodings and faults, independent of the code that reads and writes them.
//!
//! Each law is the contract of a function with an empty body.

ghost use Rattle.std.specs.Prelude.{◌≡◌, ◌≢◌, ℕ, List};
ghost use Rattle.trlab_code.specs.Program.{Program, IsValidProgram};
ghost use Rattle.trlab_code.specs.Encoding.{encoding};
ghost use Rattle.trlab_code.specs.Faults.{IsFirstCodeFault};
ghost use Rattle.trlab_code.specs.Laws.{BytesHaveOneMeaning, BytesHaveMeaning, EncodingIsBytes, EncodingMeansProgram};
ghost use Rattle.trlab_code.specs.declared.fault.CodeFault.{CodeFault};

/// Two programs with the same encoding are equal.
#[tactic(auto, using(crate::proofs::Injective::same_program))]
pub fn encoding_determines_program()
    ensures { (first second : Program) → encoding first ≡ encoding second → first ≡ second }
{}

/// The encoding of a valid program has no fault other than `Memory`.
#[tactic(auto, using(crate::proofs::EncodedCode::no_fault))]
pub fn encoding_has_no_fault()
    ensures { (program : Program) (fault : CodeFault) → IsValidProgram program
        → IsFirstCodeFault (encoding program) fault → fault ≡ CodeFault.Memory }
{}

/// Bytes have at most one first fault other than `Memory`.
#[tactic(auto, using(crate::proofs::Apart::one_fault))]
pub fn first_fault_is_unique()
    ensures { (bytes : List ℕ) (first second : CodeFault) → IsFirstCodeFault bytes first → IsFirstCodeFault bytes second
        → first ≢ CodeFault.Memory → second ≢ CodeFault.Memory → first ≡ second }
{}

/// Any bytes have exactly one meaning: the program that they encode, or their first fault.
pub fn bytes_have_one_meaning()
    ensures some_meaning { BytesHaveMeaning }
    ensures one_meaning { BytesHaveOneMeaning }
{}

/// The encoding of a valid program means this program and nothing else.
#[tactic(auto, using(crate::proofs::Said::same_again))]
pub fn encoding_means_program()
    ensures { EncodingMeansProgram }
{}

/// The encoding of a program whose numbers and targets are below 2^32 consists of bytes.
#[tactic(auto, using(crate::proofs::Bytes::spelling_bytes))]
pub fn encoding_is_bytes()
    ensures { EncodingIsBytes }
{}
