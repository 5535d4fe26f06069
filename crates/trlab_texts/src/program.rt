//! Programs in texts: the line `code X`, where X is their bytes in hexadecimal digits of either case, or a
//! block of lines from `motion` or `change` to `end`.

ghost use Rattle.std.specs.Prelude.{◌≡◌, IfOk, codes, ◌+◌, ◌<◌, ◌^◌, length};
ghost use Rattle.trlab_texts.specs.Reading.{Reports};
ghost use Rattle.trlab_texts.specs.Programs.{BytesDecodeTo, code_line, code_line_of, IsVerdict, heading_line, part, program_after, program_part};
ghost use Rattle.trlab_texts.specs.Words.{word_after};
ghost use Rattle.std.specs.Str.{bytes_eq};
ghost use Rattle.trlab_lines.specs.Lines.{lines_of};

use crate::excerpt::Excerpt;
use crate::fault::{Cause, TextFault};
use crate::line_name::LineName;
use crate::refusal::{Objection, Refusal, Wanted};
use crate::rest::Rest;
use hex::FromHexError;
use std::alloc::{AllocError, Global};
use trlab_asm::{Why, assemble};
use trlab_code::{Code, CodeFault, Kind, decode};
use trlab_verify::{AcceptedProgram, ProgramKind, VerifyFault, verify_as};

/// Decodes a program of either kind.
fn code_of_bytes<'a>(alloc: Global, bytes: &[u8]) -> Result<Result<Code, Objection<'a>>, AllocError>
    ensures { IfOk result (BytesDecodeTo bytes.now) }
{
    match decode(alloc, bytes) {
        Ok(code) => Ok(Ok(code)),
        Err(CodeFault::Memory) => Err(AllocError),
        Err(fault) => Ok(Err(Objection::bare(Cause::Code(fault)))),
    }
}

/// The digits X of the line `code X`, whether they are hexadecimal or not.
///
/// # Errors
///
/// `Cause::Line` for other lines.
pub fn code_digits<'a>(line: &Excerpt<'a>) -> Result<Excerpt<'a>, Objection<'a>>
    ensures { result ≡ word_after (codes "code ") line.now }
{
    line.word_after(b"code ")
}

/// Reads the line `code X` of a program of either kind. The inner result has the program or the objection to the
/// line.
///
/// # Errors
///
/// If an allocation fails. The objection has the cause `Line` for other lines, `Hex`, or `Code` with the first fault
/// of the bytes.
pub fn parse_code<'a>(
    alloc: Global,
    line: &Excerpt<'a>,
) -> Result<Result<Code, Objection<'a>>, AllocError>
    ensures { IfOk result (code_line line.now) }
{
    let digits = match code_digits(line) {
        Ok(digits) => digits,
        Err(objection) => return Ok(Err(objection)),
    };
    match hex::decode(alloc, digits.bytes()) {
        Ok(bytes) => code_of_bytes(alloc, &bytes),
        Err(FromHexError::OutOfMemory) => Err(AllocError),
        Err(_) => Ok(Err(digits.no_hex())),
    }
}

/// Reads the line `code X` of a program of this kind, like `parse_code`. The objection to a program of the other kind
/// has the cause `CodeFault::Kind`.
fn parse_code_of<'a>(
    alloc: Global,
    kind: Kind,
    line: &Excerpt<'a>,
) -> Result<Result<Code, Objection<'a>>, AllocError>
    ensures { IfOk result (code_line_of kind line.now) }
{
    match parse_code(alloc, line)? {
        Ok(code) => {
            if code.kind() == kind {
                Ok(Ok(code))
            } else {
                Ok(Err(Objection::bare(Cause::Code(CodeFault::Kind))))
            }
        }
        Err(objection) => Ok(Err(objection)),
    }
}

/// Whether a line is the heading of a block of this kind: `motion` or `change`.
pub fn is_heading(kind: Kind, line: &[u8]) -> bool
    ensures { result ≡ bytes_eq line.now (heading_line kind) }
{
    match kind {
        Kind::Motion => line == b"motion".as_slice(),
        Kind::Change => line == b"change".as_slice(),
    }
}

/// Assembles a program of this kind from lines that come after the line `first` of a text.
///
/// # Errors
///
/// The first fault of these lines, at its line of the whole text; `TextFault::Memory` if an allocation fails.
pub fn program_after(
    alloc: Global,
    kind: Kind,
    first: u32,
    text: &[u8],
) -> Result<Code, Refusal<'_>>
    requires { first + length (lines_of text.now) < 2 ^ 32 }
    ensures { Reports (λ says. says ≡ program_after kind first (lines_of text.now)) result }
{
    match assemble(alloc, kind, text) {
        Ok(code) => Ok(code),
        Err(fault) => match fault.why {
            Why::Memory => Err(Refusal::memory()),
            why => Err(Refusal::bare(TextFault::At {
                line: first + fault.line as u32,
                cause: Cause::Program(why),
            })),
        },
    }
}

/// The name of a program's first line.
fn first_line_name(kind: Kind) -> LineName {
    match kind {
        Kind::Motion => LineName::Motion,
        Kind::Change => LineName::Change,
    }
}

/// Reads a program of this kind: a block, or the line `code X`.
fn program_part(alloc: Global, kind: Kind, rest: Rest<'_>) -> Result<(Code, Rest<'_>), Refusal<'_>>
    ensures { Reports (program_part kind rest.entry) result }
{
    let first = rest.number();
    let name = first_line_name(kind);
    let names = rest.names_with(name);
    let (line, after) = rest.next_line(name)?;
    if is_heading(kind, line) {
        let (lines, after) = after.part()?;
        let code = program_after(alloc, kind, first, lines)?;
        return Ok((code, after));
    }
    match parse_code_of(alloc, kind, &Excerpt::of(line)) {
        Ok(Ok(code)) => Ok((code, after)),
        Ok(Err(objection)) => Err(objection.at(first, names)),
        Err(_) => Err(Refusal::memory()),
    }
}

/// Verifies a program whose first line has the number `first`.
fn accepted<'a, K: ProgramKind>(
    alloc: Global,
    first: u32,
    code: Code,
) -> Result<AcceptedProgram<K>, Refusal<'a>>
    ensures { Reports (IsVerdict K.KIND first code) result }
{
    match verify_as(alloc, code) {
        Ok(program) => Ok(program),
        Err((code, rejection)) => match rejection {
            VerifyFault::Why { at, reason } => {
                let fault = TextFault::At {
                    line: first,
                    cause: Cause::Verdict(reason),
                };
                Err(Refusal::new(fault, Wanted::Program { code, at }))
            }
            VerifyFault::Memory => Err(Refusal::memory()),
        },
    }
}

/// Reads and verifies a program of the kind `K`. Returns it and the rest of the text.
///
/// # Errors
///
/// The first fault of the program, or the verifier's rejection, at the first line of the program;
/// `TextFault::Memory` if an allocation fails.
pub fn accepted_part<'a, K: ProgramKind>(
    alloc: Global,
    rest: Rest<'a>,
) -> Result<(AcceptedProgram<K>, Rest<'a>), Refusal<'a>>
    ensures { Reports (part K.KIND rest.entry) result }
{
    let first = rest.number();
    let (code, after) = program_part(alloc, K::KIND, rest)?;
    let program = accepted(alloc, first, code)?;
    Ok((program, after))
}
