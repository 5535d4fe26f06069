//! The engine of checks: check texts in, verdicts out. The verifier judges the one program of a text.

ghost use Rattle.std.specs.Prelude.{◌≡◌, IfOk, true, false};
ghost use Rattle.trlab_verify.specs.Verified.{IsFaultOf};
ghost use Rattle.trlab_verify.specs.Verdict.{IsAccepted};
ghost use Rattle.trlab_jobs.specs.Check.{Check as Request};
ghost use Rattle.trlab_campaign.specs.declared.end.End.TheVariants.{Memory};
ghost use Rattle.trlab_campaign.specs.CheckOutput.{IsCheckOutput, IsOutputForCheck};
ghost use Rattle.trlab_campaign.specs.CheckOutput.{accepted_text, answer_text, rejected_line};
ghost use Rattle.trlab_campaign.specs.Ending.{EngineEnds};
ghost use Rattle.trlab_campaign.specs.Writers.{AddsNone, bytes_of};

use crate::device::{Sink, Source};
use crate::end::{End, reject, write_output};
use crate::engine::{Engine, run_engine};
use crate::note_lines::push_notes;
use crate::output::push_rejected_line;
use std::alloc::{AllocError, AllocGlobal, Global};
use trlab_asm::disassemble;
use trlab_code::{Code, Kind};
use trlab_jobs::{Check, Question, read_check};
use trlab_lines::Page;
use trlab_texts::TextFault;
use trlab_verify::{VerifyFault, verify_change, verify_motion};

/// The verdict on a program, as it is written.
#[derive(Drop)]
struct CheckVerdict {
    is_rejection: bool,
    text: Vec<u8>,
}

/// The text of an accepted program: its budget, and its canonical text.
fn accepted_text(alloc: Global, budget: u32, code: &Code) -> Result<Vec<u8>, AllocError>
    ensures { IfOk result (λ text. text.items ≡ accepted_text budget code.now) }
{
    let line = format!(in alloc; "accepted budget {budget}\n")?;
    let mut text = line.into_bytes();
    let program = disassemble(alloc, code)?;
    text.extend_from_slice(&program)?;
    Ok(text)
}

/// The text of a rejected program.
fn rejected_text(alloc: Global, at: u32, reason: u32) -> Result<Vec<u8>, AllocError>
    ensures { IfOk result (λ text. text.items ≡ rejected_line at reason) }
{
    let mut page = Page::new(alloc);
    push_rejected_line(&mut page, at, reason)?;
    let mut text = Vec::new(alloc);
    text.extend_from_slice(page.text())?;
    Ok(text)
}

/// The text of an accepted program, with its notes if the question asks for them.
fn answer_text(
    alloc: Global,
    question: Question,
    budget: u32,
    code: &Code,
) -> Result<Vec<u8>, AllocError>
    requires { IsAccepted code.now.kind code.now }
    ensures { IfOk result (λ text. text.items ≡ answer_text question budget code.now) }
{
    let mut text = accepted_text(alloc, budget, code)?;
    match question {
        Question::Verdict => {}
        Question::Notes => push_notes(alloc, &mut text, code)?,
    }
    Ok(text)
}

/// The verdict on an accepted program.
fn accepted_verdict(
    alloc: Global,
    question: Question,
    budget: u32,
    code: &Code,
) -> Result<CheckVerdict, AllocError>
    requires { IsAccepted code.now.kind code.now }
    ensures { IfOk result (λ verdict.
        (verdict.is_rejection ≡ false) × (verdict.text.items ≡ answer_text question budget code.now)) }
{
    let text = answer_text(alloc, question, budget, code)?;
    Ok(CheckVerdict {
        is_rejection: false,
        text,
    })
}

/// The verdict on a program that the verifier rejects for this fault.
fn rejected_verdict(alloc: Global, fault: VerifyFault) -> Result<CheckVerdict, AllocError>
    ensures { (check : Request) → IsFaultOf check.program.kind check.program fault
        → IfOk result (λ verdict. IsOutputForCheck check verdict.is_rejection verdict.text.items) }
{
    match fault {
        VerifyFault::Why { at, reason } => {
            let text = rejected_text(alloc, at, reason)?;
            Ok(CheckVerdict {
                is_rejection: true,
                text,
            })
        }
        VerifyFault::Memory => Err(AllocError),
    }
}

/// The verdict on the program of a check, judged as a program of its own kind.
fn verdict_of(alloc: Global, check: Check) -> Result<CheckVerdict, AllocError>
    ensures { IfOk result (λ verdict. IsOutputForCheck check verdict.is_rejection verdict.text.items) }
{
    let Check { question, code } = check;
    match code.kind() {
        Kind::Motion => match verify_motion(alloc, code) {
            Ok(motion) => accepted_verdict(alloc, question, motion.budget(), motion.code()),
            Err((_, fault)) => rejected_verdict(alloc, fault),
        },
        Kind::Change => match verify_change(alloc, code) {
            Ok(change) => accepted_verdict(alloc, question, change.budget(), change.code()),
            Err((_, fault)) => rejected_verdict(alloc, fault),
        },
    }
}

/// The engine of check texts.
#[derive(Drop)]
struct CheckEngine;

impl Engine for CheckEngine {
    ghost is_ready = { λ _. Unit {0} };

    ghost outputs = { λ _ text. IsCheckOutput text };

    ghost at_once = { true };

    fn write<K: Sink>(self, alloc: Global, text: &[u8], writer: &mut K) -> End {
        let check = match read_check(alloc, text) {
            Ok(check) => check,
            Err(TextFault::At { line, cause }) => return reject(alloc, line, cause, writer),
            Err(TextFault::Memory) => return End::Memory,
        };
        match verdict_of(alloc, check) {
            Ok(verdict) => write_output(verdict.is_rejection, &verdict.text, writer),
            Err(_) => End::Memory,
        }
    }
}

/// Reads a check text, and writes the verdict on its program: the budget and the canonical text of an accepted program
/// (with its notes if the text asks for them), or the instruction and the reason why it is rejected. If the text has a
/// fault, the line of its first fault is written instead.
///
/// The whole text is read and checked before a byte is written. If an allocation fails, nothing is written; if
/// a call of the reader or writer fails, a prefix of the whole output.
pub fn check_text<R: AllocGlobal, S: Source, K: Sink>(rt: &R, reader: &mut S, writer: &mut K) -> End
    requires reader_works { S.failed reader.old ≡ false }
    requires writer_works { K.failed writer.old ≡ false }
    ensures ends { EngineEnds S.Source K.Sink IsCheckOutput result
        reader.old reader.new writer.old writer.new }
    ensures kept { result ≡ Memory → AddsNone (bytes_of K.Sink writer.old) (bytes_of K.Sink writer.new) }
{
    run_engine(rt.alloc(), CheckEngine, reader, writer)
}
