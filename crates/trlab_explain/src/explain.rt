//! The engine of explanations.

ghost use Rattle.std.specs.Prelude.{◌≡◌, ◌↔◌, ◌++◌, [], true, false, All, IfOk, MatchResult, OnOk, option_map};
ghost use Rattle.trlab_campaign.specs.Ending.{EngineEnds, FlushedAtEnd, WroteOutputAtEnd};
ghost use Rattle.trlab_campaign.specs.Writers.{AddsNone, bytes_of};
ghost use Rattle.trlab_campaign.specs.declared.end.End.TheVariants.{DeviceFault, Memory};
ghost use Rattle.trlab_lines.specs.Plain.{IsPlain};
ghost use Rattle.trlab_verify.specs.Verified.{IsFaultOf};
ghost use Rattle.trlab_jobs.specs.Check.{Check as AbstractCheck};
ghost use Rattle.trlab_explain.specs.Explanations.{quote_line};
ghost use Rattle.trlab_explain.specs.Explanations.{Explains, HasHead, IsBlankHead, IsRejectedWith, IsHeadAs, IsFaultHead, IsProgramHead, accepted_line, budget_sentence};

use crate::explanation::{Explanation, json_form, text_form};
use crate::meant::subject_of;
use crate::repair::likely_repair;
use std::alloc::{AllocError, AllocGlobal, Global};
use trlab_campaign::{
    Cause, End, Engine, Sink, Source, push_fault_line, push_rejected_line, run_engine, write_output,
};
use trlab_code::{Code, Kind};
use trlab_jobs::{Check, Subject, parse_check, parse_job, parse_sweep};
use trlab_lines::{Page, Place};
use trlab_messages::{Fault, ProgramVerdict, Result, add_fault, add_job, add_program, add_sweep};
use trlab_texts::{Refusal, TextFault, Wanted};
use trlab_verify::{VerifyFault, verify_change, verify_motion};

/// The form in which an explanation is written.
#[derive(Clone, Copy)]
pub enum Form {
    /// Lines of text.
    Text,
    /// One JSON object, on one line.
    Json,
}

/// Quotes a line of the input with its number; adds nothing for `None`.
fn push_quote(page: &mut Page, number: u32, line: Option<&[u8]>) -> Result<()>
    ensures { OnOk result
        (page.new ≡ page.old ++ quote_line number (option_map (λ line. line.now) line.entry)) }
{
    let Some(line) = line else {
        return Ok(());
    };
    page.say("line ")?;
    page.number(u64::from(number))?;
    page.say(": ")?;
    page.quote(line)?;
    page.end_line()
}

/// Explains a rejected input by its first fault; `wanted` has the lines or values that the reader expected there.
fn explain_fault(
    explanation: &mut Explanation,
    text: &[u8],
    line: u32,
    cause: Cause,
    wanted: &Wanted<'_>,
) -> Result<()>
    requires { IsBlankHead explanation.old.head }
    ensures { OnOk result (IsFaultHead text.now (record { line = line; cause = cause }) explanation.new.head) }
{
    let place = Place::at(text, line);
    let fault = Fault {
        subject: explanation.body.subject,
        place,
        line: place.line.unwrap_or(b""),
        cause,
        wanted,
    };
    explanation.head.is_rejected = true;
    push_fault_line(&mut explanation.head.answer, line, cause)?;
    push_quote(&mut explanation.head.quote, line, place.line)?;
    let repair = likely_repair(explanation.body.alloc, fault)?;
    add_fault(&mut explanation.body, &fault, repair);
    Ok(())
}

/// Explains an input that its reader rejects. Fails if its fault is a failed allocation.
#[tactic(auto, using(crate::proofs::Refusals::refusal_has_head))]
fn explain_refusal(
    explanation: &mut Explanation,
    subject: Subject,
    text: &[u8],
    refusal: Refusal<'_>,
) -> Result<()>
    requires new { IsBlankHead explanation.old.head }
    requires rejected { IsRejectedWith subject text.now refusal }
    ensures { OnOk result (IsHeadAs subject text.now explanation.new.head) }
{
    match refusal.into_parts() {
        (TextFault::At { line, cause }, wanted) => {
            explain_fault(explanation, text, line, cause, &wanted)
        }
        (TextFault::Memory, _) => Err(AllocError),
    }
}

/// Adds the line that the command prints for an accepted program to an empty page.
fn push_accepted_line(page: &mut Page, budget: u32) -> Result<()>
    requires { page.old ≡ [] }
    ensures { OnOk result (page.new ≡ accepted_line budget) }
{
    page.say("accepted budget ")?;
    page.number(u64::from(budget))?;
    page.end_line()
}

/// Adds the sentence on the budget of an accepted program to an empty page.
fn push_budget_sentence(page: &mut Page, budget: u32) -> Result<()>
    requires { page.old ≡ [] }
    ensures { OnOk result (page.new ≡ budget_sentence budget) }
{
    page.say("Accepted: a car runs at most ")?;
    page.number(u64::from(budget))?;
    page.line(" instructions per step.")
}

/// Explains a program that the verifier accepts with a budget.
fn explain_accepted(
    explanation: &mut Explanation,
    text: &[u8],
    code: &Code,
    budget: u32,
) -> Result<()>
    requires { IsBlankHead explanation.old.head }
    ensures rejected { explanation.new.head.is_rejected ≡ explanation.old.head.is_rejected }
    ensures answer { OnOk result (explanation.new.head.answer ≡ accepted_line budget) }
    ensures budget { OnOk result (explanation.new.head.budget ≡ budget_sentence budget) }
{
    push_accepted_line(&mut explanation.head.answer, budget)?;
    push_budget_sentence(&mut explanation.head.budget, budget)?;
    add_program(
        &mut explanation.body,
        text,
        code,
        ProgramVerdict::Accepted { budget },
    );
    Ok(())
}

/// Explains a program that the verifier rejects. Fails if `fault` is a failed allocation.
fn explain_rejected(
    explanation: &mut Explanation,
    text: &[u8],
    code: &Code,
    fault: VerifyFault,
) -> Result<()>
    requires { IsBlankHead explanation.old.head }
    ensures { (check : AbstractCheck) → IsFaultOf check.program.kind check.program fault
        → OnOk result (IsProgramHead check explanation.new.head) }
{
    let VerifyFault::Why { at, reason } = fault else {
        return Err(AllocError);
    };
    explanation.head.is_rejected = true;
    push_rejected_line(&mut explanation.head.answer, at, reason)?;
    add_program(
        &mut explanation.body,
        text,
        code,
        ProgramVerdict::Rejected { pc: at, reason },
    );
    Ok(())
}

/// Explains the verifier's verdict on the program of a check.
fn explain_program(explanation: &mut Explanation, text: &[u8], check: Check) -> Result<()>
    requires { IsBlankHead explanation.old.head }
    ensures { OnOk result (IsProgramHead check explanation.new.head) }
{
    let Check { code, .. } = check;
    let alloc = explanation.body.alloc;
    match code.kind() {
        Kind::Motion => match verify_motion(alloc, code) {
            Ok(motion) => explain_accepted(explanation, text, motion.code(), motion.budget()),
            Err((code, fault)) => explain_rejected(explanation, text, &code, fault),
        },
        Kind::Change => match verify_change(alloc, code) {
            Ok(change) => explain_accepted(explanation, text, change.code(), change.budget()),
            Err((code, fault)) => explain_rejected(explanation, text, &code, fault),
        },
    }
}

/// Explains an input that is read as `subject`.
fn explain_as(explanation: &mut Explanation, subject: Subject, text: &[u8]) -> Result<()>
    requires { IsBlankHead explanation.old.head }
    ensures { OnOk result (IsHeadAs subject text.now explanation.new.head) }
{
    let alloc = explanation.body.alloc;
    match subject {
        Subject::Job => match parse_job(alloc, text) {
            Ok(job) => {
                add_job(&mut explanation.body, text, &job);
                Ok(())
            }
            Err(refusal) => explain_refusal(explanation, subject, text, refusal),
        },
        Subject::Sweep => match parse_sweep(alloc, text) {
            Ok(sweep) => {
                add_sweep(&mut explanation.body, text, &sweep);
                Ok(())
            }
            Err(refusal) => explain_refusal(explanation, subject, text, refusal),
        },
        Subject::Check => match parse_check(alloc, text) {
            Ok(check) => explain_program(explanation, text, check),
            Err(refusal) => explain_refusal(explanation, subject, text, refusal),
        },
    }
}

/// A copy of the bytes of a page, which are plain.
pub fn plain_bytes(alloc: Global, page: &Page) -> Result<Vec<u8>>
    ensures text { IfOk result (λ bytes. bytes.items ≡ page.now) }
    ensures plain { IfOk result (λ bytes. All IsPlain bytes.items) }
{
    let mut bytes = Vec::new(alloc);
    bytes.extend_from_slice(page.text())?;
    Ok(bytes)
}

/// An explanation that is ready to be written.
#[derive(Drop)]
pub struct Output {
    /// Whether the input or its program is rejected, or the number of a cause or reason is unknown.
    pub is_rejected: bool,
    pub bytes: Vec<u8>,
}

/// The output for an explanation.
fn output_in_form(alloc: Global, form: Form, explanation: &Explanation) -> Result<Output>
    ensures rejected { IfOk result (λ output. output.is_rejected ≡ explanation.now.head.is_rejected) }
    ensures head { IfOk result (λ output. HasHead form explanation.now.head output.bytes.items) }
    ensures plain { IfOk result (λ output. All IsPlain output.bytes.items) }
{
    explanation.body.outcome()?;
    let bytes = match form {
        Form::Text => plain_bytes(alloc, &text_form(alloc, explanation)?)?,
        Form::Json => json_form(alloc, explanation)?,
    };
    Ok(Output {
        is_rejected: explanation.head.is_rejected,
        bytes,
    })
}

/// Explains an input. It is read as `subject`; if that is `None`, as the kind of input that it is meant to be.
fn explain_input(alloc: Global, form: Form, subject: Option<Subject>, text: &[u8]) -> Result<Output>
    ensures { IfOk result (λ output. Explains form subject text.now output.is_rejected output.bytes.items) }
{
    let read_as = match subject {
        Some(subject) => subject,
        None => subject_of(alloc, text)?,
    };
    let mut explanation = Explanation::new(alloc, read_as);
    explain_as(&mut explanation, read_as, text)?;
    output_in_form(alloc, form, &explanation)
}

/// Writes a whole output and flushes the writer; writes nothing if an allocation failed.
pub fn write_explanation<K: Sink>(output: Result<Output>, writer: &mut K) -> End
    requires { K.failed writer.old ≡ false }
    ensures answer { MatchResult output
        (λ output. WroteOutputAtEnd output.is_rejected output.bytes.items result
        (bytes_of K.Sink writer.old) (bytes_of K.Sink writer.new))
        (λ _. (result ≡ Memory) × AddsNone (bytes_of K.Sink writer.old) (bytes_of K.Sink writer.new)) }
    ensures handed { FlushedAtEnd result
        (K.is_flushed writer.new) (K.flushes writer.old) (K.flushes writer.new) }
    ensures device { (result ≡ DeviceFault) ↔ (K.failed writer.new ≡ true) }
{
    match output {
        Ok(Output { is_rejected, bytes }) => write_output(is_rejected, &bytes, writer),
        Err(_) => End::Memory,
    }
}

/// The engine of `trlab explain`: explains an input in this form, read as `subject` if there is one.
#[derive(Drop)]
struct ExplainEngine {
    form: Form,
    subject: Option<Subject>,
}

impl Engine for ExplainEngine {
    ghost is_ready = { λ _. Unit {0} };

    ghost outputs = { λ engine text. Explains engine.form engine.subject text };

    ghost at_once = { true };

    fn write<K: Sink>(self, alloc: Global, text: &[u8], writer: &mut K) -> End {
        write_explanation(explain_input(alloc, self.form, self.subject, text), writer)
    }
}

/// Reads an input and writes, in the given form, why it is rejected and a repair if one helps, or its work if it is
/// valid. Without `subject`, the first word outside comments decides how it is read, even if it is misspelled.
///
/// The whole input is read and judged before a byte is written. If an allocation fails, nothing is written; if the
/// reader or the writer fails, a prefix of the output is written.
pub fn explain_text<R: AllocGlobal, S: Source, K: Sink>(
    rt: &R,
    form: Form,
    subject: Option<Subject>,
    reader: &mut S,
    writer: &mut K,
) -> End
    requires reader_works { S.failed reader.old ≡ false }
    requires writer_works { K.failed writer.old ≡ false }
    ensures ends { EngineEnds S.Source K.Sink (Explains form subject) result
        reader.old reader.new writer.old writer.new }
    ensures kept { result ≡ Memory → AddsNone (bytes_of K.Sink writer.old) (bytes_of K.Sink writer.new) }
{
    run_engine(rt.alloc(), ExplainEngine { form, subject }, reader, writer)
}
