//! Output lines: a step with its pictures, the first fault of a rejected text, and the reason for a rejected program.

ghost use Rattle.std.specs.Prelude.{◌≡◌, ◌∷◌, ◌++◌, ℕ, List, [], IfOk, OnOk, codes, decimal};
ghost use Rattle.std.specs.String.{string_bytes};
ghost use Rattle.trlab_campaign.specs.CheckOutput.{rejected_line};
ghost use Rattle.trlab_campaign.specs.Output.{step_text, fault_line};

use itoa::Buffer;
use std::alloc::{AllocError, Global};
use trlab_lines::Page;
use trlab_road::Road;
use trlab_texts::Cause;

/// Adds a text that was formatted before, or returns the error of formatting it.
///
/// # Errors
///
/// If formatting the text failed, or an allocation fails.
pub fn push_text(out: &mut Vec<u8>, text: Result<String, AllocError>) -> Result<(), AllocError>
    ensures { (bytes : List ℕ) → IfOk text (λ text. string_bytes text ≡ bytes)
        → OnOk result (out.new.items ≡ out.old.items ++ bytes) }
{
    let text = text?;
    out.extend_from_slice(text.as_bytes())
}

/// Adds the line `step N`. The digits are formatted without an allocation.
fn push_step_line(out: &mut Vec<u8>, step: u32) -> Result<(), AllocError>
    ensures { OnOk result
        (out.new.items ≡ out.old.items ++ (codes "step " ++ (decimal step ++ (10 ∷ [])))) }
{
    let mut digits = Buffer::new();
    out.extend_from_slice(b"step ")?;
    out.extend_from_slice(digits.format(step).as_bytes())?;
    out.push(b'\n')?;
    Ok(())
}

/// Adds the text of a step: its line, and the picture of each lane.
///
/// # Errors
///
/// If an allocation fails.
pub fn push_step(out: &mut Vec<u8>, step: u32, road: &Road) -> Result<(), AllocError>
    ensures { OnOk result (out.new.items ≡ out.old.items ++ step_text step road.now) }
{
    push_step_line(out, step)?;
    for lane in 0..road.lanes() {
        road.push_picture(out, lane)?;
        out.push(b'\n')?;
    }
    Ok(())
}

/// Adds `fault line N cause K`, the line of a rejected text: the line of its first fault (0 if the text is too
/// long) and the number of the cause.
///
/// # Errors
///
/// If an allocation fails.
pub fn push_fault_line(page: &mut Page, line: u32, cause: Cause) -> Result<(), AllocError>
    ensures { OnOk result (page.new ≡ page.old ++ fault_line (record { line = line; cause = cause })) }
{
    page.say("fault line ")?;
    page.number(u64::from(line))?;
    page.say(" cause ")?;
    page.number(cause.number())?;
    page.end_line()
}

/// A page with only the line of a rejected text.
///
/// # Errors
///
/// If an allocation fails.
pub fn fault_page(alloc: Global, line: u32, cause: Cause) -> Result<Page, AllocError>
    ensures { IfOk result (λ page. page ≡ fault_line (record { line = line; cause = cause })) }
{
    let mut page = Page::new(alloc);
    push_fault_line(&mut page, line, cause)?;
    Ok(page)
}

/// Adds `refused at N reason K`, the line of a rejected program: the instruction, counted from 0, and the number
/// of the verifier's reason.
///
/// # Errors
///
/// If an allocation fails.
pub fn push_rejected_line(page: &mut Page, at: u32, reason: u32) -> Result<(), AllocError>
    ensures { OnOk result (page.new ≡ page.old ++ rejected_line at reason) }
{
    page.say("refused at ")?;
    page.number(u64::from(at))?;
    page.say(" reason ")?;
    page.number(u64::from(reason))?;
    page.end_line()
}
