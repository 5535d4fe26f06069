//! The choice of a repair. Each repair is tried before it is shown: it must let the input get further than its first
//! error.

ghost use Rattle.std.specs.Prelude.{◌≡◌, ◌+◌, ◌≤◌, IfOk, length, IfSome, true};
ghost use Rattle.trlab_explain.specs.Repairs.{edited, GetsFurther, HasFirstFault, IsLaterOrNone, Helps};
ghost use Rattle.trlab_lines.specs.Lines.{lines_of};

use std::alloc::{AllocError, Global};
use trlab_jobs::{Subject, read_check, read_job, read_sweep};
use trlab_lines::count_lines;
use trlab_messages::{Change, Fault, Repair, Result, candidates_for};
use trlab_texts::TextFault;

/// The text with `removed` bytes from `at` on replaced by `inserted`.
fn edited(alloc: Global, text: &[u8], at: usize, removed: usize, inserted: &[u8]) -> Result<Vec<u8>>
    requires { at + removed ≤ length text.now }
    ensures { IfOk result (λ changed. changed.items ≡ edited at removed inserted.now text.now) }
{
    let (above, _) = text.split_at(at);
    let (_, after) = text.split_at(at + removed);
    let mut changed = Vec::new(alloc);
    changed.extend_from_slice(above)?;
    changed.extend_from_slice(inserted)?;
    changed.extend_from_slice(after)?;
    Ok(changed)
}

/// The line of the first fault of a text that is read as `subject`, if it has one.
fn first_fault(alloc: Global, subject: Subject, text: &[u8]) -> Result<Option<u32>>
    ensures { IfOk result (λ line. HasFirstFault subject text.now line) }
{
    let fault = match subject {
        Subject::Job => read_job(alloc, text).err(),
        Subject::Sweep => read_sweep(alloc, text).err(),
        Subject::Check => read_check(alloc, text).err(),
    };
    match fault {
        None => Ok(None),
        Some(TextFault::At { line, .. }) => Ok(Some(line)),
        Some(TextFault::Memory) => Err(AllocError),
    }
}

/// Whether a changed text gets further than `text`, whose first fault is at the line `number`. `line` is the line of
/// the first fault of `changed`, and `None` if it has none. Fewer lines must be left after it, so that it does not
/// count as later only because lines were inserted above it.
fn is_after(text: &[u8], number: u32, changed: &[u8], line: Option<u32>) -> bool
    ensures { result ≡ true → IsLaterOrNone (lines_of text.now) number (lines_of changed.now) line }
{
    match line {
        None => true,
        Some(line) => {
            // Sums instead of differences, which could be negative.
            let left = count_lines(changed) as u128 + u128::from(number);
            number < line && left < count_lines(text) as u128 + u128::from(line)
        }
    }
}

/// Whether `changed`, read as `subject`, gets further than the input whose first fault is `fault`.
fn gets_further(alloc: Global, fault: Fault<'_>, subject: Subject, changed: &[u8]) -> Result<bool>
    ensures { IfOk result (λ is_so. is_so ≡ true
        → GetsFurther fault.entry.place.text.now fault.entry.place.number subject changed.now) }
{
    let line = first_fault(alloc, subject, changed)?;
    Ok(is_after(fault.place.text, fault.place.number, changed, line))
}

/// Whether a change lets an input get further than its first fault.
fn helps(alloc: Global, fault: Fault<'_>, change: &Change) -> Result<bool>
    ensures { IfOk result (λ is_so. is_so ≡ true
        → Helps fault.entry.subject fault.entry.place.text.now fault.entry.place.number change.now) }
{
    let text = fault.place.text;
    match change {
        Change::Edited(edit) => {
            if edit.at > text.len() || edit.removed > text.len() - edit.at {
                return Ok(false);
            }
            let changed = edited(alloc, text, edit.at, edit.removed, &edit.inserted)?;
            gets_further(alloc, fault, fault.subject, &changed)
        }
        Change::ReadAs(other) => gets_further(alloc, fault, *other, text),
    }
}

/// The maximum length in bytes (512 KiB) of a text that is read several times, so that no explanation takes long.
const LONGEST_REREAD: usize = 524288;

/// The most likely repair that helps: with it, the input has no error or its first one is further down. The verifier
/// may still reject the program of a check. For an input of more than 512 KiB, only one repair is tried.
///
/// # Errors
///
/// If an allocation fails.
pub fn likely_repair(alloc: Global, fault: Fault<'_>) -> Result<Option<Repair>>
    ensures { IfOk result (λ found. IfSome found (λ repair.
        Helps fault.entry.subject fault.entry.place.text.now fault.entry.place.number repair.change)) }
{
    for repair in candidates_for(alloc, &fault)? {
        if helps(alloc, fault, &repair.change)? {
            return Ok(Some(repair));
        }
        if fault.place.text.len() > LONGEST_REREAD {
            break;
        }
    }
    Ok(None)
}
