//! Whole texts: reading an input to its end, or until it is too long, and writing an output completely.

ghost use Rattle.std.specs.Prelude.{◌≡◌, ◌+◌, ◌≤◌, ◌||◌, ◌↔◌, ◌++◌, length, false, true, IfOk};
ghost use Rattle.std.specs.Prelude.{OnOk, IfErr, IfSome, is_err};
ghost use Rattle.trlab_campaign.specs.Device.{ConsumesUpTo, GaveBytes, IsInputOrTooLong};
ghost use Rattle.trlab_campaign.specs.Device.{FlushedAtMostOnce, FlushedOnce};
ghost use Rattle.trlab_campaign.specs.Writers.{AddsByResult, bytes_of};
ghost use Rattle.trlab_campaign.specs.declared.end.Failure.TheVariants.{Device};

use crate::device::{DeviceError, Sink, Source};
use crate::end::Failure;
use std::alloc::Global;
use trlab_bounds::texts::TEXT_LIMIT;

/// Reads an input to its end, or its first `TEXT_LIMIT` + 1 bytes if it is longer. These are enough, because every
/// engine rejects an input above `TEXT_LIMIT` bytes.
///
/// # Errors
///
/// `Memory` if an allocation fails, `Device` if the reader fails.
pub fn read_text<S: Source>(alloc: Global, reader: &mut S) -> Result<Vec<u8>, Failure>
    requires { S.failed reader.old ≡ false }
    ensures text { IfOk result (λ text. IfSome (S.left reader.old) (IsInputOrTooLong text.items)) }
    ensures read { ConsumesUpTo (TEXT_LIMIT + 1) (S.left reader.old) (S.left reader.new) }
    ensures given { IfOk result (λ text. S.given reader.new ≡ S.given reader.old ++ text.items) }
    ensures stops { GaveBytes (λ bytes. length bytes ≤ TEXT_LIMIT + 1) (S.given reader.old) (S.given reader.new) }
    ensures whole { IfOk result (λ text. length text.items ≤ TEXT_LIMIT → S.at_end reader.new ≡ true) }
    ensures fails { IfErr result (λ failure. (S.failed reader.new ≡ true) ↔ (failure ≡ Device)) }
    ensures works { OnOk result (S.failed reader.new ≡ false) }
{
    let mut text = Vec::new(alloc);
    let mut piece = [0u8; 4096];
    while text.len() <= TEXT_LIMIT {
        let room = (TEXT_LIMIT + 1 - text.len()).min(4096);
        let count = match reader.take(&mut piece[..room]) {
            Ok(count) => count,
            Err(DeviceError) => return Err(Failure::Device),
        };
        if count == 0 {
            return Ok(text);
        }
        if text.extend_from_slice(&piece[..count]).is_err() {
            return Err(Failure::Memory);
        }
    }
    Ok(text)
}

/// Writes a whole text.
///
/// # Errors
///
/// `DeviceError` if the writer fails; then a prefix of the text was written.
#[tactic(auto, using(crate::proofs::WrittenBytes::adds_part))]
pub fn write_text<K: Sink>(writer: &mut K, text: &[u8]) -> Result<(), DeviceError>
    ensures wrote { AddsByResult result (bytes_of K.Sink writer.old) (bytes_of K.Sink writer.new) text.now }
    ensures fails { K.failed writer.new ≡ (K.failed writer.old || is_err result) }
    ensures flushed { K.flushes writer.new ≡ K.flushes writer.old }
{
    let mut done = 0;
    while done < text.len() {
        let (_, rest) = text.split_at(done);
        let count = writer.put(rest)?;
        done += count;
    }
    Ok(())
}

/// Writes a whole text and flushes the writer.
///
/// # Errors
///
/// `DeviceError` if the writer fails; then a prefix of the text was written, or all of it without a successful flush.
pub fn write_last<K: Sink>(writer: &mut K, text: &[u8]) -> Result<(), DeviceError>
    ensures wrote { AddsByResult result (bytes_of K.Sink writer.old) (bytes_of K.Sink writer.new) text.now }
    ensures handed { OnOk result
        (FlushedOnce (K.is_flushed writer.new) (K.flushes writer.old) (K.flushes writer.new)) }
    ensures flushed { FlushedAtMostOnce (K.flushes writer.old) (K.flushes writer.new) }
    ensures fails { K.failed writer.new ≡ (K.failed writer.old || is_err result) }
{
    write_text(writer, text)?;
    writer.flush()?;
    Ok(())
}
