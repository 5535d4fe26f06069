//! Engines: each makes the output for an input, which is read before the engine begins.

ghost use Rattle.std.specs.Prelude.{◌≡◌, ℕ, List, Bool, true, false};
ghost use Rattle.trlab_campaign.specs.declared.end.End.TheVariants.{Memory};
ghost use Rattle.trlab_campaign.specs.Device.{IsInputOrTooLong};
ghost use Rattle.trlab_campaign.specs.Ending.{WroteAtEnd, EngineEnds, LeavesWriter};
ghost use Rattle.trlab_campaign.specs.Output.{Outputs};
ghost use Rattle.trlab_campaign.specs.Writers.{AddsNone, bytes_of};

use crate::device::{Sink, Source, read_text};
use crate::end::{End, Failure};
use std::alloc::Global;

/// An engine, which makes the output for an input and writes it to a `Sink`.
pub trait Engine: Drop {
    // The condition under which it can write, for example that its workers can be started.
    ghost is_ready: { Self → Type 0 };

    // The possible whole outputs for an input, each marked as a rejection or not.
    ghost outputs: { Self → List ℕ → Outputs };

    // Whether it completes its output before it writes the first byte.
    ghost at_once: { Bool };

    /// Writes the output for an input and flushes the writer. `text` is the whole input, or its first
    /// `TEXT_LIMIT` + 1 bytes if it is longer than that: an engine rejects every input above `TEXT_LIMIT` bytes
    /// in the same way.
    fn write<K: Sink>(self, alloc: Global, text: &[u8], writer: &mut K) -> End
        requires ready { is_ready self }
        requires works { K.failed writer.old ≡ false }
        ensures ends { (input : List ℕ) → IsInputOrTooLong text.now input
            → LeavesWriter K.Sink (WroteAtEnd (outputs self input)) result writer.old writer.new }
        ensures kept { at_once ≡ true → result ≡ Memory
            → AddsNone (bytes_of K.Sink writer.old) (bytes_of K.Sink writer.new) };
}

/// Reads an input, and writes an engine's output for it. If the reader fails, nothing is written.
pub fn run_engine<E: Engine, S: Source, K: Sink>(
    alloc: Global,
    engine: E,
    reader: &mut S,
    writer: &mut K,
) -> End
    requires engine_ready { E.is_ready engine }
    requires reader_works { S.failed reader.old ≡ false }
    requires writer_works { K.failed writer.old ≡ false }
    ensures ends { EngineEnds S.Source K.Sink (E.outputs engine) result
        reader.old reader.new writer.old writer.new }
    ensures kept { E.at_once ≡ true → result ≡ Memory
        → AddsNone (bytes_of K.Sink writer.old) (bytes_of K.Sink writer.new) }
{
    match read_text(alloc, reader) {
        Ok(text) => engine.write(alloc, &text, writer),
        Err(Failure::Memory) => End::Memory,
        Err(Failure::Device) => End::DeviceFault,
    }
}
