//! How an engine ends, and the functions that write a whole output, or the line of a rejected input, at the end.

ghost use Rattle.std.specs.Prelude.{◌≡◌, ◌≢◌, true, false};
ghost use Rattle.trlab_campaign.specs.declared.end.End.TheVariants.{Memory};
ghost use Rattle.trlab_campaign.specs.Ending.{LeavesWriter, WroteOutputAtEnd};
ghost use Rattle.trlab_campaign.specs.Output.{fault_line};

use crate::device::{Sink, write_last};
use crate::output::fault_page;
use std::alloc::Global;
use trlab_texts::Cause;

/// How an engine ended. The discriminant is the exit status of the program.
#[derive(Clone, Copy, Debug, PartialEq, Eq)]
pub enum End {
    /// The whole output was written and flushed.
    Done = 0,
    /// The input has a fault, or its program is rejected, and the line that says so was written and flushed.
    Refused = 1,
    /// An allocation failed.
    Memory = 3,
    /// A call of the reader or the writer failed.
    DeviceFault = 4,
}

/// Why an input was not read to its end, or an output not written to its end.
#[derive(Clone, Copy)]
pub enum Failure {
    /// An allocation failed.
    Memory,
    /// The reader or the writer failed.
    Device,
}

/// Writes a whole output and flushes the writer. `rejected` is whether the output is a rejection. It allocates nothing,
/// so it never ends with `Memory`.
pub fn write_output<K: Sink>(rejected: bool, text: &[u8], writer: &mut K) -> End
    requires { K.failed writer.old ≡ false }
    ensures ends { LeavesWriter K.Sink (WroteOutputAtEnd rejected text.now) result writer.old writer.new }
    ensures never { result ≢ Memory }
{
    match write_last(writer, text) {
        Ok(()) => { if rejected { End::Refused } else { End::Done } }
        Err(_) => End::DeviceFault,
    }
}

/// Writes `fault line N cause K` as the whole output and flushes the writer. Returns `Refused`, unless an allocation
/// or the writer fails.
pub fn reject<K: Sink>(alloc: Global, line: u32, cause: Cause, writer: &mut K) -> End
    requires { K.failed writer.old ≡ false }
    ensures { LeavesWriter K.Sink (WroteOutputAtEnd true (fault_line (record { line = line; cause = cause })))
        result writer.old writer.new }
{
    match fault_page(alloc, line, cause) {
        Ok(page) => write_output(true, page.text(), writer),
        Err(_) => End::Memory,
    }
}
