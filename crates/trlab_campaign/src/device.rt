//! Devices: an input is read from a `Source`, and an output is written to a `Sink`. A device that has failed stays
//! failed.

mod watched;
mod whole;

ghost use Rattle.std.specs.Prelude.{◌≡◌, ℕ, ◌≤◌, ◌<◌, ◌||◌, ◌↔◌, ◌++◌, List, length, Option, Bool};
ghost use Rattle.std.specs.Prelude.{true, false, IfOk, OnOk, is_err};
ghost use Rattle.std.specs.Io.KnownBytes.{ReadConsumes, WriteAppends, Keeps};
ghost use Rattle.trlab_campaign.specs.Device.{ReportsEnd, transferred_bytes, once_more};
ghost use Rattle.trlab_campaign.specs.declared.device.Flushes.{Flushes};

use thiserror::Error;
pub use watched::Watched;
pub use whole::{read_text, write_last, write_text};

/// A call of a reader or a writer has failed.
#[derive(Clone, Copy, Debug, PartialEq, Eq, Error)]
#[error("a device failed")]
pub struct DeviceError;

/// How often a writer was flushed, counted up to the second time.
#[derive(Clone, Copy)]
pub enum Flushes {
    Never,
    Once,
    /// Twice or more often.
    Often,
}

impl Flushes {
    /// The count after one more flush.
    pub fn once_more(self) -> Flushes
        ensures { result ≡ once_more self }
    {
        match self {
            Flushes::Never => Flushes::Once,
            Flushes::Once | Flushes::Often => Flushes::Often,
        }
    }
}

/// The reader of an input.
pub trait Source {
    // The bytes that are left to read, if this reader makes them known.
    ghost left: { Self → Option (List ℕ) };
    // All bytes that its calls have given so far, known or not.
    ghost given: { Self → List ℕ };
    // Whether the last call has reported the end of the input.
    ghost at_end: { Self → Bool };
    // Whether a call has failed.
    ghost failed: { Self → Bool };

    /// Reads bytes into the beginning of the buffer and returns their number, which is 0 at the end of the input.
    ///
    /// # Errors
    ///
    /// `DeviceError` if the reader fails.
    fn take(&mut self, buffer: &mut [u8]) -> Result<usize, DeviceError>
        ensures count { IfOk result (λ n. n ≤ length buffer.new) }
        ensures bytes { ReadConsumes (left self.old) (left self.new) result buffer.new }
        ensures gives { given self.new ≡ given self.old ++ transferred_bytes result buffer.new }
        ensures ends { (at_end self.new ≡ true) ↔ ReportsEnd result buffer.new }
        ensures fails { failed self.new ≡ (failed self.old || is_err result) };
}

/// The writer of an output.
pub trait Sink {
    // The bytes that were written, if this writer makes them known.
    ghost written: { Self → Option (List ℕ) };
    // All bytes that its calls have taken so far, known or not.
    ghost accepted: { Self → List ℕ };
    // Whether everything that was written has been flushed.
    ghost is_flushed: { Self → Bool };
    // How often the writer was flushed.
    ghost flushes: { Self → Flushes };
    // Whether a call has failed.
    ghost failed: { Self → Bool };

    /// Writes a prefix of the bytes and returns its length, which is at least 1 unless there are no bytes.
    ///
    /// # Errors
    ///
    /// `DeviceError` if the writer fails, or takes none of the bytes.
    fn put(&mut self, bytes: &[u8]) -> Result<usize, DeviceError>
        ensures count { IfOk result (λ n. n ≤ length bytes.now) }
        ensures at_least_one_byte { IfOk result (λ n. 0 < length bytes.now → 0 < n) }
        ensures bytes { WriteAppends (written self.old) (written self.new) result bytes.now }
        ensures accepts { accepted self.new ≡ accepted self.old ++ transferred_bytes result bytes.now }
        ensures held { is_flushed self.new ≡ false }
        ensures flushed { flushes self.new ≡ flushes self.old }
        ensures fails { failed self.new ≡ (failed self.old || is_err result) };

    /// Flushes everything that was written.
    ///
    /// # Errors
    ///
    /// `DeviceError` if the writer fails.
    fn flush(&mut self) -> Result<(), DeviceError>
        ensures bytes { Keeps (written self.old) (written self.new) }
        ensures accepts { accepted self.new ≡ accepted self.old }
        ensures handed { OnOk result (is_flushed self.new ≡ true) }
        ensures flushed { flushes self.new ≡ once_more (flushes self.old) }
        ensures fails { failed self.new ≡ (failed self.old || is_err result) };
}
