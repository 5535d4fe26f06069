//! Wrappers of std's readers and writers that remember whether a call has failed and, only in contracts, the bytes of
//! the calls.

ghost use Rattle.std.specs.Prelude.{◌≡◌, ◌↔◌, ◌<◌, ℕ, List, [], ◌++◌, true, false};
ghost use Rattle.std.specs.Borrow.{ftrue};
ghost use Rattle.trlab_campaign.specs.declared.device.Flushes.TheVariants.{Never};

use crate::device::{DeviceError, Flushes, Sink, Source};
use std::io::{Read, Write};
use std::marker::Model;

/// All bytes of some calls, one after another. Only contracts read them: a transcript takes no memory, and its
/// methods do nothing at run time.
#[derive(Drop)]
struct Transcript {
    ghost bytes: { List ℕ },
}

impl Model for Transcript {
    ghost also_owns = { λ _. ftrue };
}

impl Transcript {
    /// An empty transcript.
    fn new() -> Transcript
        ensures { result.bytes ≡ [] }
    {
        Transcript {}
    }

    /// Adds the bytes of a call.
    fn add(&mut self, _bytes: &[u8])
        ensures { self.new.bytes ≡ self.old.bytes ++ _bytes.now }
    {}
}

/// Whether a call that gave `count` bytes to a buffer of the size `room` has reported the end of the input.
fn reports_end(count: usize, room: usize) -> bool
    ensures { (result ≡ true) ↔ ((count ≡ 0) × (0 < room)) }
{
    count == 0 && room > 0
}

/// A std reader or writer as a `Source` or `Sink`. It remembers whether a call has failed, whether the last read has
/// reported the end of the input, whether everything written was flushed, and how often it was flushed. In contracts it
/// also remembers the bytes that it gave or took.
#[derive(Drop)]
pub struct Watched<X> {
    inner: X,
    /// Whether a call has failed.
    failed: bool,
    /// Whether the last read has reported the end of the input.
    at_end: bool,
    given: Transcript,
    accepted: Transcript,
    /// Whether everything that was written has been flushed.
    is_flushed: bool,
    flushes: Flushes,
}

impl<X> Watched<X> {
    ghost use Rattle.trlab_campaign.specs.Writers.{inner_device, has_failed, is_at_end};
    ghost use Rattle.trlab_campaign.specs.Writers.{given_bytes, accepted_bytes, flush_count};

    /// Wraps a reader or writer. The wrapper starts without a failure, a flush or transferred bytes.
    pub fn new(inner: X) -> Watched<X>
        ensures inner { inner_device result ≡ inner }
        ensures fresh { has_failed result ≡ false }
        ensures begins { is_at_end result ≡ false }
        ensures none_given { given_bytes result ≡ [] }
        ensures none_accepted { accepted_bytes result ≡ [] }
        ensures unflushed { flush_count result ≡ Never }
    {
        Watched {
            inner,
            failed: false,
            at_end: false,
            given: Transcript::new(),
            accepted: Transcript::new(),
            is_flushed: false,
            flushes: Flushes::Never,
        }
    }
}

impl<X: Read> Source for Watched<X> {
    ghost use Rattle.trlab_campaign.specs.Writers.{inner_device, has_failed, is_at_end, given_bytes};

    ghost left = { λ watched. X.remaining (inner_device watched) };

    ghost given = { given_bytes };

    ghost at_end = { is_at_end };

    ghost failed = { has_failed };

    fn take(&mut self, buffer: &mut [u8]) -> Result<usize, DeviceError> {
        match self.inner.read(buffer) {
            Ok(count) => {
                self.given.add(&buffer[..count]);
                self.at_end = reports_end(count, buffer.len());
                Ok(count)
            }
            Err(_) => {
                self.at_end = false;
                self.failed = true;
                Err(DeviceError)
            }
        }
    }
}

impl<X: Write> Sink for Watched<X> {
    ghost use Rattle.trlab_campaign.specs.Writers.{inner_device, has_failed, has_flushed_all, accepted_bytes, flush_count};

    ghost written = { λ watched. X.contents (inner_device watched) };

    ghost accepted = { accepted_bytes };

    ghost is_flushed = { has_flushed_all };

    ghost flushes = { flush_count };

    ghost failed = { has_failed };

    fn put(&mut self, bytes: &[u8]) -> Result<usize, DeviceError> {
        self.is_flushed = false;
        match self.inner.write(bytes) {
            Ok(count) => {
                // Without this error, `write_text` would loop forever if the writer takes no bytes.
                if count == 0 && !bytes.is_empty() {
                    self.failed = true;
                    return Err(DeviceError);
                }
                self.accepted.add(&bytes[..count]);
                Ok(count)
            }
            Err(_) => {
                self.failed = true;
                Err(DeviceError)
            }
        }
    }

    fn flush(&mut self) -> Result<(), DeviceError> {
        self.flushes = self.flushes.once_more();
        match self.inner.flush() {
            Ok(()) => {
                self.is_flushed = true;
                Ok(())
            }
            Err(_) => {
                self.failed = true;
                Err(DeviceError)
            }
        }
    }
}
