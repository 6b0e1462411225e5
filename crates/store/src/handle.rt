//! An open handle: what it may be asked, and how its live bytes change.
ghost use Rattle.std.specs.Prelude.{◌≡◌, ◌+◌, ◌^◌, ◌≤◌, length, if◌then◌else◌, Some, None, nat_lt};
ghost use Rattle.content.specs.Bytes.{limit, written, cut};
ghost use Rattle.store.specs.Meaning.{permitted, when_ok, with_live};
ghost use Rattle.store.specs.Live.{end_met, write_met, resize_met, read_of, read_bytes};

use content::{Content, LIMIT};
use fault::Fault;

/// The most bytes of one write.
pub const WRITE_LIMIT: usize = 256;

// Not one struct with `File` and `Opening`: each has other fields beside, and a common part would be one level more in every
// definition.
/// An open handle; its live bytes are its own copy, header included. It keeps the generation and the header length of the
/// file that it was opened on.
#[derive(Clone, Copy, Default)]
pub struct Handle {
    pub number: u64,
    pub generation: u64,
    pub header: usize,
    pub live: Content,
}

impl Handle {
    /// Which limit a write of a length at an offset passes.
    pub fn check_write(&self, offset: u64, len: usize) -> Result<(), Fault>
        ensures { result ≡ permitted (write_met self.now offset len) }
    {
        if len > WRITE_LIMIT {
            return Err(Fault::TooLong);
        }
        self.check_end(offset, len)
    }

    /// Which limit a resize to a length passes.
    pub fn check_resize(&self, len: u64) -> Result<(), Fault>
        ensures { result ≡ permitted (resize_met self.now len) }
    {
        self.check_end(len, 0)
    }

    /// Copies live bytes from an offset into an area, whose length is the read's.
    pub fn read(&self, offset: u64, area: &mut [u8]) -> Result<(), Fault>
        ensures answer { result ≡ read_of self.now offset (length area.old) }
        ensures put { area.new ≡ when_ok result (read_bytes self.now offset (length area.old)) area.old }
    {
        let end = self.end(offset, area.len()).ok_or(Fault::ReadOverflow)?;
        if end > self.live.len() as u64 {
            return Err(Fault::InsufficientLength);
        }
        let at = self.header + offset as usize;
        area.copy_from_slice(&self.live.as_slice()[at..at + area.len()]);
        Ok(())
    }

    // A write and a resize are each one by their own definition; their limits share `check_end`.

    /// Puts bytes at an offset of the live bytes, after zeros where they are shorter.
    pub fn write(&mut self, offset: u64, bytes: &[u8]) -> Result<(), Fault>
        ensures answer { result ≡ permitted (write_met self.old offset (length bytes.now)) }
        ensures state { self.new ≡ when_ok result (with_live self.old (written self.old.live (self.old.header + offset) bytes.now)) self.old }
    {
        self.check_write(offset, bytes.len())?;
        self.live.write(self.header + offset as usize, bytes);
        Ok(())
    }

    /// Cuts or zero-fills the live bytes.
    pub fn resize(&mut self, len: u64) -> Result<(), Fault>
        ensures answer { result ≡ permitted (resize_met self.old len) }
        ensures state { self.new ≡ when_ok result (with_live self.old (cut (self.old.header + len) self.old.live)) self.old }
    {
        self.check_resize(len)?;
        self.live.resize(self.header + len as usize);
        Ok(())
    }

    /// Whether a stretch behind the header ends within a file's limit.
    fn check_end(&self, offset: u64, len: usize) -> Result<(), Fault>
        ensures { result ≡ permitted (end_met (offset + len + self.now.header)) }
    {
        match self.end(offset, len) {
            Some(end) if end <= LIMIT as u64 => Ok(()),
            _ => Err(Fault::NoSpace),
        }
    }

    /// Where a stretch behind the header ends, header counted; none past the largest number.
    // Here and above `as` turns lengths to u64 and back: there is no `From`, and the check proves that nothing is lost.
    fn end(&self, offset: u64, len: usize) -> Option<u64>
        ensures { result ≡ (if nat_lt (offset + len + self.now.header) (2 ^ 64) then Some (offset + len + self.now.header) else None) }
    {
        offset
            .checked_add(len as u64)?
            .checked_add(self.header as u64)
    }
}
