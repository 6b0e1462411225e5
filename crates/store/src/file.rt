//! A file: what it may be asked, and how its durable bytes change.
ghost use Rattle.std.specs.Prelude.{◌≡◌, ◌+◌, ◌≤◌, not, ◌&&◌, length, if◌then◌else◌, Ok, Err, nat_lt};
ghost use Rattle.fault.specs.declared.Fault.TheVariants.{TooLong};
ghost use Rattle.content.specs.Bytes.{limit, within, written};
ghost use Rattle.name.specs.Listings.{placed};
ghost use Rattle.store.specs.Meaning.{with_durable};
ghost use Rattle.store.specs.Durable.{in_partition, named, new_file, opening_of, open_too_long, file_laid, file_cut};

use super::limits::check_open;
use super::opening::Opening;
use content::{Content, Patch};
use fault::Fault;
use name::{Listing, Name};

/// A file; its durable bytes begin with a header, whose length is fixed when the file is made. Its generation tells it from
/// every other file ever made: a file made again under the same name has another one.
#[derive(Clone, Copy, Default)]
pub struct File {
    pub partition: Name,
    pub name: Name,
    pub generation: u64,
    pub header: usize,
    pub durable: Content,
}

// The tests and changes have the names of their definitions, and each is one by its own.
impl File {
    /// A new file, whose bytes are its header; a part that is too long is refused.
    pub fn new(partition: &[u8], name: &[u8], header: &[u8], generation: u64) -> Result<Self, Fault>
        ensures { result ≡ (if open_too_long partition.now name.now header.now then Err TooLong else Ok (new_file partition.now name.now header.now generation)) }
    {
        check_open(partition, name, header)?;
        let mut durable = Content::new();
        durable.replace(header);
        Ok(File {
            partition: Name::try_from(partition)?,
            name: Name::try_from(name)?,
            generation,
            header: header.len(),
            durable,
        })
    }

    /// What a handle takes from the file.
    pub fn opening(&self) -> Opening
        ensures { result ≡ opening_of self.now }
    {
        Opening {
            generation: self.generation,
            header: self.header,
            live: self.durable,
        }
    }

    /// Whether the file stands in a partition.
    pub fn is_in(&self, partition: &[u8]) -> bool
        ensures { result ≡ in_partition partition.now self.now }
    {
        self.partition.as_slice() == partition
    }

    /// Whether the file stands in another partition.
    pub fn is_outside(&self, partition: &[u8]) -> bool
        ensures { result ≡ not (in_partition partition.now self.now) }
    {
        !self.is_in(partition)
    }

    /// Whether the file has a name in a partition.
    pub fn is_named(&self, partition: &[u8], name: &[u8]) -> bool
        ensures { result ≡ named partition.now name.now self.now }
    {
        self.is_in(partition) && self.name.as_slice() == name
    }

    /// Puts the file's name in its place among some names, if the file stands in a partition; a ninth changes nothing.
    pub fn list(&self, partition: &[u8], names: &mut Listing)
        ensures { names.new ≡ (if in_partition partition.now self.now && nat_lt (length names.old) 8 then placed self.now.name names.old else names.old) }
    {
        if self.is_in(partition) {
            names.insert(self.name);
        }
    }

    /// Writes durable bytes from a place on; past the limit nothing changes.
    pub fn write(&mut self, at: usize, bytes: &[u8])
        ensures { self.new ≡ with_durable self.old (within (at + length bytes.now) (written self.old.durable at bytes.now) self.old.durable) }
    {
        self.durable.write(at, bytes);
    }

    /// Other durable bytes.
    pub fn replace(&mut self, live: &Content)
        ensures { self.new ≡ with_durable self.old live.now }
    {
        self.durable.copy_from(live);
    }

    /// Stores the bytes of a patch from an offset on; past the limit nothing changes.
    pub fn lay(&mut self, offset: u64, patch: &Patch<'_>)
        ensures { self.new ≡ file_laid self.old offset patch.now }
    {
        let at = self.place(offset);
        self.durable.lay(at, patch);
    }

    /// Cuts or zero-fills what comes after the header to a length; past the limit nothing changes.
    pub fn resize(&mut self, len: u64)
        ensures { self.new ≡ file_cut self.old len }
    {
        let end = self.place(len);
        self.durable.resize(end);
    }

    /// The place in the durable bytes of an offset, which counts from the end of the header. A sum past the largest number
    /// gives that number, which is past the limit too.
    fn place(&self, offset: u64) -> usize
        ensures within { result ≤ limit → result ≡ self.now.header + offset }
        ensures reached { self.now.header + offset ≤ limit → result ≡ self.now.header + offset }
    {
        // no `From` between these; the cast is proved to lose nothing
        self.header.saturating_add(offset as usize)
    }
}
