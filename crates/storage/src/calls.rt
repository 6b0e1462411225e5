//! The calls of a store, each handed to the table of handles or to the medium.
ghost use Rattle.std.specs.Prelude.{◌≡◌, None};
ghost use Rattle.store.specs.Meaning.{empty_disk};
ghost use Rattle.store.specs.Whole.{open_fault, open_answer, opened};

use arrayvec::ArrayVec;
use content::Patch;
use fault::Fault;
use handles::Handles;
use std::marker::Model;
use store::Store;
use store::limits::{FILE_LIMIT, check_open};
use store::medium::Medium;

/// A medium with the handles held on it, seen as the store that they make.
#[derive(Drop)]
pub struct Storage<M: Medium> {
    medium: M,
    handles: Handles,
    generations: u64,
}

impl<M: Medium> Model for Storage<M> {
    ghost use Rattle.std.specs.Prelude.{◌≤◌};
    ghost use Rattle.store.specs.Meaning.{Disk};

    ghost Value = { Disk };

    ghost view = { λ s. record { volume = M.volume s.medium; handles = s.handles.handles; generations = s.generations; issued = s.handles.issued } };

    ghost invariant = { λ s. s.generations ≤ s.handles.issued };
}

impl<M: Medium> Storage<M> {
    /// An empty store on a medium, whatever the medium held.
    pub fn new(mut medium: M) -> Self
        ensures { result ≡ empty_disk }
    {
        medium.reset();
        Storage {
            medium,
            handles: Handles::new(),
            generations: 0,
        }
    }

    /// An open that meets none of the faults of its question.
    fn place(&mut self, partition: &[u8], name: &[u8], header: &[u8]) -> Result<(u64, u64), Fault>
        requires { open_fault self.old partition.now name.now header.now ≡ None }
        ensures answer { result ≡ open_answer self.old partition.now name.now header.now }
        ensures state { self.new ≡ opened self.old partition.now name.now header.now }
    {
        let stands = self.medium.stands(partition, name);
        let opening = self
            .medium
            .place(partition, name, header, self.generations)?;
        let size = opening.size();
        let number = self.handles.open(opening)?;
        if !stands {
            self.generations += 1;
        }
        Ok((number, size))
    }
}

// A call that one half alone answers is handed on to it: the halves have traits of their own, so each call is written out. Areas
// are the caller's, as in the traits.
impl<M: Medium> Store for Storage<M> {
    ghost meaning = { λ s. s };

    fn reset(&mut self) {
        self.medium.reset();
        self.handles.reset();
        self.generations = 0;
    }

    fn ask_open(&self, partition: &[u8], name: &[u8], header: &[u8]) -> Result<(), Fault> {
        check_open(partition, name, header)?;
        if self.handles.is_full() || self.medium.is_crowded(partition, name) {
            return Err(Fault::TableFull);
        }
        Ok(())
    }

    fn ask_handle(&self, handle: u64) -> Result<(), Fault> {
        self.handles.ask(handle)
    }

    fn ask_write(&self, handle: u64, offset: u64, len: usize) -> Result<(), Fault> {
        self.handles.ask_write(handle, offset, len)
    }

    fn ask_resize(&self, handle: u64, len: u64) -> Result<(), Fault> {
        self.handles.ask_resize(handle, len)
    }

    fn generation(&self, handle: u64) -> Option<u64> {
        self.handles.generation(handle)
    }

    fn generation_at(&self, partition: &[u8], name: &[u8]) -> Option<u64> {
        self.medium.generation_at(partition, name)
    }

    fn generations_in(&self, partition: &[u8]) -> ArrayVec<u64, FILE_LIMIT> {
        self.medium.generations_in(partition)
    }

    fn open(&mut self, partition: &[u8], name: &[u8], header: &[u8]) -> Result<(u64, u64), Fault> {
        self.ask_open(partition, name, header)?;
        self.place(partition, name, header)
    }

    fn read(&self, handle: u64, offset: u64, area: &mut [u8]) -> Result<(), Fault> {
        self.handles.read(handle, offset, area)
    }

    fn write(&mut self, handle: u64, offset: u64, bytes: &[u8], sync: bool) -> Result<(), Fault> {
        let held = self.handles.seek(handle)?;
        let (generation, header) = (held.generation, held.header);
        self.handles.write(handle, offset, bytes)?;
        if sync {
            // no `From` between these; the cast is proved to lose nothing
            self.medium
                .write(generation, header + offset as usize, bytes)?;
        }
        Ok(())
    }

    fn resize(&mut self, handle: u64, len: u64) -> Result<(), Fault> {
        self.handles.resize(handle, len)
    }

    fn sync(&mut self, handle: u64) -> Result<(), Fault> {
        let handle = self.handles.seek(handle)?;
        self.medium.replace(handle.generation, &handle.live)
    }

    fn close(&mut self, handle: u64) -> Result<(), Fault> {
        self.handles.close(handle)
    }

    fn remove(&mut self, partition: &[u8], name: &[u8]) -> Result<(), Fault> {
        self.medium.remove(partition, name)
    }

    fn remove_partition(&mut self, partition: &[u8]) -> Result<(), Fault> {
        self.medium.remove_partition(partition)
    }

    fn scan(&self, partition: &[u8], area: &mut [u8]) -> Result<usize, Fault> {
        self.medium.scan(partition, area)
    }

    fn look(&self, partition: &[u8], name: &[u8], area: &mut [u8]) -> Result<usize, Fault> {
        self.medium.look(partition, name, area)
    }

    fn crash_write(&mut self, generation: u64, offset: u64, patch: &Patch<'_>) {
        self.medium.crash_write(generation, offset, patch);
    }

    fn crash_resize(&mut self, generation: u64, len: u64) {
        self.medium.crash_resize(generation, len);
    }

    fn restart(&mut self) {
        self.handles.restart();
    }
}
