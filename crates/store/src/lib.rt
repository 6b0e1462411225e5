//! What a store is asked, what it answers and what it means afterwards.
#![tactic(auto)]

ghost use Rattle.std.specs.Prelude.{◌≡◌, ℕ, Bool, List, [], length};
ghost use Rattle.store.specs.Meaning.{Disk, empty_disk, permitted, with_volume};
ghost use Rattle.store.specs.Live.{generation_of, held_fault, write_fault, resize_fault, read_answer, read_area};
ghost use Rattle.store.specs.Durable.{remove_fault, remove_partition_fault, scan_fault, look_fault, remove_answer, removed, remove_partition_answer, removed_partition, generation_at, generations_in, scan_answer, scan_leaves, look_answer, look_leaves, crash_written, crash_resized};
ghost use Rattle.store.specs.Whole.{open_fault, open_answer, opened, write_answer, wrote, resize_answer, resized, sync_answer, synced, close_answer, closed_disk, restarted};

use arrayvec::ArrayVec;
use content::Patch;
use fault::Fault;
use limits::{FILE_LIMIT, check_look, check_remove, check_remove_partition, check_scan};

pub mod file;
pub mod handle;
pub mod limits;
pub mod medium;
pub mod opening;

/// A store by its meaning: each call's answer, the bytes of its area and the meaning after it are given by a definition.
/// Nothing is demanded of a caller: what a store cannot do it refuses, and a refusal alters nothing, with one exception: a
/// SYNC write whose file is missing keeps its live change. Calls on `&self` leave the meaning as it was.
// A partition and a name, a handle and an offset stay parameters of their own, as docs/BENCH.md has them: a call takes the ones
// that it needs. A write's `sync` is its one bit there too, and an open answers two plain numbers. An area is the caller's, and
// the answer counts its bytes, since no call allocates. `with_volume` is the definitions' word, by which a clause is one equation.
pub trait Store {
    ghost meaning: { Self → Disk };

    /// Makes the store empty, with every count at 0.
    fn reset(&mut self)
        ensures { meaning self.new ≡ empty_disk };

    /// Which fault an open would meet before anything else; like every question it tells none of the faults about a
    /// partition's name, a missing partition or a missing file.
    fn ask_open(&self, partition: &[u8], name: &[u8], header: &[u8]) -> Result<(), Fault>
        ensures { result ≡ permitted (open_fault (meaning self.now) partition.now name.now header.now) };

    /// Which fault a read, a sync or a close would meet before anything else.
    fn ask_handle(&self, handle: u64) -> Result<(), Fault>
        ensures { result ≡ permitted (held_fault (meaning self.now).handles handle) };

    /// Which fault a write of a length would meet before anything else.
    fn ask_write(&self, handle: u64, offset: u64, len: usize) -> Result<(), Fault>
        ensures { result ≡ permitted (write_fault (meaning self.now).handles handle offset len) };

    /// Which fault a resize would meet before anything else.
    fn ask_resize(&self, handle: u64, len: u64) -> Result<(), Fault>
        ensures { result ≡ permitted (resize_fault (meaning self.now).handles handle len) };

    // The next four ask for lengths alone, so they have one body for all stores.

    /// Which fault a removal of a file would meet before anything else.
    fn ask_remove(&self, partition: &[u8], name: &[u8]) -> Result<(), Fault>
        ensures { result ≡ permitted (remove_fault partition.now name.now) }
    {
        check_remove(partition, name)
    }

    /// Which fault a removal of a partition would meet before anything else.
    fn ask_remove_partition(&self, partition: &[u8]) -> Result<(), Fault>
        ensures { result ≡ permitted (remove_partition_fault partition.now) }
    {
        check_remove_partition(partition)
    }

    /// Which fault a scan into an area of a length would meet before anything else.
    fn ask_scan(&self, partition: &[u8], area: usize) -> Result<(), Fault>
        ensures { result ≡ permitted (scan_fault partition.now area) }
    {
        check_scan(partition, area)
    }

    /// Which fault a look into an area of a length would meet before anything else.
    fn ask_look(&self, partition: &[u8], name: &[u8], area: usize) -> Result<(), Fault>
        ensures { result ≡ permitted (look_fault partition.now name.now area) }
    {
        check_look(partition, name, area)
    }

    /// The generation of the file that a handle was opened on, which may be gone.
    fn generation(&self, handle: u64) -> Option<u64>
        ensures { result ≡ generation_of (meaning self.now).handles handle };

    /// The generation that a removal of a file takes.
    fn generation_at(&self, partition: &[u8], name: &[u8]) -> Option<u64>
        ensures { result ≡ generation_at (meaning self.now).volume partition.now name.now };

    /// The generations that a removal of a partition takes.
    fn generations_in(&self, partition: &[u8]) -> ArrayVec<u64, FILE_LIMIT>
        ensures { result.items ≡ generations_in (meaning self.now).volume partition.now };

    /// Opens a file; makes the partition if it is missing, and the file, with this header, if it is missing. Gives the
    /// handle's number and the file's size.
    fn open(&mut self, partition: &[u8], name: &[u8], header: &[u8]) -> Result<(u64, u64), Fault>
        ensures answer { result ≡ open_answer (meaning self.old) partition.now name.now header.now }
        ensures state { meaning self.new ≡ opened (meaning self.old) partition.now name.now header.now };

    /// Copies live bytes into an area, whose length is the read's.
    fn read(&self, handle: u64, offset: u64, area: &mut [u8]) -> Result<(), Fault>
        ensures answer { result ≡ read_answer (meaning self.now).handles handle offset (length area.old) }
        ensures put { area.new ≡ read_area (meaning self.now).handles handle offset area.old };

    /// Writes live bytes, and with `sync` the same durable bytes; where the file is missing the live change remains.
    fn write(&mut self, handle: u64, offset: u64, bytes: &[u8], sync: bool) -> Result<(), Fault>
        ensures answer { result ≡ write_answer (meaning self.old) handle offset bytes.now sync }
        ensures state { meaning self.new ≡ wrote (meaning self.old) handle offset bytes.now sync };

    /// Cuts or zero-fills the live bytes.
    fn resize(&mut self, handle: u64, len: u64) -> Result<(), Fault>
        ensures answer { result ≡ resize_answer (meaning self.old) handle len }
        ensures state { meaning self.new ≡ resized (meaning self.old) handle len };

    /// Makes the durable bytes equal to the live ones.
    fn sync(&mut self, handle: u64) -> Result<(), Fault>
        ensures answer { result ≡ sync_answer (meaning self.old) handle }
        ensures state { meaning self.new ≡ synced (meaning self.old) handle };

    /// Ends a handle.
    fn close(&mut self, handle: u64) -> Result<(), Fault>
        ensures answer { result ≡ close_answer (meaning self.old) handle }
        ensures state { meaning self.new ≡ closed_disk (meaning self.old) handle };

    /// Removes a file; its partition stays.
    fn remove(&mut self, partition: &[u8], name: &[u8]) -> Result<(), Fault>
        ensures answer { result ≡ remove_answer (meaning self.old).volume partition.now name.now }
        ensures state { meaning self.new ≡ with_volume (meaning self.old) (removed (meaning self.old).volume partition.now name.now) };

    /// Removes a partition with its files.
    fn remove_partition(&mut self, partition: &[u8]) -> Result<(), Fault>
        ensures answer { result ≡ remove_partition_answer (meaning self.old).volume partition.now }
        ensures state { meaning self.new ≡ with_volume (meaning self.old) (removed_partition (meaning self.old).volume partition.now) };

    /// Writes the names of a partition's files into an area, in ascending order, each after its length byte; gives how
    /// many bytes that took.
    fn scan(&self, partition: &[u8], area: &mut [u8]) -> Result<usize, Fault>
        ensures answer { result ≡ scan_answer (meaning self.now).volume partition.now (length area.old) }
        ensures put { area.new ≡ scan_leaves (meaning self.now).volume partition.now area.old };

    /// Writes a file's durable bytes into an area; gives how many.
    fn look(&self, partition: &[u8], name: &[u8], area: &mut [u8]) -> Result<usize, Fault>
        ensures answer { result ≡ look_answer (meaning self.now).volume partition.now name.now (length area.old) }
        ensures put { area.new ≡ look_leaves (meaning self.now).volume partition.now name.now area.old };

    /// Stores the bytes of a patch in the durable bytes of a generation's file, if any; where the patch ends past the limit
    /// nothing changes.
    fn crash_write(&mut self, generation: u64, offset: u64, patch: &Patch<'_>)
        ensures { meaning self.new ≡ with_volume (meaning self.old) (crash_written (meaning self.old).volume generation offset patch.now) };

    /// Cuts or zero-fills the durable bytes of a generation's file, if any; past the limit nothing changes.
    fn crash_resize(&mut self, generation: u64, len: u64)
        ensures { meaning self.new ≡ with_volume (meaning self.old) (crash_resized (meaning self.old).volume generation len) };

    /// Ends all handles.
    fn restart(&mut self)
        ensures { meaning self.new ≡ restarted (meaning self.old) };
}
