//! The durable half of a store.
ghost use Rattle.std.specs.Prelude.{◌≡◌, ℕ, cond, List, length};
ghost use Rattle.content.specs.Bytes.{within, limit};
ghost use Rattle.store.specs.Meaning.{Volume, empty_volume, when_ok};
ghost use Rattle.store.specs.Durable.{crowded, file_stands, place_answer, opened_volume, remove_answer, removed, remove_partition_answer, removed_partition, generation_at, generations_in, scan_answer, scan_leaves, look_answer, look_leaves, keep_answer, durable_written, durable_replaced, crash_written, crash_resized};
ghost use Rattle.store.specs.Held.{kept_within};

use super::limits::FILE_LIMIT;
use super::opening::Opening;
use arrayvec::ArrayVec;
use content::{Content, Patch};
use fault::Fault;

/// What a restart leaves: partitions and files, on some medium. Under a table of handles it makes a store.
// The parts of a call are those of `Store`: it takes the ones that it needs. `when_ok` is the definitions' word for a call that
// changes nothing where it fails. Areas are the caller's, as there.
pub trait Medium {
    ghost volume: { Self → Volume };

    /// Removes every partition and file.
    fn reset(&mut self)
        ensures { volume self.new ≡ empty_volume };

    /// Whether there is no room for a partition or a file that is absent.
    fn is_crowded(&self, partition: &[u8], name: &[u8]) -> bool
        ensures { result ≡ crowded (volume self.now) partition.now name.now };

    /// Whether a file of this name stands.
    fn stands(&self, partition: &[u8], name: &[u8]) -> bool
        ensures { result ≡ file_stands (volume self.now) partition.now name.now };

    /// Finds a file, or makes it with this header and generation; gives what a handle takes from it.
    fn place(
        &mut self,
        partition: &[u8],
        name: &[u8],
        header: &[u8],
        generation: u64,
    ) -> Result<Opening, Fault>
        ensures answer { result ≡ place_answer (volume self.old) partition.now name.now header.now generation }
        ensures state { volume self.new ≡ when_ok result (opened_volume (volume self.old) partition.now name.now header.now generation) (volume self.old) };

    /// Writes durable bytes of a generation's file from a place on. Past the limit the answer is the same and nothing
    /// changes; no store asks for that.
    fn write(&mut self, generation: u64, at: usize, bytes: &[u8]) -> Result<(), Fault>
        ensures answer { result ≡ keep_answer (volume self.old) generation }
        ensures state { volume self.new ≡ kept_within (volume self.old) generation at bytes.now };

    /// Other durable bytes for a generation's file.
    fn replace(&mut self, generation: u64, live: &Content) -> Result<(), Fault>
        ensures answer { result ≡ keep_answer (volume self.old) generation }
        ensures state { volume self.new ≡ durable_replaced (volume self.old) generation live.now };

    /// Removes a file; its partition stays.
    fn remove(&mut self, partition: &[u8], name: &[u8]) -> Result<(), Fault>
        ensures answer { result ≡ remove_answer (volume self.old) partition.now name.now }
        ensures state { volume self.new ≡ removed (volume self.old) partition.now name.now };

    /// Removes a partition with its files.
    fn remove_partition(&mut self, partition: &[u8]) -> Result<(), Fault>
        ensures answer { result ≡ remove_partition_answer (volume self.old) partition.now }
        ensures state { volume self.new ≡ removed_partition (volume self.old) partition.now };

    /// The generation that a removal of a file takes.
    fn generation_at(&self, partition: &[u8], name: &[u8]) -> Option<u64>
        ensures { result ≡ generation_at (volume self.now) partition.now name.now };

    /// The generations that a removal of a partition takes.
    fn generations_in(&self, partition: &[u8]) -> ArrayVec<u64, FILE_LIMIT>
        ensures { result.items ≡ generations_in (volume self.now) partition.now };

    /// Writes the names of a partition's files into an area.
    fn scan(&self, partition: &[u8], area: &mut [u8]) -> Result<usize, Fault>
        ensures answer { result ≡ scan_answer (volume self.now) partition.now (length area.old) }
        ensures put { area.new ≡ scan_leaves (volume self.now) partition.now area.old };

    /// Writes a file's durable bytes into an area.
    fn look(&self, partition: &[u8], name: &[u8], area: &mut [u8]) -> Result<usize, Fault>
        ensures answer { result ≡ look_answer (volume self.now) partition.now name.now (length area.old) }
        ensures put { area.new ≡ look_leaves (volume self.now) partition.now name.now area.old };

    /// Stores the bytes of a patch in the durable bytes of a generation's file, if any.
    fn crash_write(&mut self, generation: u64, offset: u64, patch: &Patch<'_>)
        ensures { volume self.new ≡ crash_written (volume self.old) generation offset patch.now };

    /// Cuts or zero-fills the durable bytes of a generation's file, if any.
    fn crash_resize(&mut self, generation: u64, len: u64)
        ensures { volume self.new ≡ crash_resized (volume self.old) generation len };
}
