//! The medium over the partitions and files in memory.
ghost use Rattle.std.specs.Prelude.{◌≡◌, ◌≤◌, false, not, [], ◌∷◌, ◌++◌, length, take, filter, if◌then◌else◌, Ok};
ghost use Rattle.name.specs.Listings.{first};
ghost use Rattle.store.specs.Meaning.{with_files};
ghost use Rattle.store.specs.Durable.{keep_answer, crash_written, crash_resized, in_partition, partition_stands, name_too_long, open_too_long, opened_file, opening_of, new_file, file_stands};
ghost use Rattle.std.specs.Fn.{FnOnceReturnsAtMut};
ghost use Rattle.memory.specs.Changes.{IsChanged};
ghost use Rattle.memory.specs.Seeks.{with_partitions, partition_crowded, file_crowded};

use super::seeks::Memory;
use arrayvec::ArrayVec;
use content::{Content, Patch};
use fault::Fault;
use name::{Name, is_partition};
use store::file::File;
use store::limits::{
    FILE_LIMIT, check_look, check_open, check_remove, check_remove_partition, check_scan,
};
use store::medium::Medium;
use store::opening::Opening;

// A partition is one name, a file a record with a header, so each is made by a function of its own.
impl Memory {
    /// Makes a partition, if it is absent; a `Result` for the `?` of its name, which never fails here.
    fn make_partition(&mut self, partition: &[u8]) -> Result<(), Fault>
        requires short { name_too_long partition.now ≡ false }
        requires room { partition_crowded self.old partition.now ≡ false }
        ensures made { result ≡ Ok tt }
        ensures state { self.new ≡ with_partitions self.old (if partition_stands self.old partition.now then self.old.partitions else self.old.partitions ++ (partition.now ∷ [])) }
    {
        if !self.has_partition(partition) {
            self.partitions.push(Name::try_from(partition)?);
        }
        Ok(())
    }

    /// What a handle takes from a file, which is made with this header and generation if it is absent; no `?` fails here.
    fn open_file(
        &mut self,
        partition: &[u8],
        name: &[u8],
        header: &[u8],
        generation: u64,
    ) -> Result<Opening, Fault>
        requires short { open_too_long partition.now name.now header.now ≡ false }
        requires room { file_crowded self.old partition.now name.now ≡ false }
        ensures it { result ≡ Ok (opening_of (opened_file self.old partition.now name.now header.now generation)) }
        ensures state { self.new ≡ with_files self.old (if file_stands self.old partition.now name.now then self.old.files else self.old.files ++ (new_file partition.now name.now header.now generation ∷ [])) }
    {
        if let Some(file) = self.get(partition, name) {
            return Ok(file.opening());
        }
        let file = File::new(partition, name, header, generation)?;
        let opening = file.opening();
        self.files.push(file);
        Ok(opening)
    }

    /// Removes the files of a partition.
    fn remove_files_in(&mut self, partition: &[u8])
        ensures { self.new ≡ with_files self.old (filter (λ f. not (in_partition partition.now f)) self.old.files) }
    {
        let count = self.files.count;
        let files = &mut self.files;
        let others = keep_others(&mut files.rows[..count], partition);
        files.count = others;
    }

    /// Changes the file of a generation, if it stands.
    fn change<F: FnOnce(&mut File)>(&mut self, generation: u64, change: F) -> Result<(), Fault>
        requires { F.IsAlwaysCallable change }
        ensures answer { result ≡ keep_answer self.old generation }
        ensures state { IsChanged (FnOnceReturnsAtMut F.FnOnce change) self.old generation self.new }
    {
        let i = self.find_generation(generation).ok_or(Fault::BlobMissing)?;
        let files = &mut self.files;
        change(&mut files.rows[i]);
        Ok(())
    }
}

// What a crash keeps, in functions of their own, so that a wrong generation or place is refused by what they say.
impl Memory {
    /// Stores a patch in the file of a generation, if it stands.
    // No closure as in the other changes: a caller learns nothing of one that captures a patch.
    fn lay(&mut self, generation: u64, offset: u64, patch: &Patch<'_>)
        ensures { self.new ≡ crash_written self.old generation offset patch.now }
    {
        if let Some(i) = self.find_generation(generation) {
            let files = &mut self.files;
            files.rows[i].lay(offset, patch);
        }
    }

    /// Cuts or zero-fills the file of a generation, if it stands.
    fn cut(&mut self, generation: u64, len: u64)
        ensures { self.new ≡ crash_resized self.old generation len }
    {
        let _found = self.change(generation, |file| file.resize(len));
    }
}

/// Moves the files of other partitions to the front, in their order, and gives how many they are.
fn keep_others(files: &mut [File], partition: &[u8]) -> usize
    ensures few { result ≤ length files.old }
    ensures front { take result files.new ≡ filter (λ f. not (in_partition partition.now f)) files.old }
{
    let mut others = 0;
    for i in 0..files.len() {
        let file = files[i];
        if file.is_outside(partition) {
            files[others] = file;
            others += 1;
        }
    }
    others
}

/// Puts some bytes first in an area and gives how many; the rest of the area stays.
// The area is the caller's and the answer counts its bytes: no call allocates.
fn put_first(area: &mut [u8], bytes: &[u8]) -> usize
    requires { length bytes.now ≤ length area.old }
    ensures count { result ≡ length bytes.now }
    ensures put { area.new ≡ first bytes.now area.old }
{
    let len = bytes.len();
    area[..len].copy_from_slice(bytes);
    len
}

// `is_crowded` and `stands` hand on, since the trait asks for them.
impl Medium for Memory {
    ghost volume = { λ m. m };

    fn reset(&mut self) {
        self.partitions.clear();
        self.files.clear();
    }

    fn is_crowded(&self, partition: &[u8], name: &[u8]) -> bool {
        self.lacks_room(partition, name)
    }

    fn stands(&self, partition: &[u8], name: &[u8]) -> bool {
        self.get(partition, name).is_some()
    }

    fn place(
        &mut self,
        partition: &[u8],
        name: &[u8],
        header: &[u8],
        generation: u64,
    ) -> Result<Opening, Fault> {
        check_open(partition, name, header)?;
        if self.lacks_room(partition, name) {
            return Err(Fault::TableFull);
        }
        if !is_partition(partition) {
            return Err(Fault::BadPartition);
        }
        self.make_partition(partition)?;
        self.open_file(partition, name, header, generation)
    }

    fn write(&mut self, generation: u64, at: usize, bytes: &[u8]) -> Result<(), Fault> {
        self.change(generation, |file| file.write(at, bytes))
    }

    fn replace(&mut self, generation: u64, live: &Content) -> Result<(), Fault> {
        self.change(generation, |file| file.replace(live))
    }

    fn remove(&mut self, partition: &[u8], name: &[u8]) -> Result<(), Fault> {
        check_remove(partition, name)?;
        let i = self.seek(partition, name)?;
        self.files.remove(i);
        Ok(())
    }

    #[tactic(auto, using(crate::proofs::Standing::missing))]
    fn remove_partition(&mut self, partition: &[u8]) -> Result<(), Fault> {
        check_remove_partition(partition)?;
        let i = self.seek_partition(partition)?;
        self.partitions.remove(i);
        self.remove_files_in(partition);
        Ok(())
    }

    fn generation_at(&self, partition: &[u8], name: &[u8]) -> Option<u64> {
        self.get(partition, name).map(|file| file.generation)
    }

    #[tactic(auto, using(crate::proofs::Kept::kept_row))]
    fn generations_in(&self, partition: &[u8]) -> ArrayVec<u64, FILE_LIMIT> {
        let mut taken = ArrayVec::new();
        for file in self.files.as_slice() {
            if file.is_in(partition) {
                taken.push(file.generation);
            }
        }
        taken
    }

    #[tactic(auto, using(crate::proofs::Standing::missing))]
    fn scan(&self, partition: &[u8], area: &mut [u8]) -> Result<usize, Fault> {
        check_scan(partition, area.len())?;
        self.seek_partition(partition)?;
        self.names_in(partition).write(area)
    }

    fn look(&self, partition: &[u8], name: &[u8], area: &mut [u8]) -> Result<usize, Fault> {
        check_look(partition, name, area.len())?;
        let i = self.seek(partition, name)?;
        Ok(put_first(area, self.files.as_slice()[i].durable.as_slice()))
    }

    fn crash_write(&mut self, generation: u64, offset: u64, patch: &Patch<'_>) {
        self.lay(generation, offset, patch);
    }

    fn crash_resize(&mut self, generation: u64, len: u64) {
        self.cut(generation, len);
    }
}
