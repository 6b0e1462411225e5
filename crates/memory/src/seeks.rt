//! Partitions and files in memory, and which of them a call names.
ghost use Rattle.std.specs.Prelude.{◌≡◌, map, filter};
ghost use Rattle.std.specs.List.{position};
ghost use Rattle.std.specs.Option.{option_map};
ghost use Rattle.std.specs.Str.{bytes_eq};
ghost use Rattle.name.specs.Listings.{sorted};
ghost use Rattle.store.specs.Meaning.{empty_volume};
ghost use Rattle.store.specs.Durable.{named, generated, file_at, in_partition, partition_stands, crowded};
ghost use Rattle.memory.specs.Seeks.{partition_place, file_place, partition_crowded, file_crowded};

use fault::Fault;
use name::{Listing, Name, is_partition};
use std::marker::Model;
use store::file::File;
use store::limits::{FILE_LIMIT, PARTITION_LIMIT};
use table::Table;

/// Partitions and files, each in the order of their making.
#[derive(Drop)]
pub struct Memory {
    pub(crate) partitions: Table<Name, PARTITION_LIMIT>,
    pub(crate) files: Table<File, FILE_LIMIT>,
}

impl Model for Memory {
    ghost use Rattle.std.specs.Prelude.{take};
    ghost use Rattle.store.specs.Meaning.{Volume};

    ghost Value = { Volume };

    ghost view = { λ m. record { partitions = take m.partitions.count m.partitions.rows; files = take m.files.count m.files.rows } };
}

// A partition is one name in one table, a file two names in another: their searches share `position`, and no more. They give a
// place and no reference, since a removal needs the table.
impl Memory {
    /// No partition and no file.
    // No `Default` beside it: nothing asks for one.
    pub fn new() -> Self
        ensures { result ≡ empty_volume }
    {
        Memory {
            partitions: Table::new(),
            files: Table::new(),
        }
    }

    /// The place of a partition.
    fn find_partition(&self, partition: &[u8]) -> Option<usize>
        ensures { result ≡ position (λ q. bytes_eq q partition.now) self.now.partitions }
    {
        self.partitions
            .as_slice()
            .iter()
            .position(|name| name.as_slice() == partition)
    }

    /// The place of the file of a name.
    fn find(&self, partition: &[u8], name: &[u8]) -> Option<usize>
        ensures { result ≡ position (named partition.now name.now) self.now.files }
    {
        self.files
            .as_slice()
            .iter()
            .position(|file| file.is_named(partition, name))
    }

    /// The place of the file of a generation.
    pub(crate) fn find_generation(&self, generation: u64) -> Option<usize>
        ensures { result ≡ position (generated generation) self.now.files }
    {
        self.files
            .as_slice()
            .iter()
            .position(|file| file.generation == generation)
    }

    /// The file of a name; `find` gives its place, for what changes the table.
    pub(crate) fn get(&self, partition: &[u8], name: &[u8]) -> Option<&File>
        ensures { option_map (λ f. f.now) result ≡ file_at self.now partition.now name.now }
    {
        self.files
            .as_slice()
            .iter()
            .find(|file| file.is_named(partition, name))
    }

    /// Whether a partition stands.
    #[tactic(auto, using(store::proofs::Finds::position_found))]
    pub(crate) fn has_partition(&self, partition: &[u8]) -> bool
        ensures { result ≡ partition_stands self.now partition.now }
    {
        self.find_partition(partition).is_some()
    }

    /// Whether a partition is absent and there is no room for it.
    fn lacks_partition(&self, partition: &[u8]) -> bool
        ensures { result ≡ partition_crowded self.now partition.now }
    {
        !self.has_partition(partition) && self.partitions.is_full()
    }

    /// Whether a file is absent and there is no room for it.
    fn lacks_file(&self, partition: &[u8], name: &[u8]) -> bool
        ensures { result ≡ file_crowded self.now partition.now name.now }
    {
        self.get(partition, name).is_none() && self.files.is_full()
    }

    /// Whether there is no room for a partition or a file that is absent.
    pub(crate) fn lacks_room(&self, partition: &[u8], name: &[u8]) -> bool
        ensures { result ≡ crowded self.now partition.now name.now }
    {
        self.lacks_partition(partition) || self.lacks_file(partition, name)
    }

    /// The place of a partition that a call names.
    #[tactic(auto, using(store::proofs::Finds::position_found))]
    pub(crate) fn seek_partition(&self, partition: &[u8]) -> Result<usize, Fault>
        ensures { result ≡ partition_place self.now partition.now }
    {
        if !is_partition(partition) {
            return Err(Fault::BadPartition);
        }
        self.find_partition(partition)
            .ok_or(Fault::PartitionMissing)
    }

    /// The place of a file that a call names.
    pub(crate) fn seek(&self, partition: &[u8], name: &[u8]) -> Result<usize, Fault>
        ensures { result ≡ file_place self.now partition.now name.now }
    {
        self.seek_partition(partition)?;
        self.find(partition, name).ok_or(Fault::BlobMissing)
    }

    /// The names of a partition's files, in ascending order.
    // A loop of its own beside `generations_in`, which gathers in the order of making.
    pub(crate) fn names_in(&self, partition: &[u8]) -> Listing
        ensures { result ≡ sorted (map (λ f. f.name) (filter (in_partition partition.now) self.now.files)) }
    {
        let mut names = Listing::new();
        for file in self.files.as_slice() {
            file.list(partition, &mut names);
        }
        names
    }
}
