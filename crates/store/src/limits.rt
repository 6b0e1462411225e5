//! The faults that depend on the lengths of a call's parts alone.
ghost use Rattle.std.specs.Prelude.{◌≡◌, if◌then◌else◌, Some, None};
ghost use Rattle.fault.specs.declared.Fault.TheVariants.{TooLong};
ghost use Rattle.store.specs.Meaning.{permitted};
ghost use Rattle.store.specs.Durable.{name_too_long, open_too_long, remove_fault, remove_partition_fault, scan_fault, look_fault};

use content::LIMIT;
use fault::Fault;
use name::{NAME_LIMIT, SCAN_AREA};

/// The most partitions of a store.
pub const PARTITION_LIMIT: usize = 4;

/// The most files of a store.
pub const FILE_LIMIT: usize = 8;

/// The most bytes of a header.
pub const HEADER_LIMIT: usize = 64;

/// Whether a partition or a name has over 16 bytes.
pub fn name_too_long(name: &[u8]) -> bool
    ensures { result ≡ name_too_long name.now }
{
    name.len() > NAME_LIMIT
}

/// Whether a part of an open is too long.
pub fn open_too_long(partition: &[u8], name: &[u8], header: &[u8]) -> bool
    ensures { result ≡ open_too_long partition.now name.now header.now }
{
    name_too_long(partition) || name_too_long(name) || header.len() > HEADER_LIMIT
}

// One function for each call, since each takes other parts; what two calls share, one asks of the other.

/// Which fault an open meets by lengths.
pub fn check_open(partition: &[u8], name: &[u8], header: &[u8]) -> Result<(), Fault>
    ensures { result ≡ permitted (if open_too_long partition.now name.now header.now then Some TooLong else None) }
{
    if open_too_long(partition, name, header) {
        return Err(Fault::TooLong);
    }
    Ok(())
}

/// Which fault a removal of a file meets by lengths.
pub fn check_remove(partition: &[u8], name: &[u8]) -> Result<(), Fault>
    ensures { result ≡ permitted (remove_fault partition.now name.now) }
{
    if name_too_long(partition) || name_too_long(name) {
        return Err(Fault::TooLong);
    }
    Ok(())
}

/// Which fault a removal of a partition meets by lengths.
pub fn check_remove_partition(partition: &[u8]) -> Result<(), Fault>
    ensures { result ≡ permitted (remove_partition_fault partition.now) }
{
    if name_too_long(partition) {
        return Err(Fault::TooLong);
    }
    Ok(())
}

/// Which fault a scan meets by lengths.
pub fn check_scan(partition: &[u8], area: usize) -> Result<(), Fault>
    ensures { result ≡ permitted (scan_fault partition.now area) }
{
    check_remove_partition(partition)?;
    if area < SCAN_AREA {
        return Err(Fault::ShortArea);
    }
    Ok(())
}

/// Which fault a look meets by lengths.
pub fn check_look(partition: &[u8], name: &[u8], area: usize) -> Result<(), Fault>
    ensures { result ≡ permitted (look_fault partition.now name.now area) }
{
    check_remove(partition, name)?;
    if area < LIMIT {
        return Err(Fault::ShortArea);
    }
    Ok(())
}
