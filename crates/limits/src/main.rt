//! Calls on the memory store at every limit, and a line with the answer of each. The file `stdout` has what it must print;
//! `data/expected.py` made it.
#![tactic(auto)]

use memory::Memory;
use script::{Step, make};
use std::io;
use storage::Storage;
use store::Store;

mod lists;

/// The lists one after another: the title, then a line for each call.
fn run<S: Store>(rt: &impl Print, store: &mut S, lists: &[(&str, &[Step<'_>])]) -> io::Result<()> {
    for &(title, steps) in lists {
        println!(rt; "{title}")?;
        for &step in steps {
            make(rt, store, step)?;
        }
    }
    Ok(())
}

fn main(rt: HostRuntime) -> io::Result<()> {
    // What a store can hold, then the bytes of one file, then what ends and what stays.
    let lists = [
        ("names and headers: 16, 16 and 64 bytes", lists::NAMES),
        (
            "scans: names in order, areas from 136 bytes on",
            lists::ORDER,
        ),
        ("eight handles", lists::HANDLES),
        ("four partitions", lists::PARTITIONS),
        ("eight files", lists::FILES),
        ("writes: 256 bytes, up to place 1,016", lists::WRITES),
        ("plain bytes pend, SYNC bytes are stored", lists::PENDING),
        ("reads up to the end", lists::READS),
        ("resizes, syncs and two handles of a file", lists::RESIZES),
        ("a handle of a removed file", lists::REMOVED),
        ("removals and looks", lists::LOOKS),
        ("crash writes", lists::CRASH_WRITES),
        ("crash resizes", lists::CRASH_RESIZES),
        ("restarts and resets", lists::RESTARTS),
    ];
    run(&rt, &mut Storage::new(Memory::new()), &lists)
}
