//! A boot journal in a memory store: what each call answers, and the file that the medium keeps after a restart.
#![tactic(auto)]

use content::LIMIT;
use memory::Memory;
use shown::{Hex, Kind, Refusal, Told};
use std::io;
use storage::Storage;
use store::Store;

const PARTITION: &[u8] = b"boot";

const NAME: &[u8] = b"journal";

const HEADER: &[u8] = b"BJ";

/// A store with the journal in it, the journal's handle, and where the calls are told.
#[derive(Drop)]
struct Journal<'a, R, S> {
    rt: &'a R,
    store: &'a mut S,
    handle: u64,
}

impl<R: Print, S: Store> Journal<'_, R, S> {
    fn write(&mut self, offset: u64, bytes: &[u8], sync: bool) -> io::Result<()> {
        let told = Told(self.store.write(self.handle, offset, bytes, sync));
        let kind = Kind { sync };
        let bytes = Hex(bytes);
        println!(self.rt; "{kind} write of {bytes} at {offset}: {told}")
    }

    /// Reads live bytes from the beginning on.
    fn read(&self, area: &mut [u8]) -> io::Result<()> {
        let told = Told(self.store.read(self.handle, 0, area));
        let area = Hex(area);
        println!(self.rt; "read at 0: {told}, area {area}")
    }

    fn sync(&mut self) -> io::Result<()> {
        let told = Told(self.store.sync(self.handle));
        println!(self.rt; "sync: {told}")
    }

    fn restart(&mut self) -> io::Result<()> {
        self.store.restart();
        println!(self.rt; "restart: every handle ends")
    }

    /// Looks at the durable bytes.
    // The longest area, of which a part is used: no call allocates.
    fn look(&self) -> io::Result<()> {
        let mut area = [0u8; LIMIT];
        match self.store.look(PARTITION, NAME, &mut area) {
            Ok(len) => {
                let bytes = Hex(&area[..len.min(area.len())]);
                println!(self.rt; "  the medium keeps {bytes}")
            }
            Err(fault) => {
                let refusal = Refusal(fault);
                println!(self.rt; "  the medium keeps no such file: {refusal}")
            }
        }
    }
}

/// The journal's calls, one after another.
fn run(rt: &impl Print, store: &mut impl Store) -> io::Result<()> {
    let opened = store.open(PARTITION, NAME, HEADER);
    println!(rt; "open boot/journal: {}", Told(opened))?;
    let Ok((handle, _)) = opened else {
        return Ok(());
    };
    let mut journal = Journal { rt, store, handle };
    journal.write(0, b"ABC", false)?;
    journal.look()?;
    journal.write(4, b"E", true)?;
    journal.look()?;
    journal.read(&mut [0; 5])?;
    journal.sync()?;
    journal.look()?;
    journal.write(5, b"lost", false)?;
    journal.restart()?;
    journal.read(&mut [0; 1])?;
    journal.look()
}

fn main(rt: HostRuntime) -> io::Result<()> {
    println!(rt; "a boot journal in a memory store")?;
    run(&rt, &mut Storage::new(Memory::new()))
}
