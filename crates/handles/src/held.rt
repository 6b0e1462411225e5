//! The table of handles: how they are opened, asked, changed and closed.
ghost use Rattle.std.specs.Prelude.{◌≡◌, ◌+◌, [], length, if◌then◌else◌, Some, None, Ok, Err, MatchResult};
ghost use Rattle.std.specs.List.{position};
ghost use Rattle.std.specs.Option.{option_map};
ghost use Rattle.fault.specs.declared.Fault.TheVariants.{NoHandle, TableFull};
ghost use Rattle.store.specs.Meaning.{permitted, when_ok};
ghost use Rattle.store.specs.Live.{numbered, handle_at, handles_full, handles_with, generation_of, held_fault, write_fault, resize_fault, read_answer, read_area, live_written, live_resized, closed};
ghost use Rattle.handles.specs.Held.{holding};

use fault::Fault;
use std::marker::Model;
use store::handle::Handle;
use store::opening::Opening;
use table::Table;

/// The most handles held at once.
pub const HANDLE_LIMIT: usize = 8;

/// The most handles ever issued.
pub const ISSUE_LIMIT: u64 = 1_000_000;

/// The handles held, in the order of their opening, and how many were issued.
#[derive(Drop)]
pub struct Handles {
    held: Table<Handle, HANDLE_LIMIT>,
    issued: u64,
}

impl Model for Handles {
    ghost use Rattle.std.specs.Prelude.{◌≤◌, take};
    ghost use Rattle.store.specs.Live.{issue_limit};
    ghost use Rattle.handles.specs.Held.{Held};

    ghost Value = { Held };

    ghost view = { λ t. record { handles = take t.held.count t.held.rows; issued = t.issued } };

    ghost invariant = { λ t. t.issued ≤ issue_limit };
}

impl Handles {
    /// No handle held, none issued.
    // No `Default` beside it: nothing asks for one.
    pub fn new() -> Self
        ensures { result ≡ record { handles = []; issued = 0 } }
    {
        Handles {
            held: Table::new(),
            issued: 0,
        }
    }

    /// Ends all handles, and begins their numbers again.
    pub fn reset(&mut self)
        ensures { self.new ≡ record { handles = []; issued = 0 } }
    {
        self.restart();
        self.issued = 0;
    }

    /// Ends all handles.
    pub fn restart(&mut self)
        ensures { self.new ≡ holding self.old [] }
    {
        self.held.clear();
    }

    /// The place of a handle, for what changes the table; `get` gives the handle itself.
    fn find(&self, number: u64) -> Option<usize>
        ensures { result ≡ position (numbered number) self.now.handles }
    {
        self.held
            .as_slice()
            .iter()
            .position(|handle| handle.number == number)
    }

    /// A handle that is held.
    pub fn get(&self, number: u64) -> Option<&Handle>
        ensures { option_map (λ h. h.now) result ≡ handle_at self.now.handles number }
    {
        self.lookup(number)
    }

    // What `get` gives, in a function of its own, so that another handle in its place is refused by what `get` says.
    fn lookup(&self, number: u64) -> Option<&Handle>
        ensures { option_map (λ h. h.now) result ≡ handle_at self.now.handles number }
    {
        self.held
            .as_slice()
            .iter()
            .find(|handle| handle.number == number)
    }

    /// A handle that a call names.
    pub fn seek(&self, number: u64) -> Result<&Handle, Fault>
        ensures { MatchResult result (λ h. handle_at self.now.handles number ≡ Some h.now) (λ f. (f ≡ NoHandle) × (handle_at self.now.handles number ≡ None)) }
    {
        self.get(number).ok_or(Fault::NoHandle)
    }

    /// Whether one more handle finds no place or no number.
    pub fn is_full(&self) -> bool
        ensures { result ≡ handles_full self.now.handles self.now.issued }
    {
        self.held.is_full() || self.issued >= ISSUE_LIMIT
    }

    /// One more handle; gives its number.
    pub fn open(&mut self, opening: Opening) -> Result<u64, Fault>
        ensures answer { result ≡ (if handles_full self.old.handles self.old.issued then Err TableFull else Ok self.old.issued) }
        ensures state { self.new ≡ when_ok result (record { handles = handles_with self.old.handles self.old.issued opening.generation opening.header opening.live; issued = self.old.issued + 1 }) self.old }
    {
        if self.is_full() {
            return Err(Fault::TableFull);
        }
        let number = self.issued;
        self.held.push(Handle {
            number,
            generation: opening.generation,
            header: opening.header,
            live: opening.live,
        });
        self.issued += 1;
        Ok(number)
    }

    /// Which fault a call on a handle meets if it is not held.
    pub fn ask(&self, number: u64) -> Result<(), Fault>
        ensures { result ≡ permitted (held_fault self.now.handles number) }
    {
        self.seek(number)?;
        Ok(())
    }

    // A write and a resize hand other parts on; what they share is the search for the handle.

    /// Which fault a write of a length would meet before anything else.
    pub fn ask_write(&self, number: u64, offset: u64, len: usize) -> Result<(), Fault>
        ensures { result ≡ permitted (write_fault self.now.handles number offset len) }
    {
        self.seek(number)?.check_write(offset, len)
    }

    /// Which fault a resize would meet before anything else.
    pub fn ask_resize(&self, number: u64, len: u64) -> Result<(), Fault>
        ensures { result ≡ permitted (resize_fault self.now.handles number len) }
    {
        self.seek(number)?.check_resize(len)
    }

    /// The generation of a handle's file.
    pub fn generation(&self, number: u64) -> Option<u64>
        ensures { result ≡ generation_of self.now.handles number }
    {
        self.get(number).map(|handle| handle.generation)
    }

    /// Copies live bytes from an offset into an area, whose length is the read's.
    pub fn read(&self, number: u64, offset: u64, area: &mut [u8]) -> Result<(), Fault>
        ensures answer { result ≡ read_answer self.now.handles number offset (length area.old) }
        ensures put { area.new ≡ read_area self.now.handles number offset area.old }
    {
        self.seek(number)?.read(offset, area)
    }

    /// Writes live bytes.
    pub fn write(&mut self, number: u64, offset: u64, bytes: &[u8]) -> Result<(), Fault>
        ensures answer { result ≡ permitted (write_fault self.old.handles number offset (length bytes.now)) }
        ensures state { self.new ≡ when_ok result (holding self.old (live_written self.old.handles number offset bytes.now)) self.old }
    {
        self.ask_write(number, offset, bytes.len())?;
        self.put(number, offset, bytes);
        Ok(())
    }

    /// Cuts or zero-fills the live bytes.
    pub fn resize(&mut self, number: u64, len: u64) -> Result<(), Fault>
        ensures answer { result ≡ permitted (resize_fault self.old.handles number len) }
        ensures state { self.new ≡ when_ok result (holding self.old (live_resized self.old.handles number len)) self.old }
    {
        self.ask_resize(number, len)?;
        self.set_len(number, len);
        Ok(())
    }

    /// Ends a handle.
    pub fn close(&mut self, number: u64) -> Result<(), Fault>
        ensures answer { result ≡ permitted (held_fault self.old.handles number) }
        ensures state { self.new ≡ holding self.old (closed self.old.handles number) }
    {
        let asked = self.ask(number);
        self.end(number);
        asked
    }

    // Each change is one by itself, behind its question, so that a wrong place is refused by what it asks or says.

    /// Puts live bytes of a handle.
    fn put(&mut self, number: u64, offset: u64, bytes: &[u8])
        requires { write_fault self.old.handles number offset (length bytes.now) ≡ None }
        ensures { self.new ≡ holding self.old (live_written self.old.handles number offset bytes.now) }
    {
        if let Some(i) = self.find(number) {
            let held = &mut self.held;
            let _fits = held.rows[i].write(offset, bytes);
        }
    }

    /// Cuts or zero-fills the live bytes of a handle.
    fn set_len(&mut self, number: u64, len: u64)
        requires { resize_fault self.old.handles number len ≡ None }
        ensures { self.new ≡ holding self.old (live_resized self.old.handles number len) }
    {
        if let Some(i) = self.find(number) {
            let held = &mut self.held;
            let _fits = held.rows[i].resize(len);
        }
    }

    /// Ends a handle, if it is held.
    #[tactic(auto, using(store::proofs::Finds::without_at, store::proofs::Finds::without_none))]
    fn end(&mut self, number: u64)
        ensures { self.new ≡ holding self.old (closed self.old.handles number) }
    {
        if let Some(i) = self.find(number) {
            self.held.remove(i);
        }
    }
}
