//! Names in ascending order, and as a scan writes them.
ghost use Rattle.std.specs.Prelude.{◌≡◌, ◌+◌, ◌<◌, ◌≤◌, [], ◌∷◌, ◌++◌, length, take, drop, if◌then◌else◌, Ok, Err, nat_lt};
ghost use Rattle.fault.specs.declared.Fault.TheVariants.{ShortArea};
ghost use Rattle.name.specs.Listings.{placed, listing, scan_area, first};

use super::names::Name;
use arrayvec::ArrayVec;
use fault::Fault;
use std::marker::Model;
use std::mem;

/// The most names of a listing.
pub const NAMES_LIMIT: usize = 8;

/// The least area of a scan: eight names of 16 bytes, each after its length byte.
pub const SCAN_AREA: usize = 136;

/// At most 8 names, in ascending order.
#[derive(Drop)]
pub struct Listing {
    names: ArrayVec<Name, NAMES_LIMIT>,
}

impl Model for Listing {
    ghost use Rattle.std.specs.Prelude.{ℕ, List};

    ghost Value = { List (List ℕ) };

    ghost view = { λ l. l.names.items };
}

impl Listing {
    // No `Default` beside it: nothing asks for one.
    pub fn new() -> Self
        ensures { result ≡ [] }
    {
        Listing {
            names: ArrayVec::new(),
        }
    }

    /// One more name, in its place; a ninth changes nothing.
    pub fn insert(&mut self, name: Name)
        ensures { self.new ≡ (if nat_lt (length self.old) 8 then placed name self.old else self.old) }
    {
        if !self.names.is_full() {
            let last = pass(&mut self.names, name);
            self.names.push(last);
        }
    }

    // The area is the caller's and the answer counts its bytes: no call allocates.

    /// Writes each name after its length byte and gives how many bytes that took; a short area is refused as it is.
    pub fn write(&self, area: &mut [u8]) -> Result<usize, Fault>
        ensures answer { result ≡ (if nat_lt (length area.old) scan_area then Err ShortArea else Ok (length (listing self.now))) }
        ensures put { area.new ≡ (if nat_lt (length area.old) scan_area then area.old else first (listing self.now) area.old) }
    {
        if area.len() < SCAN_AREA {
            return Err(Fault::ShortArea);
        }
        Ok(self.fill(area))
    }

    fn fill(&self, area: &mut [u8]) -> usize
        requires { scan_area ≤ length area.old }
        ensures count { result ≡ length (listing self.now) }
        ensures put { area.new ≡ first (listing self.now) area.old }
    {
        let mut at = 0;
        for name in self.names.as_slice() {
            at = put(area, at, name);
        }
        at
    }
}

/// Puts a name in the place of the first that it comes before, and that one likewise; gives the last, which has no place.
// The definition places a name so; a sort at each name would be no plainer.
fn pass(names: &mut [Name], name: Name) -> Name
    ensures { names.new ++ (result ∷ []) ≡ placed name names.old }
{
    let mut last = name;
    for here in names {
        if last.is_before(here) {
            mem::swap(here, &mut last);
        }
    }
    last
}

/// Puts a name, of at most 16 bytes, after its length byte at a place of an area, and gives the place behind it.
fn put(area: &mut [u8], at: usize, name: &Name) -> usize
    requires { at + 17 ≤ length area.old }
    ensures end { result ≡ at + length (length name.now ∷ name.now) }
    ensures within { result ≤ at + 17 }
    ensures put { area.new ≡ take at area.old ++ ((length name.now ∷ name.now) ++ drop result area.old) }
{
    let name = name.as_slice();
    let from = at + 1;
    let end = from + name.len();
    // no `From` between these; the cast is proved to lose nothing
    area[at] = name.len() as u8;
    area[from..end].copy_from_slice(name);
    end
}
