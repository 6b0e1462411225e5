//! The bytes of a file or of an open handle, and how they change.
ghost use Rattle.std.specs.Prelude.{◌≡◌, ◌+◌, ◌≤◌, [], length, nat_le};
ghost use Rattle.content.specs.Bytes.{limit, written, cut, within};
ghost use Rattle.content.specs.Patches.{lay};

use super::patch::Patch;
use row::Row;
use std::marker::Model;
use std::slice;

/// The most bytes that a file holds, header included.
pub const LIMIT: usize = 1016;

/// The bytes of a file or of an open handle, header included.
#[derive(Clone, Copy, Default)]
pub struct Content {
    bytes: Row<LIMIT>,
}

impl Model for Content {
    ghost use Rattle.std.specs.Prelude.{ℕ, List};

    ghost Value = { List ℕ };

    ghost view = { λ c. c.bytes };

    ghost inverse = { λ bs. record { bytes = bs } };
}

// Each change is one by its own definition: what they share is the limit, in the definitions' word `within`. A place and bytes
// are what a definition takes. The limit is tested here, as the manual has it; a row tests its capacity for any caller.
impl Content {
    /// No bytes.
    // Beside `Default`, as in the library: `new` says its value where it is called.
    pub fn new() -> Self
        ensures { result ≡ [] }
    {
        Content { bytes: Row::new() }
    }

    // One line over the row's, as `len` below: the row is private.
    pub fn as_slice(&self) -> &[u8]
        ensures value { result.now ≡ self.now }
        ensures fits { length result.now ≤ limit }
    {
        self.bytes.as_slice()
    }

    pub fn len(&self) -> usize
        ensures { result ≡ length self.now }
    {
        self.bytes.len()
    }

    /// Other bytes in the place of these; too many change nothing.
    pub fn replace(&mut self, bytes: &[u8])
        ensures { self.new ≡ within (length bytes.now) bytes.now self.old }
    {
        if bytes.len() <= LIMIT {
            self.bytes.set(bytes);
        }
    }

    /// The bytes of another content in the place of these.
    // Only the bytes in use; `*self = *other` would copy the zeros behind them too.
    pub fn copy_from(&mut self, other: &Content)
        ensures { self.new ≡ other.now }
    {
        self.replace(other.as_slice());
    }

    /// Bytes from a place on, after zeros where the content is shorter; past the limit nothing changes.
    pub fn write(&mut self, at: usize, bytes: &[u8])
        ensures { self.new ≡ within (at + length bytes.now) (written self.old at bytes.now) self.old }
    {
        if ends_within(at, bytes.len()) {
            self.put(at, bytes);
        }
    }

    /// Cut or zero-filled to a length; past the limit nothing changes.
    #[tactic(auto, unfolding(crate::specs::Bytes::cut))]
    pub fn resize(&mut self, len: usize)
        ensures { self.new ≡ within len (cut len self.old) self.old }
    {
        if len <= LIMIT {
            self.bytes.resize(len);
        }
    }

    /// The bytes of a patch, each in its place from a place on, after zeros where the content is shorter; where the patch
    /// ends past the limit nothing changes.
    pub fn lay(&mut self, at: usize, patch: &Patch<'_>)
        ensures { self.new ≡ within (at + length patch.now) (lay self.old at patch.now) self.old }
    {
        if ends_within(at, patch.len()) {
            self.put_chosen(at, patch);
        }
    }

    #[tactic(auto, unfolding(crate::specs::Bytes::written))]
    fn put(&mut self, at: usize, bytes: &[u8])
        requires { at + length bytes.now ≤ limit }
        ensures { self.new ≡ written self.old at bytes.now }
    {
        self.bytes.put(at, bytes);
    }

    #[tactic(auto, using(crate::proofs::Lays::lay_turns))]
    fn put_chosen(&mut self, at: usize, patch: &Patch<'_>)
        requires { at + length patch.now ≤ limit }
        ensures { self.new ≡ lay self.old at patch.now }
    {
        for (place, (byte, chosen)) in (at..LIMIT).zip(patch.bytes.iter().zip(patch.chosen)) {
            if *chosen {
                self.put(place, slice::from_ref(byte));
            }
        }
    }
}

/// Whether some bytes from a place on end within the limit.
pub fn ends_within(at: usize, len: usize) -> bool
    ensures { result ≡ nat_le (at + len) limit }
{
    at <= LIMIT && len <= LIMIT - at
}
