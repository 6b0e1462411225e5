//! Which bytes of a write are kept.
ghost use Rattle.std.specs.Prelude.{◌≡◌, length};
ghost use Rattle.content.specs.Patches.{patch};

use std::marker::Model;

/// The bytes of a write, each chosen or not, seen as a byte or none for each place. A byte without a flag is not chosen;
/// flags beyond the bytes are ignored.
// Two slices, since a caller has the bytes in one piece and hands stretches of them on.
#[derive(Drop)]
pub struct Patch<'a> {
    pub(crate) bytes: &'a [u8],
    pub(crate) chosen: &'a [bool],
}

impl<'a> Model for Patch<'a> {
    ghost use Rattle.std.specs.Prelude.{ℕ, List, Option};
    ghost use Rattle.content.specs.Patches.{patch};

    ghost Value = { List (Option ℕ) };

    ghost view = { λ p. patch p.bytes.now p.chosen.now };
}

impl<'a> Patch<'a> {
    /// The chosen ones of some bytes.
    pub fn new(bytes: &'a [u8], chosen: &'a [bool]) -> Self
        ensures { result ≡ patch bytes.now chosen.now }
    {
        Patch { bytes, chosen }
    }

    /// How many places there are, chosen or not.
    #[tactic(auto, using(crate::proofs::Lays::length_patch))]
    pub fn len(&self) -> usize
        ensures { result ≡ length self.now }
    {
        self.bytes.len()
    }
}
