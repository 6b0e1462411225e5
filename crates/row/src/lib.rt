//! Bytes that lie in the value itself, so that a copy of the value copies them.
#![tactic(auto)]

ghost use Rattle.std.specs.Prelude.{◌≡◌, ◌+◌, ◌-◌, ◌≤◌, [], ◌++◌, length, take, drop, replicate, if◌then◌else◌, Some, nat_eq, nat_le, refl};
ghost use Rattle.std.specs.Ordering.{nat_cmp};
ghost use Rattle.std.specs.Cmp.{on_equiv, on_total, on_po, on_per, partial_equiv_from_equiv};
ghost use Rattle.std.specs.Cmp.Lexicographic.{pointwise, slice_cmp, nat_list_eq_equiv, nat_list_cmp_total, texts_po, texts_ties};

use std::cmp::Ordering;
use std::marker::Model;

/// At most `CAP` bytes. The places behind them hold zeros, so that the bytes alone tell the value: it is `Copy`, which a
/// vector of the library is not.
#[derive(Clone, Copy)]
pub struct Row<const CAP: usize> {
    bytes: [u8; CAP],
    len: usize,
}

impl<const CAP: usize> Model for Row<CAP> {
    ghost use Rattle.std.specs.Prelude.{◌≡◌, ℕ, ◌-◌, ◌≤◌, List, ◌++◌, length, take, drop, replicate};
    ghost use Rattle.row.specs.Padded.{padded, padded_len};

    ghost Value = { List ℕ };

    ghost view = { λ r. take r.len r.bytes };

    ghost invariant = { λ r. (r.len ≤ CAP) × (length r.bytes ≡ CAP) × (drop r.len r.bytes ≡ replicate (CAP - r.len) 0) };

    ghost inverse = { λ bs. record { bytes = bs ++ replicate (CAP - length bs) 0; len = length bs } };

    ghost inverse_ok = { λ r h i. record { bytes = padded CAP r.len r.bytes h.0 h.1 h.2 i; len = padded_len CAP r.len r.bytes h.0 h.1 i } };
}

impl<const CAP: usize> Row<CAP> {
    /// No bytes.
    pub fn new() -> Self
        ensures { result ≡ [] }
    {
        Row {
            bytes: [0; CAP],
            len: 0,
        }
    }

    pub fn as_slice(&self) -> &[u8]
        ensures value { result.now ≡ self.now }
        ensures fits { length result.now ≤ CAP }
    {
        &self.bytes[..self.len]
    }

    pub fn len(&self) -> usize
        ensures value { result ≡ length self.now }
        ensures fits { result ≤ CAP }
    {
        self.as_slice().len()
    }

    /// Cut or zero-filled to a length; past the capacity nothing changes.
    pub fn resize(&mut self, len: usize)
        ensures { self.new ≡ (if nat_le len CAP then take len (self.old ++ replicate (len - length self.old) 0) else self.old) }
    {
        if len <= CAP {
            self.set_len(len);
        }
    }

    /// Other bytes from a place on, after zeros where there are fewer; past the capacity nothing changes.
    pub fn put(&mut self, at: usize, bytes: &[u8])
        ensures { self.new ≡ (if nat_le (at + length bytes.now) CAP then take at (self.old ++ replicate (at - length self.old) 0) ++ (bytes.now ++ drop (at + length bytes.now) self.old) else self.old) }
    {
        if at <= CAP && bytes.len() <= CAP - at {
            self.write(at, bytes);
        }
    }

    /// Other bytes in the place of these; too many change nothing.
    pub fn set(&mut self, bytes: &[u8])
        ensures { self.new ≡ (if nat_le (length bytes.now) CAP then bytes.now else self.old) }
    {
        if bytes.len() <= CAP {
            self.set_len(bytes.len());
            self.write(0, bytes);
        }
    }

    fn set_len(&mut self, len: usize)
        requires { len ≤ CAP }
        ensures { self.new ≡ take len (self.old ++ replicate (len - length self.old) 0) }
    {
        let was = self.len;
        if len < was {
            let all = &mut self.bytes[..];
            blank(all, len, was);
        }
        self.len = len;
    }

    fn write(&mut self, at: usize, bytes: &[u8])
        requires { at + length bytes.now ≤ CAP }
        ensures { self.new ≡ take at (self.old ++ replicate (at - length self.old) 0) ++ (bytes.now ++ drop (at + length bytes.now) self.old) }
    {
        let all = &mut self.bytes[..];
        paste(all, at, bytes);
        self.len = self.len.max(at + bytes.len());
    }
}

/// Other bytes from a place on.
fn paste(all: &mut [u8], at: usize, bytes: &[u8])
    requires { at + length bytes.now ≤ length all.old }
    ensures { all.new ≡ take at all.old ++ (bytes.now ++ drop (at + length bytes.now) all.old) }
{
    all[at..at + bytes.len()].copy_from_slice(bytes);
}

/// Zeros from one place up to another.
fn blank(bytes: &mut [u8], from: usize, to: usize)
    requires { (from ≤ to) × (to ≤ length bytes.old) }
    ensures { bytes.new ≡ take from bytes.old ++ (replicate (to - from) 0 ++ drop to bytes.old) }
{
    bytes[from..to].fill(0);
}

impl<const CAP: usize> Default for Row<CAP> {
    ghost is_default = { λ r. r ≡ [] };

    fn default() -> Self {
        Self::new()
    }
}

impl<const CAP: usize> PartialEq for Row<CAP> {
    ghost eq = { λ r s. pointwise nat_eq r s };

    ghost laws = { on_per (λ r. r) (partial_equiv_from_equiv nat_list_eq_equiv) };

    fn eq(&self, other: &Self) -> bool {
        self.as_slice() == other.as_slice()
    }
}

impl<const CAP: usize> Eq for Row<CAP> {
    ghost laws = { on_equiv (λ r. r) nat_list_eq_equiv };
}

impl<const CAP: usize> PartialOrd for Row<CAP> {
    ghost partial_cmp = { λ r s. Some (slice_cmp nat_cmp r s) };

    ghost laws = { on_po (λ r. r) texts_po };

    fn partial_cmp(&self, other: &Self) -> Option<Ordering> {
        Some(self.cmp(other))
    }
}

impl<const CAP: usize> Ord for Row<CAP> {
    ghost cmp = { λ r s. slice_cmp nat_cmp r s };

    ghost total = { on_total (λ r. r) nat_list_cmp_total };

    ghost matches_partial_cmp = { λ r s. refl };

    ghost matches_eq = { λ r s. texts_ties r s };

    fn cmp(&self, other: &Self) -> Ordering {
        self.as_slice().cmp(other.as_slice())
    }
}
