//! A name, of at most 16 bytes.
ghost use Rattle.std.specs.Prelude.{◌≡◌, ◌≤◌, [], length, if◌then◌else◌, Ok, Err, nat_le};
ghost use Rattle.fault.specs.declared.Fault.TheVariants.{TooLong};
ghost use Rattle.name.specs.Names.{before, name_limit};

use super::letters::NAME_LIMIT;
use fault::Fault;
use row::Row;
use std::marker::Model;

/// The name of a partition or of a file, seen as its bytes. Names are ordered as their bytes are, a shorter prefix first.
#[derive(Clone, Copy, Default, PartialEq, Eq, PartialOrd, Ord)]
pub struct Name {
    bytes: Row<NAME_LIMIT>,
}

impl Model for Name {
    ghost use Rattle.std.specs.Prelude.{ℕ, List};

    ghost Value = { List ℕ };

    ghost view = { λ n. n.bytes };

    ghost inverse = { λ bs. record { bytes = bs } };
}

impl Name {
    /// The empty name.
    // Beside `Default`, as in the library: `new` says its value where it is called.
    pub fn empty() -> Self
        ensures { result ≡ [] }
    {
        Name { bytes: Row::new() }
    }

    // One line over the row's: the row is private.
    pub fn as_slice(&self) -> &[u8]
        ensures value { result.now ≡ self.now }
        ensures fits { length result.now ≤ name_limit }
    {
        self.bytes.as_slice()
    }

    /// Whether the name comes before another in ascending byte order, a shorter prefix first.
    // The derived order is this one; here its definition stands in a contract.
    pub fn is_before(&self, other: &Name) -> bool
        ensures { result ≡ before self.now other.now }
    {
        less(self.as_slice(), other.as_slice())
    }
}

fn less(a: &[u8], b: &[u8]) -> bool
    ensures { result ≡ before a.now b.now }
{
    a < b
}

/// A name of these bytes, if they are at most 16.
impl TryFrom<&[u8]> for Name {
    type Error = Fault;

    ghost try_from_gives = { λ bytes r. r ≡ (if nat_le (length bytes.now) name_limit then Ok bytes.now else Err TooLong) };

    fn try_from(bytes: &[u8]) -> Result<Self, Fault> {
        if bytes.len() > NAME_LIMIT {
            return Err(Fault::TooLong);
        }
        let mut name = Name::empty();
        name.bytes.set(bytes);
        Ok(name)
    }
}

/// The same bytes. A `clone` gives a `Result`, whose failure never comes here; this gives none.
impl From<&Name> for Name {
    ghost from_gives = { λ other name. name ≡ other.now };

    fn from(other: &Name) -> Self {
        *other
    }
}
