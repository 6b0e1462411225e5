//! Rows of a table.
#![tactic(auto)]

ghost use Rattle.std.specs.Prelude.{◌≡◌, ◌-◌, ◌<◌, ◌≤◌, ◌==◌, [], ◌∷◌, ◌++◌, length, take, remove, if◌then◌else◌, nat_lt};
ghost use Rattle.table.specs.Tables.{retiring};

/// Rows in the first places of an array; what stands behind them means nothing. Rows that go are forgotten, where a vector of
/// the library writes over them.
#[derive(Drop)]
pub struct Table<T, const CAP: usize> {
    pub rows: [T; CAP],
    pub count: usize,
    ghost fits: { (count ≤ CAP) × (length rows ≡ CAP) },
}

// Rows are `Copy`, so that one may be forgotten where it stands.
impl<T: Copy, const CAP: usize> Table<T, CAP> {
    /// No rows.
    pub fn new() -> Self
    where
        T: Default,
        ensures { take result.count result.rows ≡ [] }
    {
        Table {
            rows: [T::default(); CAP],
            count: 0,
        }
    }

    pub fn as_slice(&self) -> &[T]
        ensures value { result.now ≡ take self.now.count self.now.rows }
        ensures fits { length result.now ≤ CAP }
    {
        &self.rows[..self.count]
    }

    /// Whether there is no room for one more.
    pub fn is_full(&self) -> bool
        ensures { result ≡ (length (take self.now.count self.now.rows) == CAP) }
    {
        self.count == CAP
    }

    /// One more row, behind the others; where there is no room nothing changes.
    pub fn push(&mut self, row: T)
        ensures { take self.new.count self.new.rows ≡ (if nat_lt (length (take self.old.count self.old.rows)) CAP then take self.old.count self.old.rows ++ (row ∷ []) else take self.old.count self.old.rows) }
    {
        if self.count < CAP {
            self.add(row);
        }
    }

    /// The row at a place goes, and the others keep their order; a place past the end changes nothing.
    pub fn remove(&mut self, i: usize)
        ensures { take self.new.count self.new.rows ≡ remove (take self.old.count self.old.rows) i }
    {
        let count = self.count;
        if i < count {
            let rows = &mut self.rows[..];
            retire_in(rows, count, i);
            self.count = count - 1;
        }
    }

    /// All rows go.
    pub fn clear(&mut self)
        ensures { take self.new.count self.new.rows ≡ [] }
    {
        self.count = 0;
    }

    fn add(&mut self, row: T)
        requires { self.old.count < CAP }
        ensures { take self.new.count self.new.rows ≡ take self.old.count self.old.rows ++ (row ∷ []) }
    {
        let count = self.count;
        let rows = &mut self.rows[..];
        rows[count] = row;
        self.count = count + 1;
    }
}

/// Moves a row behind all others, which keep their order; a place past the end changes nothing.
pub fn retire<T>(rows: &mut [T], i: usize)
    ensures { rows.new ≡ retiring rows.old i }
{
    if i < rows.len() {
        rotate(rows, i);
    }
}

/// Moves a row behind the others of the first ones, so that those before it are the ones without it.
#[tactic(auto, using(crate::proofs::Uses::take_retired))]
fn retire_in<T>(rows: &mut [T], count: usize, i: usize)
    requires { (i < count) × (count ≤ length rows.old) }
    ensures fits { length rows.new ≡ length rows.old }
    ensures rest { take (count - 1) rows.new ≡ remove (take count rows.old) i }
{
    retire(&mut rows[..count], i);
}

fn rotate<T>(rows: &mut [T], i: usize)
    requires { i < length rows.old }
    ensures { rows.new ≡ retiring rows.old i }
{
    rows[i..].rotate_left(1);
}
