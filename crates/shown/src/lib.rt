//! How bytes, flags, faults and answers are printed.
#![tactic(auto)]

ghost use Rattle.std.specs.Iterator.{IsFinite};

use fault::Fault;
use std::fmt;

/// The pieces of a row, one after another; `-` for none.
fn write_row<W: fmt::Write, I: Iterator + Drop>(f: &mut fmt::Formatter<W>, pieces: I) -> fmt::Result
where
    I::Item: fmt::Display + Drop,
    requires can { I.can_next pieces }
    requires ends { IsFinite (I.remaining pieces) }
{
    let mut pieces = pieces.peekable();
    if pieces.peek().is_none() {
        return f.write_str("-");
    }
    for piece in pieces {
        write!(f, "{piece}")?;
    }
    Ok(())
}

/// Equal bytes in a row; more than four are told by their count, as `(00*9)`.
#[derive(Clone, Copy)]
struct Run<'a>(&'a [u8]);

impl fmt::Display for Run<'_> {
    fn fmt<W: fmt::Write>(&self, f: &mut fmt::Formatter<W>) -> fmt::Result {
        match self.0 {
            [byte, _, _, _, _, ..] => write!(f, "({byte:02x}*{})", self.0.len()),
            few => few.iter().try_for_each(|byte| write!(f, "{byte:02x}")),
        }
    }
}

/// Bytes in hexadecimal, `-` for none; more than four equal ones in a row are told by their count, as `(00*9)`.
#[derive(Clone, Copy)]
pub struct Hex<'a>(pub &'a [u8]);

impl fmt::Display for Hex<'_> {
    fn fmt<W: fmt::Write>(&self, f: &mut fmt::Formatter<W>) -> fmt::Result {
        write_row(f, self.0.chunk_by(|a, b| a == b).map(Run))
    }
}

/// Flags as digits, 1 for a byte that is chosen; `-` for no flag.
#[derive(Clone, Copy)]
pub struct Flags<'a>(pub &'a [bool]);

impl fmt::Display for Flags<'_> {
    fn fmt<W: fmt::Write>(&self, f: &mut fmt::Formatter<W>) -> fmt::Result {
        write_row(f, self.0.iter().map(|&flag| u8::from(flag)))
    }
}

/// How a write is made, `SYNC` or `plain`.
#[derive(Clone, Copy)]
pub struct Kind {
    pub sync: bool,
}

impl fmt::Display for Kind {
    fn fmt<W: fmt::Write>(&self, f: &mut fmt::Formatter<W>) -> fmt::Result {
        f.write_str(if self.sync { "SYNC" } else { "plain" })
    }
}

/// `no` with the number and the layer of a fault.
#[derive(Clone, Copy)]
pub struct Refusal(pub Fault);

impl fmt::Display for Refusal {
    fn fmt<W: fmt::Write>(&self, f: &mut fmt::Formatter<W>) -> fmt::Result {
        write!(f, "no {} {}", self.0.number(), u8::from(self.0.layer()))
    }
}

/// What a call answers: `ok` and what it gives, or `no` with its fault.
#[derive(Clone, Copy)]
pub struct Told<T>(pub Result<T, Fault>);

impl fmt::Display for Told<()> {
    fn fmt<W: fmt::Write>(&self, f: &mut fmt::Formatter<W>) -> fmt::Result {
        match self.0 {
            Ok(()) => f.write_str("ok"),
            Err(fault) => Refusal(fault).fmt(f),
        }
    }
}

/// An open gives the number of the handle and the size of the file.
impl fmt::Display for Told<(u64, u64)> {
    fn fmt<W: fmt::Write>(&self, f: &mut fmt::Formatter<W>) -> fmt::Result {
        match self.0 {
            Ok((handle, size)) => write!(f, "ok, handle {handle}, size {size}"),
            Err(fault) => Refusal(fault).fmt(f),
        }
    }
}
