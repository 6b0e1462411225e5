//! Calls on a store as values, and the line that tells each call and its answer.
#![tactic(auto)]

ghost use Rattle.std.specs.Prelude.{◌≡◌, ◌<◌, ◌↔◌, IsNone, IfSome, length, take};
ghost use Rattle.script.specs.Steps.{IsAnswer, after, area_of};

use content::Patch;
use fault::Fault;
use shown::{Flags, Hex, Kind, Refusal, Told};
use std::{fmt, io};
use store::Store;

/// The byte that stands everywhere in an area before `make` makes a call.
const FILL: u8 = 0xaa;

/// The longest area.
const LONGEST: usize = 1100;

/// A call with what it is given; of an area the length.
// A call is data, so that lists of calls can be written down and told; one `match` makes it. Fields go by position, as in the
// lists, which named ones would make three times as long.
#[derive(Clone, Copy)]
pub enum Step<'a> {
    Reset,
    Restart,
    Open(&'a [u8], &'a [u8], &'a [u8]),
    Read(u64, u64, usize),
    Write(u64, u64, &'a [u8], bool),
    Resize(u64, u64),
    Sync(u64),
    Close(u64),
    Remove(&'a [u8], &'a [u8]),
    RemovePartition(&'a [u8]),
    Scan(&'a [u8], usize),
    Look(&'a [u8], &'a [u8], usize),
    CrashWrite(u64, u64, &'a [u8], &'a [bool]),
    CrashResize(u64, u64),
}

impl fmt::Display for Step<'_> {
    fn fmt<W: fmt::Write>(&self, f: &mut fmt::Formatter<W>) -> fmt::Result {
        match *self {
            Step::Reset => f.write_str("reset"),
            Step::Restart => f.write_str("restart"),
            Step::Open(partition, name, header) => {
                write!(
                    f,
                    "open {} {} header {}",
                    Hex(partition),
                    Hex(name),
                    Hex(header)
                )
            }
            Step::Read(handle, offset, len) => write!(f, "read {handle} at {offset} of {len}"),
            Step::Write(handle, offset, bytes, sync) => {
                write!(
                    f,
                    "{} write {handle} at {offset} of {}",
                    Kind { sync },
                    Hex(bytes)
                )
            }
            Step::Resize(handle, len) => write!(f, "resize {handle} to {len}"),
            Step::Sync(handle) => write!(f, "sync {handle}"),
            Step::Close(handle) => write!(f, "close {handle}"),
            Step::Remove(partition, name) => {
                write!(f, "remove {} {}", Hex(partition), Hex(name))
            }
            Step::RemovePartition(partition) => write!(f, "remove partition {}", Hex(partition)),
            Step::Scan(partition, len) => write!(f, "scan {} of {len}", Hex(partition)),
            Step::Look(partition, name, len) => {
                write!(f, "look {} {} of {len}", Hex(partition), Hex(name))
            }
            Step::CrashWrite(generation, offset, bytes, chosen) => write!(
                f,
                "crash write {generation} at {offset} of {} chosen {}",
                Hex(bytes),
                Flags(chosen)
            ),
            Step::CrashResize(generation, len) => write!(f, "crash resize {generation} to {len}"),
        }
    }
}

/// What a call answers; one with an area answers with the bytes that the call left there.
#[derive(Clone, Copy)]
pub enum Answer<'a> {
    /// The call answers nothing.
    Nothing,
    Done(Result<(), Fault>),
    /// An open: the handle and the size.
    Opened(Result<(u64, u64), Fault>),
    /// A read: where it succeeds it fills its area.
    Copied(Result<(), Fault>, &'a [u8]),
    /// A scan or a look: how many bytes of its area it filled.
    Filled(Result<usize, Fault>, &'a [u8]),
}

/// An answer as it stands after its call, from the colon on; `kept` counts the bytes that are still the fill.
impl fmt::Display for Answer<'_> {
    fn fmt<W: fmt::Write>(&self, f: &mut fmt::Formatter<W>) -> fmt::Result {
        match *self {
            Answer::Nothing => Ok(()),
            Answer::Done(answer) => write!(f, ": {}", Told(answer)),
            Answer::Opened(answer) => write!(f, ": {}", Told(answer)),
            Answer::Copied(answer, area) => {
                let rest = if answer.is_ok() { 0 } else { kept(area) };
                write!(f, ": {}, area {}, kept {rest}", Told(answer), Hex(area))
            }
            Answer::Filled(Ok(count), area) => match area.split_at_checked(count) {
                Some((filled, rest)) => {
                    write!(f, ": ok {count}, {}, kept {}", Hex(filled), kept(rest))
                }
                None => write!(f, ": ok {count}, past the area"),
            },
            Answer::Filled(Err(fault), area) => {
                write!(f, ": {}, kept {}", Refusal(fault), kept(area))
            }
        }
    }
}

/// How many bytes are still the fill.
fn kept(bytes: &[u8]) -> usize {
    bytes.iter().filter(|&&b| b == FILL).count()
}

/// Makes a call; one with an area gets the first bytes of this one. Where those are too few it makes none.
pub fn call<'a, S: Store>(store: &mut S, step: Step<'_>, area: &'a mut [u8]) -> Option<Answer<'a>>
    ensures none { IsNone result ↔ (length area.old < area_of step.entry) }
    ensures answer { IfSome result (IsAnswer (S.meaning store.old) step.entry (take (area_of step.entry) area.old)) }
    ensures state { S.meaning store.new ≡ after (S.meaning store.old) step.entry }
{
    Some(match step {
        Step::Reset => {
            store.reset();
            Answer::Nothing
        }
        Step::Restart => {
            store.restart();
            Answer::Nothing
        }
        Step::Open(partition, name, header) => {
            Answer::Opened(store.open(partition, name, header))
        }
        Step::Read(handle, offset, len) => {
            let area = area.get_mut(..len)?;
            Answer::Copied(store.read(handle, offset, area), area)
        }
        Step::Write(handle, offset, bytes, sync) => {
            Answer::Done(store.write(handle, offset, bytes, sync))
        }
        Step::Resize(handle, len) => Answer::Done(store.resize(handle, len)),
        Step::Sync(handle) => Answer::Done(store.sync(handle)),
        Step::Close(handle) => Answer::Done(store.close(handle)),
        Step::Remove(partition, name) => Answer::Done(store.remove(partition, name)),
        Step::RemovePartition(partition) => Answer::Done(store.remove_partition(partition)),
        Step::Scan(partition, len) => {
            let area = area.get_mut(..len)?;
            Answer::Filled(store.scan(partition, area), area)
        }
        Step::Look(partition, name, len) => {
            let area = area.get_mut(..len)?;
            Answer::Filled(store.look(partition, name, area), area)
        }
        Step::CrashWrite(generation, offset, bytes, chosen) => {
            store.crash_write(generation, offset, &Patch::new(bytes, chosen));
            Answer::Nothing
        }
        Step::CrashResize(generation, len) => {
            store.crash_resize(generation, len);
            Answer::Nothing
        }
    })
}

/// Makes a call and prints its line; one that asks for a longer area than the longest is not made, and prints none.
// The longest area, of which a call has the part that it needs: no call allocates.
pub fn make<S: Store>(rt: &impl Print, store: &mut S, step: Step<'_>) -> io::Result<()>
    ensures { S.meaning store.new ≡ after (S.meaning store.old) step.entry }
{
    let mut area = [FILL; LONGEST];
    match call(store, step, &mut area) {
        Some(answer) => println!(rt; "{step}{answer}"),
        None => Ok(()),
    }
}
