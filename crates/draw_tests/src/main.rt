//! Prints draws from known sources. The file `stdout` has what it must print; `data/expected.py` made it.
#![tactic(auto)]

use draw::generator::Generator;
use draw::select::{PartialWriteMode, select};
use draw::source::{Source, pick, roll};
use draw::tape::Tape;
use std::io;

fn main(rt: HostRuntime) -> io::Result<()> {
    for state in [0, 1, 0x0123_4567_89ab_cdef, u64::MAX] {
        generator(rt, state)?;
    }
    tape(rt, &[7, 0, 65535, 40000])?;
    tape(rt, &[])?;
    for rate in [0, 1, 32768, 65535, 65536, 65537, u64::MAX] {
        rolls(rt, rate)?;
    }
    for n in [0, 1, 7, 65536, u64::MAX] {
        picks(rt, n)?;
    }
    for rate in [0, 32768, 65535, 65536, 65537] {
        selections(rt, rate)?;
    }
    Ok(())
}

// One function for each kind of line, since each tells other draws.

/// The first hundred words from a state.
fn generator(rt: HostRuntime, state: u64) -> io::Result<()> {
    println!(rt; "generator from {state}")?;
    words(rt, &mut Generator::new(state), 100)
}

/// The first eight words of a tape.
fn tape(rt: HostRuntime, given: &[u16]) -> io::Result<()> {
    println!(rt; "tape of {given:?}")?;
    words(rt, &mut Tape::new(given), 8)
}

/// The next `count` words.
fn words<S: Source>(rt: HostRuntime, source: &mut S, count: u64) -> io::Result<()> {
    for _ in 0..count {
        println!(rt; "{}", source.next())?;
    }
    Ok(())
}

/// Rolls at one rate on the words 0, 1, 65534, 65535, and the word after them.
fn rolls(rt: HostRuntime, rate: u64) -> io::Result<()> {
    let mut tape = Tape::new(&[0, 1, 65534, 65535, 11]);
    println!(rt; "rolls at {rate}")?;
    for _ in 0..4 {
        println!(rt; "{}", roll(&mut tape, rate))?;
    }
    println!(rt; "next {}", tape.next())
}

/// Picks of n on the words 6, 7, 65535, and the word after them.
fn picks(rt: HostRuntime, n: u64) -> io::Result<()> {
    let mut tape = Tape::new(&[6, 7, 65535, 11]);
    println!(rt; "picks of {n}")?;
    for _ in 0..3 {
        println!(rt; "{}", pick(&mut tape, n))?;
    }
    println!(rt; "next {}", tape.next())
}

/// Selections at one rate: some that stop within the three places, some that do not.
fn selections(rt: HostRuntime, rate: u64) -> io::Result<()> {
    selection(rt, PartialWriteMode::Prefix, rate, &[1, 40000, 5, 6])?;
    selection(
        rt,
        PartialWriteMode::Prefix,
        rate,
        &[65534, 65534, 65534, 6],
    )?;
    selection(rt, PartialWriteMode::Subset, rate, &[40000, 1, 1, 6])?;
    selection(rt, PartialWriteMode::Subset, rate, &[])
}

/// A selection over three places, and the word after it.
fn selection(rt: HostRuntime, mode: PartialWriteMode, rate: u64, words: &[u16]) -> io::Result<()> {
    let mut tape = Tape::new(words);
    let mut chosen = [false; 3];
    select(&mut tape, mode, rate, &mut chosen);
    println!(rt; "{mode:?} at {rate}: {chosen:?}, next {}", tape.next())
}
