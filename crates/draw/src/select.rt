//! Selections: which of a row of places a draw chooses.
ghost use Rattle.std.specs.Prelude.{◌≡◌, false, length, if◌then◌else◌};
ghost use Rattle.draw.specs.Selections.{prefix as the_prefix, prefix_taken, subset as the_subset, subset_taken, selected, select_taken};
ghost use Rattle.draw.specs.Words.{after, rolled, roll_taken};

use super::source::{Source, roll};

/// What a partial write keeps of its places.
#[derive(Clone, Copy, PartialEq, Eq, Debug)]
pub enum PartialWriteMode {
    /// The places before the first one that a roll refuses.
    Prefix,
    /// Each place that its own roll takes.
    Subset,
}

/// Draws which places are chosen: a flag for each place of `chosen`.
pub fn select<S: Source>(source: &mut S, mode: PartialWriteMode, rate: u64, chosen: &mut [bool])
    ensures flags { chosen.new ≡ selected mode rate (length chosen.old) (S.Source.words source.old) }
    ensures left { S.Source.words source.new ≡ after (select_taken mode rate (length chosen.old) (S.Source.words source.old)) (S.Source.words source.old) }
{
    // a mode is data: a log entry keeps it
    match mode {
        PartialWriteMode::Prefix => prefix(source, rate, chosen),
        PartialWriteMode::Subset => subset(source, rate, chosen),
    }
}

// Two loops, since one stops drawing at the first no and the other never.

/// Rolls for each place until the first no, and chooses the places before it.
#[tactic(auto, using(crate::proofs::Flags::turns))]
fn prefix<S: Source>(source: &mut S, rate: u64, chosen: &mut [bool])
    ensures flags { chosen.new ≡ the_prefix rate (length chosen.old) (S.Source.words source.old) }
    ensures left { S.Source.words source.new ≡ after (prefix_taken rate (length chosen.old) (S.Source.words source.old)) (S.Source.words source.old) }
{
    let mut going = true;
    for flag in chosen.iter_mut() {
        going = roll_on(source, going, rate);
        *flag = going;
    }
}

/// Rolls while no roll has said no; after that it says no, without a word.
fn roll_on<S: Source>(source: &mut S, going: bool, rate: u64) -> bool
    ensures said { result ≡ (if going then rolled rate (S.Source.words source.old) else false) }
    ensures left { S.Source.words source.new ≡ after (if going then roll_taken rate else 0) (S.Source.words source.old) }
{
    going && roll(source, rate)
}

/// Chooses each place by a roll of its own.
#[tactic(auto, using(crate::proofs::Flags::turns))]
fn subset<S: Source>(source: &mut S, rate: u64, chosen: &mut [bool])
    ensures flags { chosen.new ≡ the_subset rate (length chosen.old) (S.Source.words source.old) }
    ensures left { S.Source.words source.new ≡ after (subset_taken rate (length chosen.old)) (S.Source.words source.old) }
{
    for flag in chosen.iter_mut() {
        *flag = roll(source, rate);
    }
}
