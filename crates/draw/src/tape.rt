//! A source that gives the caller's words.
ghost use Rattle.std.specs.Prelude.{◌≡◌};
ghost use Rattle.draw.specs.Sources.{Short, tape_words, tape-narrow};

use super::source::Source;

/// The caller's words, then 65,535 for ever.
#[derive(Drop)]
pub struct Tape<'a> {
    words: &'a [u16],
    ghost short: { Short words.now },
}

impl<'a> Tape<'a> {
    pub fn new(words: &'a [u16]) -> Self
        ensures { tape_words result.words.now ≡ tape_words words.now }
    {
        Tape { words }
    }
}

impl<'a> Source for Tape<'a> {
    ghost words = { λ t. tape_words t.words.now };

    ghost narrow = { λ t. tape-narrow t.words.now t.short };

    fn next(&mut self) -> u16 {
        match self.words.split_first() {
            Some((first, others)) => {
                self.words = others;
                *first
            }
            None => 65535,
        }
    }
}
