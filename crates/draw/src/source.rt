//! What a draw source is, and the two draws that every other one is made of.
ghost use Rattle.std.specs.Prelude.{◌≡◌};
ghost use Rattle.draw.specs.Words.{Words, Narrow, front, rest, after, rolled, roll_taken, picked, pick_taken};

/// An endless list of words. Its meaning is the words still to come.
pub trait Source {
    ghost words: { Self → Words };

    // each word is below 65,536
    ghost narrow: { Narrow words };

    /// Takes the next word.
    fn next(&mut self) -> u16
        ensures word { result ≡ front (words self.old) }
        ensures left { words self.new ≡ rest (words self.old) };
}

// A source is the caller's and a rate one number of the call: they stay two parameters.

/// Whether the next word is below `rate`. Rate 0 says no and rate 65,536 says yes, without a word.
pub fn roll<S: Source>(source: &mut S, rate: u64) -> bool
    ensures said { result ≡ rolled rate (S.Source.words source.old) }
    ensures left { S.Source.words source.new ≡ after (roll_taken rate) (S.Source.words source.old) }
{
    match rate {
        0 => false,
        65536 => true,
        _ => u64::from(source.next()) < rate,
    }
}

/// A word modulo `n`, or 0 without a word if `n` is 0.
pub fn pick<S: Source>(source: &mut S, n: u64) -> u64
    ensures said { result ≡ picked n (S.Source.words source.old) }
    ensures left { S.Source.words source.new ≡ after (pick_taken n) (S.Source.words source.old) }
{
    if n == 0 {
        return 0;
    }
    u64::from(source.next()) % n
}
