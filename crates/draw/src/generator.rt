//! A source that makes its words from a number.
ghost use Rattle.std.specs.Prelude.{◌≡◌};
ghost use Rattle.draw.specs.Sources.{generated, generated-narrow, stepped};

use super::source::Source;

/// A shift-register generator with 64 bits of state. State 0 gives only zeros.
#[derive(Drop)]
pub struct Generator {
    state: u64,
}

impl Generator {
    /// The generator whose words begin after `state`.
    pub fn new(state: u64) -> Self
        ensures { generated result.state ≡ generated state }
    {
        Generator { state }
    }
}

/// The state that follows `s`.
fn step(s: u64) -> u64
    ensures { result ≡ stepped s }
{
    let a = s ^ (s << 13);
    let b = a ^ (a >> 7);
    b ^ (b << 17)
}

impl Source for Generator {
    ghost words = { λ g. generated g.state };

    ghost narrow = { λ g. generated-narrow g.state };

    fn next(&mut self) -> u16 {
        self.state = step(self.state);
        // no `From` between these; the cast is proved to lose nothing
        (self.state % 65536) as u16
    }
}
