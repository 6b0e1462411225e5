//! What a handle takes from a file.
ghost use Rattle.std.specs.Prelude.{◌≡◌, ◌-◌, length};

use content::Content;

/// What a handle takes from the file that it is opened on: its generation, its header length and a copy of its durable bytes.
#[derive(Clone, Copy)]
pub struct Opening {
    pub generation: u64,
    pub header: usize,
    pub live: Content,
}

impl Opening {
    /// The size of the file: its bytes without the header.
    pub fn size(&self) -> u64
        ensures { result ≡ length self.now.live - self.now.header }
    {
        // no `From` between these; the cast is proved to lose nothing
        self.live.len().saturating_sub(self.header) as u64
    }
}
