//! What a partition may be named.
ghost use Rattle.std.specs.Prelude.{◌≡◌};
ghost use Rattle.name.specs.Names.{letter, letters, is_partition};

/// The most bytes of a partition's or a file's name.
pub const NAME_LIMIT: usize = 16;

/// Whether a byte may stand in a partition's name.
pub fn is_letter(b: u8) -> bool
    ensures { result ≡ letter b }
{
    match char::from(b) {
        'a'..='z' | 'A'..='Z' | '0'..='9' | '-' | '_' => true,
        _ => false,
    }
}

/// Whether all of some bytes may stand in a partition's name.
fn are_letters(bytes: &[u8]) -> bool
    ensures { result ≡ letters bytes.now }
{
    bytes.iter().all(|b| is_letter(*b))
}

/// Whether some bytes name a partition: 1 to 16 letters, digits, hyphens or underscores.
pub fn is_partition(bytes: &[u8]) -> bool
    ensures { result ≡ is_partition bytes.now }
{
    let len = bytes.len();
    1 <= len && len <= NAME_LIMIT && are_letters(bytes)
}
