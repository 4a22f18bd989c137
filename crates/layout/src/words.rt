// Little-endian words.
ghost use Rattle.std.specs.Prelude.{◌≡◌, ◌+◌, ◌≤◌, length};
ghost use Rattle.layout.specs.Words.{word};

// The word that begins at a place of some bytes.
pub(crate) fn word_at(bytes: &[u8], place: usize) -> u32
    requires { place + 4 ≤ length bytes.now }
    ensures { result ≡ word bytes.now place }
{
    let word = bytes[place..].first_chunk::<4>().unwrap();
    u32::from_le_bytes(*word)
}
