// Numbers of two and four bytes, the higher byte first, and runs of bytes, read from and written to lent slices.
ghost use Rattle.std.specs.Prelude.{◌≡◌, ◌+◌, ◌≤◌, ◌<◌, length};
ghost use Rattle.std.proofs.lemmas.List.Edits.{sets};
ghost use Rattle.values.specs.Words.{word, long, two_bytes};

#[tactic(auto, unfolding(crate::specs::Words::word))]
pub fn word_at(s: &[u8], at: usize) -> u16
    requires { at + 2 ≤ length s.now }
    ensures { result ≡ word s.now at }
{
    u16::from_be_bytes([s[at], s[at + 1]])
}

#[tactic(auto, unfolding(crate::specs::Words::word, crate::specs::Words::long))]
pub fn long_at(s: &[u8], at: usize) -> usize
    requires { at + 4 ≤ length s.now }
    ensures { (result ≡ long s.now at) × (result < 4294967296) }
{
    u32::from_be_bytes([s[at], s[at + 1], s[at + 2], s[at + 3]]) as usize
}

pub fn put_word(m: &mut [u8], at: usize, w: u16)
    requires { at + 2 ≤ length m.old }
    ensures { m.new ≡ sets m.old at (two_bytes w) }
{
    put_bytes(m, at, &w.to_be_bytes());
}

// The bytes of a run laid over a slice from a place on.
pub fn put_bytes(m: &mut [u8], at: usize, bytes: &[u8])
    requires { at + length bytes.now ≤ length m.old }
    ensures { m.new ≡ sets m.old at bytes.now }
{
    for i in 0..bytes.len() {
        m[at + i] = bytes[i];
    }
}
