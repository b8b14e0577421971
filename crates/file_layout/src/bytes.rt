// Bytes and words of a file. A byte past the end reads as 0.
ghost use Rattle.std.specs.Prelude.{◌≡◌, ◌+◌, ◌≤◌, ◌<◌, length, get_or};
ghost use Rattle.file_layout.specs.Layout.{word};

// The byte at p.
pub fn byte_at(f: &[u8], p: usize) -> usize
    ensures { (result ≡ get_or f.now p 0) × (result < 256) }
{
    f.get(p).map_or(0, |b| *b as usize)
}

// The two bytes at p as a number, low byte first.
#[tactic(auto, unfolding(crate::specs::Layout::word))]
pub fn word_at(f: &[u8], p: usize) -> u16
    requires { p + 2 ≤ length f.now }
    ensures { result ≡ word f.now p }
{
    u16::from_le_bytes([f[p], f[p + 1]])
}
