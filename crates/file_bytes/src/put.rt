// Two bytes of a record, put at a place of the buffer.
ghost use Rattle.std.specs.Prelude.{◌≡◌, ◌+◌, ◌≤◌, length};
ghost use Rattle.buffer.specs.Stored.{stored};
ghost use Rattle.file_bytes.specs.Bytes.{mark_bytes, word_bytes};

// A mark, or a pair.
pub fn put_two(buf: &mut [u8], at: usize, two: [u8; 2])
    requires { at + 2 ≤ length buf.old }
    ensures { buf.new ≡ stored buf.old at (mark_bytes two) }
{
    buf[at] = two[0];
    buf[at + 1] = two[1];
}

// A number of two bytes, the low byte first.
pub fn put_word(buf: &mut [u8], at: usize, w: u16)
    requires { at + 2 ≤ length buf.old }
    ensures { buf.new ≡ stored buf.old at (word_bytes w) }
{
    put_two(buf, at, w.to_le_bytes());
}
