// A part of the caller's file.
ghost use Rattle.std.specs.Prelude.{◌≡◌};
ghost use Rattle.file_lookup.specs.Part.{part_at};

// The k bytes at p, or the empty part where the file has not so many.
pub fn part_at<'a>(f: &'a [u8], p: usize, k: usize) -> &'a [u8]
    ensures { result.now ≡ part_at f.now p k }
{
    if f.len() < k || f.len() - k < p {
        return &f[0..0];
    }
    &f[p..p + k]
}
