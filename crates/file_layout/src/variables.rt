// The variables of a file.
ghost use Rattle.std.specs.Prelude.{◌≡◌, ◌+◌, ◌*◌, ◌≤◌, ◌<◌, length};

use crate::bytes::word_at;
use crate::file_record::FileRecord;

// The n variables of a file that stand whole from a place on.
#[derive(Clone, Copy)]
pub struct Variables<'a> {
    pub file: &'a [u8],
    pub start: usize,
    pub n: usize,
    pub ghost near: { start ≤ 8 },
    pub ghost most: { n ≤ 32 },
    pub ghost whole: { start + 4 * n ≤ length file.now },
}

impl<'a> Variables<'a> {
    ghost use Rattle.file_layout.specs.Layout.{domain_at, universal_at};

    // The domain of variable i.
    #[tactic(auto, unfolding(crate::specs::Layout::domain_at))]
    pub fn domain(&self, i: usize) -> u16
        requires { i < self.now.n }
        ensures { result ≡ domain_at self.now.file.now self.now.start i }
    {
        word_at(self.file, self.start + 4 * i + 2)
    }

    // Whether it is universal.
    #[tactic(auto, unfolding(crate::specs::Layout::universal_at))]
    pub fn is_universal(&self, i: usize) -> bool
        requires { i < self.now.n }
        ensures { result ≡ universal_at self.now.file.now self.now.start i }
    {
        let r = FileRecord {
            file: self.file,
            place: self.start + 4 * i,
        };
        r.is_marked(b"VA")
    }

    // The place behind them.
    pub fn end(&self) -> usize
        ensures { result ≡ self.now.start + 4 * self.now.n }
    {
        self.start + 4 * self.n
    }
}
