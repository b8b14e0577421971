// A record of a file.
ghost use Rattle.std.specs.Prelude.{◌≡◌, ◌+◌, ◌≤◌, ◌<◌, length, get_or};

use crate::bytes::{byte_at, word_at};
use crate::numbers::pair_of;
use refusal::{Fault, Reason, needed};

// The record that begins at this place of the file, which may end before it.
#[derive(Clone, Copy)]
pub struct FileRecord<'a> {
    pub file: &'a [u8],
    pub place: usize,
    pub ghost near: { place ≤ 65535 },
}

impl<'a> FileRecord<'a> {
    ghost use Rattle.file_layout.specs.Layout.{word, marked, opened, pair_at, number_at, body_at};

    // How every record begins: room for a mark, a mark that may stand here, a whole body of k bytes.
    pub fn opened(&self, right: bool, k: usize) -> Result<(), Fault>
        requires { k ≤ 800 }
        ensures { result ≡ opened self.now.file.now self.now.place right k }
    {
        let p = self.place;
        let f = self.file;
        needed(p + 2 <= f.len(), Reason::Short.at(p))?;
        needed(right, Reason::Mark.at(p))?;
        needed(p + 2 + k <= f.len(), Reason::Short.at(p))
    }

    // Whether it has this mark.
    #[tactic(auto, unfolding(crate::specs::Layout::marked))]
    pub fn is_marked(&self, mark: &[u8; 2]) -> bool
        ensures { result ≡ marked self.now.file.now self.now.place mark.now }
    {
        let f = self.file;
        let p = self.place;
        p + 2 <= f.len() && f[p] == mark[0] && f[p + 1] == mark[1]
    }

    // Its byte k.
    pub fn byte(&self, k: usize) -> usize
        requires { k ≤ 800 }
        ensures { (result ≡ get_or self.now.file.now (self.now.place + k) 0) × (result < 256) }
    {
        byte_at(self.file, self.place + k)
    }

    // The two bytes from its byte k on as a number.
    pub fn word(&self, k: usize) -> u16
        requires { self.now.place + k + 2 ≤ length self.now.file.now }
        ensures { result ≡ word self.now.file.now (self.now.place + k) }
    {
        word_at(self.file, self.place + k)
    }

    // Number x of a three-way constraint.
    #[tactic(auto, unfolding(crate::specs::Layout::number_at))]
    pub fn number(&self, x: usize) -> usize
        requires { x ≤ 700 }
        ensures { (result ≡ number_at self.now.file.now self.now.place x) × (result < 256) }
    {
        byte_at(self.file, self.place + 2 + x)
    }

    // How long the body of a three-way constraint is.
    pub fn body(&self) -> usize
        ensures { (result ≡ body_at self.now.file.now self.now.place) × (result ≤ 769) }
    {
        4 + 3 * self.number(3)
    }

    // The pair of a constraint as one number.
    #[tactic(auto, unfolding(crate::specs::Layout::pair_at, crate::specs::Numbers::pair_of))]
    pub fn pair(&self) -> usize
        ensures { (result ≡ pair_at self.now.file.now self.now.place) × (result < 8448) }
    {
        pair_of(self.byte(2), self.byte(3))
    }
}
