// A three-way constraint of a file.
ghost use Rattle.std.specs.Prelude.{◌≡◌, ◌≤◌, ◌<◌};

use file_layout::FileRecord;

// The one whose record begins at this place.
#[derive(Clone, Copy)]
pub struct FileTernary<'a> {
    pub file: &'a [u8],
    pub place: usize,
    pub ghost near: { place ≤ 17992 },
}

impl<'a> FileTernary<'a> {
    ghost use Rattle.std.specs.Prelude.{◌+◌};
    ghost use Rattle.file_layout.specs.Layout.{body_at};
    ghost use Rattle.file_constraints.specs.Ternaries.{ternary_one, ternary_two, ternary_three, ternary_size, ternary_value};

    fn record(&self) -> FileRecord<'a>
        ensures { (result.file ≡ self.now.file) × (result.place ≡ self.now.place) }
    {
        FileRecord {
            file: self.file,
            place: self.place,
        }
    }

    // Its three variables, the lowest first.
    pub fn scope(&self) -> (usize, usize, usize)
        ensures { result ≡ (ternary_one self.now.file.now self.now.place, ternary_two self.now.file.now self.now.place, ternary_three self.now.file.now self.now.place) }
    {
        let r = self.record();
        (r.number(0), r.number(1), r.number(2))
    }

    // How many triples it has.
    pub fn size(&self) -> usize
        ensures { result ≡ ternary_size self.now.file.now self.now.place }
    {
        self.record().number(3)
    }

    // Value e of triple q; 16 behind the last triple.
    pub fn value(&self, e: usize, q: usize) -> usize
        requires { (e < 3) × (q < 16) }
        ensures { result ≡ ternary_value self.now.file.now self.now.place e q }
    {
        let r = self.record();
        if q < r.number(3) {
            r.number(3 * q + 4 + e)
        } else {
            16
        }
    }

    // The place behind it.
    pub fn end(&self) -> usize
        ensures { result ≡ self.now.place + 2 + body_at self.now.file.now self.now.place }
    {
        self.place + 2 + self.record().body()
    }
}
