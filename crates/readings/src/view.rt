// The rows of a table where they lie in its file.
ghost use Rattle.std.specs.Prelude.{◌≡◌, ◌*◌, ◌^◌, ◌<◌, ◌≤◌, length, if◌then◌else◌, nat_lt};
ghost use Rattle.readings.specs.Files.{AllKnown, row_at};

use crate::file::{Sizes, row_of};

// The readings of a table that was taken: whoever holds them need check nothing again.
#[derive(Clone, Copy, Debug)]
pub struct Rows<'a> {
    pub sizes: Sizes,
    // Eight for each place.
    pub bytes: &'a [u8],
    ghost some: { 0 < sizes.books },
    ghost few: { sizes.books ≤ 64 },
    ghost short: { sizes.places ≤ 2048 },
    ghost whole: { length bytes.now ≡ 8 * sizes.places },
    ghost known: { AllKnown sizes.books sizes.places bytes.now },
}

impl Rows<'_> {
    // How many books there are, from 1 to 64.
    pub fn books(self) -> u8
        ensures { result ≡ self.entry.sizes.books }
    {
        self.sizes.books
    }

    // How many places there are, at most 2,048.
    pub fn places(self) -> u16
        ensures { result ≡ self.entry.sizes.places }
    {
        self.sizes.places
    }

    // The row of the place p: bit i is what book i reads, for the books that there are. Past the last place none reads 1.
    pub fn row(self, p: u16) -> u64
        ensures value { result ≡ (if nat_lt p self.entry.sizes.places then row_at self.entry.bytes.now p else 0) }
        ensures known { result < 2 ^ self.entry.sizes.books }
    {
        if p >= self.places() {
            return 0;
        }
        row_of(self.bytes, p)
    }
}
