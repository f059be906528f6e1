// A table's file: n in one byte, m in two, the low byte first, and eight bytes for each place.
ghost use Rattle.std.specs.Prelude.{◌≡◌, ◌+◌, ◌*◌, ◌<◌, ◌≤◌, not, length, drop, IfSome, IfOk, if◌then◌else◌, Some, None, nat_eq};
ghost use Rattle.readings.specs.Bits.{little};
ghost use Rattle.readings.specs.Files.{AllKnown, books_in, bytes_of, known, no_books, no_places, places_in, reading, row_at, sizes_of, sizes_text};
ghost use Rattle.readings.specs.Tables.{contents};
ghost use Rattle.std.specs.List.{position_from};
ghost use Rattle.std.specs.Simd.{first_chunks};
ghost use Rattle.std.specs.Option.{option_copied};
ghost use Rattle.std.specs.Result.{result_map_both};

use crate::refusals::Refusal;
use crate::view::Rows;
use std::fmt;

pub const MAX_BOOKS: u8 = 64;

pub const MAX_PLACES: u16 = 2048;

const SIZES_BYTES: usize = 3;

const ROW_BYTES: usize = 8;

// How many books and places a table has. No limit is asked of them here, since `read_rows` answers for any.
#[derive(Clone, Copy, Debug, PartialEq, Eq)]
pub struct Sizes {
    pub books: u8,
    pub places: u16,
}

// By hand, as a derived text is not promised.
impl fmt::Display for Sizes {
    ghost output = { λ sizes. Some (sizes_text sizes) };

    fn fmt<W: fmt::Write>(&self, f: &mut fmt::Formatter<W>) -> fmt::Result {
        let Sizes { books, places } = *self;
        write!(f, "books {books}, places {places}")
    }
}

// The sizes of the table, both within their limits. The rows are not looked at, so that a caller may test its memory first.
pub fn read_sizes(file: &[u8]) -> Result<Sizes, Refusal>
    ensures value { result ≡ sizes_of file.now }
    ensures within { IfOk result (λ s. (0 < s.books) × (s.books ≤ 64) × (s.places ≤ 2048)) }
{
    let Some(books) = books_of(file) else {
        return Err(Refusal::BookCount);
    };
    let Some(places) = places_of(file) else {
        return Err(Refusal::PlaceCount);
    };
    Ok(Sizes { books, places })
}

// The number of books, unless it is missing or outside its limits.
fn books_of(file: &[u8]) -> Option<u8>
    ensures value { result ≡ (if no_books file.now then None else Some (books_in file.now)) }
    ensures within { IfSome result (λ n. (0 < n) × (n ≤ 64)) }
{
    let books = *file.first()?;
    (1..=MAX_BOOKS).contains(&books).then_some(books)
}

// The number of places, unless it is missing or above its limit.
fn places_of(file: &[u8]) -> Option<u16>
    ensures value { result ≡ (if no_places file.now then None else Some (places_in file.now)) }
    ensures within { IfSome result (λ m. m ≤ 2048) }
{
    let [_, low, high, ..] = file else {
        return None;
    };
    let places = u16::from_le_bytes([*low, *high]);
    (places <= MAX_PLACES).then_some(places)
}

// The bytes of the rows of a file with these sizes: eight for each place, in which no book reads 1 that is not there.
#[tactic(auto, using(crate::proofs::Files::unknown_place, crate::proofs::Files::stranger_is, crate::proofs::Files::none_unknown))]
pub fn read_rows(file: &[u8], sizes: Sizes) -> Result<&[u8], Refusal>
    ensures value { result_map_both (λ x. x.now) (λ e. e) result ≡ bytes_of file.now sizes }
    ensures whole { IfOk result (λ bytes. length bytes.now ≡ 8 * sizes.places) }
    ensures known { IfOk result (λ bytes. AllKnown sizes.books sizes.places bytes.now) }
{
    let Some(bytes) = rows_part(file, sizes.places) else {
        return Err(Refusal::TableLength(file.len()));
    };
    let Some(p) = first_stranger(bytes, sizes) else {
        return Ok(bytes);
    };
    // Below the number of places, which is a `u16`, so that the cast loses nothing.
    Err(Refusal::UnknownBook(p as u16))
}

// The whole file: the rows of its table.
pub fn read(file: &[u8]) -> Result<Rows<'_>, Refusal>
    ensures value { result_map_both contents (λ e. e) result ≡ reading file.now }
    ensures part { IfOk result (λ rows. rows.bytes.now ≡ drop 3 file.now) }
{
    let sizes = read_sizes(file)?;
    let bytes = read_rows(file, sizes)?;
    Ok(Rows { sizes, bytes })
}

// What follows the sizes, if that is eight bytes for each place.
fn rows_part(file: &[u8], places: u16) -> Option<&[u8]>
    ensures { option_copied result ≡ (if nat_eq (length file.now) (3 + 8 * places) then Some (drop 3 file.now) else None) }
{
    let bytes = file.get(SIZES_BYTES..)?;
    (bytes.len() == ROW_BYTES * usize::from(places)).then_some(bytes)
}

// The first place at which a book reads 1 that is not there, by the parts of eight bytes one after another.
fn first_stranger(bytes: &[u8], sizes: Sizes) -> Option<usize>
    requires { length bytes.now ≡ 8 * sizes.places }
    ensures value { result ≡ position_from (λ part. not (known sizes.books (little part))) 0 (first_chunks 8 sizes.places bytes.now) }
    ensures bound { IfSome result (λ p. p < sizes.places) }
{
    let (parts, _) = bytes.as_chunks::<ROW_BYTES>();
    parts
        .iter()
        .position(|part| has_stranger(row(part), sizes.books))
}

// Whether a book reads 1 in the row that is none of so many. No row has a bit past the 64th, and no shift goes that far.
#[tactic(auto, using(crate::proofs::Bits::shifted_out))]
fn has_stranger(row: u64, books: u8) -> bool
    ensures { result ≡ not (known books row) }
{
    books < MAX_BOOKS && row >> books != 0
}

// The row of the place p, whose eight bytes are a part of these.
#[tactic(auto, using(crate::proofs::Files::chunk_row))]
pub(crate) fn row_of(bytes: &[u8], p: u16) -> u64
    requires { 8 * p + 8 ≤ length bytes.now }
    ensures { result ≡ row_at bytes.now p }
{
    let (parts, _) = bytes.as_chunks::<ROW_BYTES>();
    row(&parts[usize::from(p)])
}

// The row that eight bytes write, the low byte first.
#[tactic(auto, using(crate::proofs::Bits::little_eight))]
fn row(part: &[u8; ROW_BYTES]) -> u64
    ensures { result ≡ little part.now }
{
    u64::from_le_bytes(*part)
}
