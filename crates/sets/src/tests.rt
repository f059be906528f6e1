// Worked examples at the edges: one book, 64 books, the empty and the full row, book 63.
use crate::{
    are_apart, are_equal, fill, has, is_among, set_at, set_of, single, size, smallest,
    smallest_only, smallest_shared, union,
};
use readings::{Lent, Refusal, read};

const ALL: u64 = u64::MAX;

const LAST: u64 = 1 << 63;

// A row, how many books there are, and the set.
const ROWS: [(u64, u8, u64); 14] = [
    (0, 1, 0),
    (1, 1, 0),
    (0b0110, 4, 0b0110),
    (0b1001, 4, 0b0110),
    (0b110110, 4, 0b0110),
    (0b111001, 4, 0b0110),
    (LAST - 2, 63, LAST - 2),
    (1, 63, LAST - 2),
    (0, 64, 0),
    (ALL, 64, 0),
    (LAST, 64, LAST),
    (1, 64, ALL - 1),
    (ALL, 0, 0),
    (1, 65, ALL - 1),
];

#[test]
fn takes_the_set_of_a_row(rt: HostRuntime) {
    for (row, n, set) in ROWS {
        assert_eq!(rt; set_of(row, n), set);
    }
}

// A set, a book, whether it is in it, the size of the set, and the set with the book.
const BOOKS: [(u64, u8, bool, u8, u64); 9] = [
    (0, 0, false, 0, 1),
    (0, 63, false, 0, LAST),
    (0, 64, false, 0, 0),
    (LAST, 63, true, 1, LAST),
    (LAST, 62, false, 1, LAST + (1 << 62)),
    (0b0110, 1, true, 2, 0b0110),
    (0b0110, 3, false, 2, 0b1110),
    (ALL, 63, true, 64, ALL),
    (ALL, 64, false, 64, ALL),
];

#[test]
fn knows_its_books(rt: HostRuntime) {
    for (set, book, is_in, count, more) in BOOKS {
        assert_eq!(rt; has(set, book), is_in);
        assert_eq!(rt; size(set), count);
        assert_eq!(rt; union(set, single(book)), more);
    }
}

// Two sets, and whether the first is among the second, they are apart, they are equal.
const PAIRS: [(u64, u64, bool, bool, bool); 7] = [
    (0, 0, true, true, true),
    (0b0010, 0b0110, true, false, false),
    (0b0110, 0b0010, false, false, false),
    (0b0110, 0b1100, false, false, false),
    (LAST, ALL - LAST, false, true, false),
    (LAST, ALL, true, false, false),
    (ALL, ALL, true, false, true),
];

#[test]
fn compares(rt: HostRuntime) {
    for (a, b, among, apart, equal) in PAIRS {
        assert_eq!(rt; is_among(a, b), among);
        assert_eq!(rt; are_apart(a, b), apart);
        assert_eq!(rt; are_equal(a, b), equal);
    }
}

// Two sets, and the smallest book of the first, of both, of the first alone, if there is one.
const FIRSTS: [(u64, u64, Option<u8>, Option<u8>, Option<u8>); 7] = [
    (0, ALL, None, None, None),
    (1, 2, Some(0), None, Some(0)),
    (ALL, 0, Some(0), None, Some(0)),
    (0b0110, 0b1100, Some(1), Some(2), Some(1)),
    (0b0110, 0b0010, Some(1), Some(1), Some(2)),
    (LAST, LAST, Some(63), Some(63), None),
    (ALL, ALL - LAST, Some(0), Some(0), Some(63)),
];

#[test]
fn finds_the_smallest(rt: HostRuntime) {
    for (a, b, first, shared, only) in FIRSTS {
        assert_eq!(rt; smallest(a), first);
        assert_eq!(rt; smallest_shared(a, b), shared);
        assert_eq!(rt; smallest_only(a, b), only);
    }
}

// Four books and two places, at which books 1 and 2, and books 0 and 2, read 1.
const FILE: &[u8; 19] = b"\x04\x02\0\x06\0\0\0\0\0\0\0\x05\0\0\0\0\0\0\0";

// Four books and no place.
const NO_PLACES: &[u8; 3] = b"\x04\0\0";

// The set of a place of the file.
fn set_in_file(p: u16) -> Result<u64, Refusal> {
    let rows = read(FILE)?;
    Ok(set_at(rows, p))
}

// Writes the sets of a file into memory.
fn filled(file: &[u8], memory: &mut [u64]) -> Result<(), Refusal> {
    let rows = read(file)?;
    fill(rows, memory)
}

#[test]
fn takes_the_set_of_a_place(rt: HostRuntime) {
    assert_eq!(rt; set_in_file(0), Ok(0b0110));
    assert_eq!(rt; set_in_file(1), Ok(0b1010));
    assert_eq!(rt; set_in_file(2), Ok(0));
}

#[test]
fn fills_lent_memory(rt: HostRuntime) {
    let mut longer = [7; 3];
    assert_eq!(rt; filled(FILE, &mut longer), Ok(()));
    assert_eq!(rt; longer, [0b0110, 0b1010, 7]);
    let mut just = [7; 2];
    assert_eq!(rt; filled(FILE, &mut just), Ok(()));
    assert_eq!(rt; just, [0b0110, 0b1010]);
    let mut short = [7; 1];
    assert_eq!(rt; filled(FILE, &mut short), Err(Refusal::Room(Lent::Sets)));
    assert_eq!(rt; short, [7]);
    assert_eq!(rt; filled(NO_PLACES, &mut short), Ok(()));
    assert_eq!(rt; short, [7]);
}
