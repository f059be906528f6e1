// Worked examples: small tables with a conflict and without, the edges of the search, and lent memory.
use crate::{Conflict, cross, first_conflict, first_in_file};
use readings::{Lent, Refusal};

// The conflict of the places p and q by three books.
fn found(p: usize, q: usize, both: u8, one: u8, two: u8) -> Option<Conflict> {
    Some(Conflict {
        p,
        q,
        both,
        one,
        two,
    })
}

#[test]
fn finds_the_first(rt: HostRuntime) {
    assert_eq!(rt; first_conflict(&[0b0110, 0b1100], 4), found(0, 1, 2, 1, 3));
    assert_eq!(rt; first_conflict(&[0b0110, 0b1010], 4), found(0, 1, 1, 2, 3));
    assert_eq!(rt;
        first_conflict(&[0b01110, 0b11100, 0b00100], 5),
        found(0, 1, 2, 1, 4)
    );
    assert_eq!(rt;
        first_conflict(&[0b1110, 0b0110, 0b1100], 4),
        found(1, 2, 2, 1, 3)
    );
    assert_eq!(rt;
        first_conflict(&[0b0110, 0b1000, 0b1100, 0b10100], 5),
        found(0, 2, 2, 1, 3)
    );
    assert_eq!(rt;
        first_conflict(&[3 << 62, 5 << 61], 64),
        found(0, 1, 63, 62, 61)
    );
}

// The sets of some places without a conflict, and how many books there are.
const CLEAN: [(&[u64], u8); 5] = [
    (&[0b0110, 0b0100, 0b1000], 4),
    (&[], 3),
    (&[0], 3),
    (&[0b11110, 0b00110, 0b11000, 0b00110], 5),
    (&[0b10, 0b100, 0b1000, 0b110000, 0b100000], 6),
];

#[test]
fn finds_none(rt: HostRuntime) {
    for (sets, n) in CLEAN {
        assert_eq!(rt; first_conflict(sets, n), None);
    }
}

// Books from n on do not count; book 0 does, where a set holds it.
#[test]
fn keeps_to_the_books(rt: HostRuntime) {
    assert_eq!(rt; first_conflict(&[0b0110, 0b1100], 3), None);
    assert_eq!(rt; first_conflict(&[0b0110, 0b1100], 0), None);
    assert_eq!(rt;
        first_conflict(&[0b0110, 0b1100], 255),
        found(0, 1, 2, 1, 3)
    );
    assert_eq!(rt; first_conflict(&[0b0011, 0b0110], 4), found(0, 1, 1, 0, 2));
}

// Two sets, and whether they cross.
const PAIRS: [(u64, u64, bool); 7] = [
    (0b0110, 0b1100, true),
    (0b0110, 0b0100, false),
    (0b0100, 0b0110, false),
    (0b0110, 0b1000, false),
    (0b0110, 0b0110, false),
    (0, u64::MAX, false),
    (u64::MAX - 1, u64::MAX >> 1, true),
];

#[test]
fn crosses(rt: HostRuntime) {
    for (a, b, crossing) in PAIRS {
        assert_eq!(rt; cross(a, b), crossing);
    }
}

// Four books and two places, at which books 1 and 2, and books 0 and 1, read 1.
const FILE: &[u8; 19] = b"\x04\x02\0\x06\0\0\0\0\0\0\0\x03\0\0\0\0\0\0\0";

#[test]
fn searches_a_file(rt: HostRuntime) {
    let file = *FILE;
    let mut sets = [0b1010; 3];
    assert_eq!(rt; first_in_file(&file, &mut sets), Ok(found(0, 1, 2, 1, 3)));
    assert_eq!(rt; sets, [0b0110, 0b1100, 0b1010]);
    assert_eq!(rt;
        first_in_file(&file[0..3], &mut sets),
        Err(Refusal::TableLength(3))
    );
    assert_eq!(rt;
        first_in_file(&file[0..2], &mut sets),
        Err(Refusal::PlaceCount)
    );
    assert_eq!(rt; sets, [0b0110, 0b1100, 0b1010]);
}

// Four books and one place, at which books 1 and 2 read 1.
const ONE_PLACE: &[u8; 11] = b"\x04\x01\0\x06\0\0\0\0\0\0\0";

// What lies in memory after the sets does not count, and nothing has to.
#[test]
fn keeps_to_the_places(rt: HostRuntime) {
    let mut longer = [0b1100; 2];
    assert_eq!(rt; first_in_file(ONE_PLACE, &mut longer), Ok(None));
    assert_eq!(rt; longer, [0b0110, 0b1100]);
    let mut just = [7; 1];
    assert_eq!(rt; first_in_file(ONE_PLACE, &mut just), Ok(None));
    assert_eq!(rt; just, [0b0110]);
}

// Want of room is told of before the rows are looked at.
#[test]
fn asks_for_room(rt: HostRuntime) {
    let file = *FILE;
    let mut sets = [7; 1];
    assert_eq!(rt;
        first_in_file(&file, &mut sets),
        Err(Refusal::Room(Lent::Sets))
    );
    assert_eq!(rt;
        first_in_file(&file[0..3], &mut sets),
        Err(Refusal::Room(Lent::Sets))
    );
    assert_eq!(rt;
        first_in_file(&file[0..1], &mut sets),
        Err(Refusal::PlaceCount)
    );
    assert_eq!(rt; sets, [7]);
}
