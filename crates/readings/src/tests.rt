// Worked examples: one table's file whole, and each refusal of the list for a table.
use crate::{Lent, Refusal, Sizes, read};
use std::alloc::AllocError;

// Four books and three places, whose rows have the books 1 and 2, then 2, then 3.
const FIRST: &[u8; 27] = b"\x04\x03\0\x06\0\0\0\0\0\0\0\x04\0\0\0\0\0\0\0\x08\0\0\0\0\0\0\0";

// The number of places.
fn places(file: &[u8]) -> Result<u16, Refusal> {
    let rows = read(file)?;
    Ok(rows.places())
}

// The sizes and the row of a place, through the view that spares the checks.
fn seen(file: &[u8], p: u16) -> Result<(u8, u16, u64), Refusal> {
    let rows = read(file)?;
    Ok((rows.books(), rows.places(), rows.row(p)))
}

#[test]
fn reads_the_first_table(rt: HostRuntime) {
    assert_eq!(rt; places(FIRST), Ok(3));
    assert_eq!(rt; seen(FIRST, 0), Ok((4, 3, 6)));
    assert_eq!(rt; seen(FIRST, 2), Ok((4, 3, 8)));
    assert_eq!(rt; seen(FIRST, 3), Ok((4, 3, 0)));
}

#[test]
fn refuses_sizes(rt: HostRuntime) {
    assert_eq!(rt; places(&[]), Err(Refusal::BookCount));
    assert_eq!(rt; places(&[0, 0, 0]), Err(Refusal::BookCount));
    assert_eq!(rt; places(&[65, 1, 8]), Err(Refusal::BookCount));
    assert_eq!(rt; places(&[64, 0]), Err(Refusal::PlaceCount));
    assert_eq!(rt; places(&[64, 1, 8]), Err(Refusal::PlaceCount));
}

#[test]
fn refuses_rows(rt: HostRuntime) {
    assert_eq!(rt; places(&[64, 0, 8]), Err(Refusal::TableLength(3)));
    assert_eq!(rt; places(&[64, 0, 0, 0]), Err(Refusal::TableLength(4)));
    let mut file = *FIRST;
    assert_eq!(rt; places(&file[0..26]), Err(Refusal::TableLength(26)));
    file[11] = 16;
    assert_eq!(rt; places(&file), Err(Refusal::UnknownBook(1)));
}

// Each refusal with its number and its place, in the order of the list, with a place of its own where it has one.
const LIST: [(Refusal, u8, usize); 12] = [
    (Refusal::BookCount, 1, 0),
    (Refusal::PlaceCount, 2, 1),
    (Refusal::TableLength(103), 3, 103),
    (Refusal::UnknownBook(104), 4, 104),
    (Refusal::NodeCount(105), 5, 105),
    (Refusal::NoSmaller(106), 6, 106),
    (Refusal::BadHome(107), 7, 107),
    (Refusal::BadChange(108), 8, 108),
    (Refusal::TreeLength(109), 9, 109),
    (Refusal::Room(Lent::Sets), 10, 0),
    (Refusal::Room(Lent::Nodes), 10, 1),
    (Refusal::Room(Lent::Homes), 10, 2),
];

#[test]
fn numbers_the_list(rt: HostRuntime) {
    for (refusal, number, place) in LIST {
        assert_eq!(rt; refusal.number(), number);
        assert_eq!(rt; refusal.place(), place);
    }
}

#[test]
fn prints(rt: HostRuntime) -> Result<(), AllocError> {
    let sizes = Sizes {
        books: 4,
        places: 3,
    };
    assert_eq!(rt; sizes.to_string(rt.alloc())?.as_str(), "books 4, places 3");
    let refusal = Refusal::UnknownBook(1);
    assert_eq!(rt; refusal.to_string(rt.alloc())?.as_str(), "refused 4 at 1");
    Ok(())
}
