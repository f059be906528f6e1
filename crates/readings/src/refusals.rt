// The list of refusals: why a file is turned away, and where.
ghost use Rattle.readings.specs.Refusals.{number, place, refusal_text, slice_number};
ghost use Rattle.std.specs.Prelude.{◌≡◌, Some};

use std::error::Error;
use std::fmt;

// The lent slices, in the order in which their lengths are tested; `Homes` also stands for that of the changes.
#[derive(Clone, Copy, Debug, PartialEq, Eq)]
pub enum Lent {
    Sets,
    Nodes,
    Homes,
}

// Why a file is turned away, by the list's numbers from 1 to 10, each with its place.
#[derive(Clone, Copy, Debug, PartialEq, Eq)]
pub enum Refusal {
    // The number of books is missing, 0 or above 64.
    BookCount,
    // The number of places is missing or above 2,048.
    PlaceCount,
    // Not eight bytes for each place: the file's length.
    TableLength(usize),
    // A place at which a book reads 1 that is not there.
    UnknownBook(u16),
    // A tree with no nodes, or with more than places and one: their number.
    NodeCount(u16),
    // A node that hangs on one with no smaller number.
    NoSmaller(u16),
    // A book at a node that is not there, or book 0 not at node 0.
    BadHome(u8),
    // A place that changes into a node that is not there.
    BadChange(u16),
    // A tree's file that is not as long as its number of nodes asks for: its length.
    TreeLength(usize),
    // A lent slice that is too short.
    Room(Lent),
}

impl Refusal {
    // The number in the list: what is printed, and so a number.
    pub fn number(self) -> u8
        ensures { result ≡ number self }
    {
        match self {
            Refusal::BookCount => 1,
            Refusal::PlaceCount => 2,
            Refusal::TableLength(_) => 3,
            Refusal::UnknownBook(_) => 4,
            Refusal::NodeCount(_) => 5,
            Refusal::NoSmaller(_) => 6,
            Refusal::BadHome(_) => 7,
            Refusal::BadChange(_) => 8,
            Refusal::TreeLength(_) => 9,
            Refusal::Room(_) => 10,
        }
    }

    // The place in the file, or which slice, as it is printed.
    pub fn place(self) -> usize
        ensures { result ≡ place self }
    {
        match self {
            Refusal::BookCount => 0,
            Refusal::PlaceCount => 1,
            Refusal::TableLength(bytes) => bytes,
            Refusal::UnknownBook(p) => usize::from(p),
            Refusal::NodeCount(k) => usize::from(k),
            Refusal::NoSmaller(v) => usize::from(v),
            Refusal::BadHome(i) => usize::from(i),
            Refusal::BadChange(p) => usize::from(p),
            Refusal::TreeLength(bytes) => bytes,
            Refusal::Room(slice) => slice.number(),
        }
    }
}

// The line in which it is told of. By hand, as a derived text is not promised.
impl fmt::Display for Refusal {
    ghost output = { λ refusal. Some (refusal_text refusal) };

    fn fmt<W: fmt::Write>(&self, f: &mut fmt::Formatter<W>) -> fmt::Result {
        let number = self.number();
        let place = self.place();
        write!(f, "refused {number} at {place}")
    }
}

impl Error for Refusal {}

impl Lent {
    // Its number in that order, as it is printed.
    pub fn number(self) -> usize
        ensures { result ≡ slice_number self }
    {
        match self {
            Lent::Sets => 0,
            Lent::Nodes => 1,
            Lent::Homes => 2,
        }
    }
}
