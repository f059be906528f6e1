// The laws of reading that a reader of the promises wants, each the contract of a function.
ghost use Rattle.readings.specs.Statements.{KnownBits, OnlyWritten, ReadsBack, RowBits, TableBits};

// The bits of a row are the books.
#[tactic(auto, using(crate::proofs::Files::row_bits))]
pub fn row_bits_stands()
    ensures { RowBits }
{}

// A row is known exactly if no bit at or above the number of books is set.
#[tactic(auto, using(crate::proofs::Files::known_bits))]
pub fn known_bits_stands()
    ensures { KnownBits }
{}

// The table of a file is read off single bits.
#[tactic(auto, using(crate::proofs::Tables::table_bits))]
pub fn table_bits_stands()
    ensures { TableBits }
{}

// A table is read as it was written.
#[tactic(auto, using(crate::proofs::Writing::reads_back))]
pub fn reads_back_stands()
    ensures { ReadsBack }
{}

// What is read was written so.
#[tactic(auto, using(crate::proofs::Writing::only_written))]
pub fn only_written_stands()
    ensures { OnlyWritten }
{}
