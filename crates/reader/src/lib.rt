// R16.10, the book reader: the lent book and how far it has been read; each step is a record.
#![tactic(auto)]

ghost use Rattle.std.specs.Prelude.{◌≡◌};
ghost use Rattle.book.specs.Reading.{step_at};

use book::{Broken, Cursor, Place};

// The lent book, and the place that its reader has got to.
#[derive(Clone, Copy)]
pub struct BookReader<'a> {
    pub book: &'a [u8],
    pub place: Cursor,
}

impl<'a> BookReader<'a> {
    // A reader at the first record. It doesn't look at the header.
    pub fn open(book: &'a [u8]) -> BookReader<'a>
        ensures { (result.book ≡ book.entry) × (result.place.at ≡ 8) × (result.place.card ≡ 0) }
    {
        BookReader {
            book,
            place: Cursor::first(),
        }
    }

    // The record at the reader's place, with the place behind it; the end, or a broken layout.
    pub fn step(self) -> Result<Option<(Place, Cursor)>, Broken>
        ensures { result ≡ step_at self.entry.book.now self.entry.place.at self.entry.place.card }
    {
        self.place.next(self.book)
    }

    // The reader of the same book, at another place.
    pub fn moved(self, place: Cursor) -> BookReader<'a>
        ensures { (result.book ≡ self.entry.book) × (result.place ≡ place) }
    {
        BookReader {
            book: self.book,
            place,
        }
    }
}

// The first record of a book, for a caller with a plain slice.
pub fn first_record(book: &[u8]) -> Result<Option<(Place, Cursor)>, Broken>
    ensures { result ≡ step_at book.now 8 0 }
{
    BookReader::open(book).step()
}

// The record at a place of a book, for a caller with a plain slice that goes on from record to record.
pub fn record_at(book: &[u8], place: Cursor) -> Result<Option<(Place, Cursor)>, Broken>
    ensures { result ≡ step_at book.now place.at place.card }
{
    BookReader::open(book).moved(place).step()
}
