// A record in its lent book, and the records of a book one after another.
ghost use Rattle.book.specs.Reading.{Sound};

use crate::{Cursor, Place};
use values::Relocatable;

// A record of a lent book, by the place that a reader gave.
#[derive(Clone, Copy)]
pub struct Record<'a> {
    pub book: &'a [u8],
    pub place: Place,
    pub ghost sound: { Sound book.now place },
}

impl<'a> Record<'a> {
    ghost use Rattle.std.specs.Prelude.{◌≡◌, ◌≤◌, length};
    ghost use Rattle.book.specs.Reading.{Sound};
    ghost use Rattle.book.specs.Records.{record_of};

    pub fn card(self) -> u16
        ensures { result ≡ (record_of self.entry).card }
    {
        self.place.card
    }

    pub fn address(self) -> Relocatable
        ensures { result.0 ≡ (record_of self.entry).address }
    {
        self.place.address
    }

    // The offsets of its fields.
    pub fn offsets(self) -> &'a [u8]
        ensures value { result.now ≡ (record_of self.entry).fields }
        ensures few { length result.now ≤ 128 }
    {
        &self.book[self.place.fields..self.place.fields + self.place.count]
    }

    pub fn text(self) -> &'a [u8]
        ensures value { result.now ≡ (record_of self.entry).text }
        ensures short { (1 ≤ length result.now) × (length result.now ≤ 256) }
    {
        &self.book[self.place.text..self.place.text + self.place.size]
    }
}

// The records of a book, from its first to the end or to the first broken one.
#[derive(Clone, Drop)]
pub struct Records<'a> {
    book: &'a [u8],
    cursor: Cursor,
}

impl<'a> Records<'a> {
    ghost use Rattle.std.specs.Prelude.{◌≡◌};
    ghost use Rattle.book.specs.Reading.{Kept, records_in};
    ghost use Rattle.book.specs.Records.{records_left};

    pub fn of(book: &'a [u8]) -> Records<'a>
        requires { Kept book.now }
        ensures { records_left result ≡ records_in book.now }
    {
        Records {
            book,
            cursor: Cursor::first(),
        }
    }
}

impl<'a> Iterator for Records<'a> {
    ghost use Rattle.std.specs.Iterator.{YieldsFirstBy, item_count};
    ghost use Rattle.book.specs.Records.{record_of, records_left};

    type Item = Record<'a>;

    ghost next_gives = { YieldsFirstBy record_of records_left };

    ghost remaining = { item_count records_left };

    fn next(&mut self) -> Option<Record<'a>> {
        let (place, behind) = self.cursor.next(self.book).ok()??;
        self.cursor = behind;
        Some(Record {
            book: self.book,
            place,
        })
    }
}
