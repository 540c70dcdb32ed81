// R16, the book: its header, and its records read one at a time.
#![tactic(auto)]

pub mod record;
pub mod writing;

ghost use Rattle.std.specs.Prelude.{◌≡◌, ◌+◌, ◌<◌};
ghost use Rattle.book.specs.Book.{fields_fit};
ghost use Rattle.book.specs.Reading.{step_at, header_of, layout_of};

use values::Relocatable;
use values::words::{long_at, word_at};

// The bytes of a record's head that its length counts: card, address, count of fields.
pub const REST_HEAD: usize = 5;

// The bytes of the whole head, with the two of the length: behind it the offsets stand.
pub const RECORD_HEAD: usize = 7;

// A book that breaks its layout.
#[derive(Clone, Copy, Debug, PartialEq, Eq)]
pub struct Broken;

// Where the parts of a record stand in the book, with its card and address.
#[derive(Clone, Copy, Debug, PartialEq, Eq)]
pub struct Place {
    pub card: u16,
    pub address: Relocatable,
    pub fields: usize,
    pub count: usize,
    pub text: usize,
    pub size: usize,
}

// The place that a reader has got to, and the card of the record before it.
#[derive(Clone, Copy, Debug, PartialEq, Eq)]
pub struct Cursor {
    pub at: usize,
    pub card: u16,
}

// Offsets that ascend by at least 2, each with its two bytes inside a text of `size` bytes.
#[tactic(auto, unfolding(crate::specs::Book::fields_fit))]
pub fn fields_fit(offsets: &[u8], size: usize) -> bool
    ensures { result ≡ fields_fit 0 size offsets.now }
{
    let mut least = 0;
    for &byte in offsets {
        let offset = usize::from(byte);
        if offset < least {
            return false;
        }
        if size < offset + 2 {
            return false;
        }
        least = offset + 2;
    }
    true
}

impl Cursor {
    // Behind the header.
    pub fn first() -> Self
        ensures { (result.at ≡ 8) × (result.card ≡ 0) }
    {
        Cursor { at: 8, card: 0 }
    }

    // The record at the cursor, the end, or a broken layout.
    #[tactic(auto, unfolding(crate::specs::Reading::step_at, crate::specs::Book::record_ok, crate::specs::Book::fair))]
    pub fn next(self, book: &[u8]) -> Result<Option<(Place, Cursor)>, Broken>
        ensures { result ≡ step_at book.now self.at self.card }
    {
        let at = self.at;
        let last = self.card;
        if at == book.len() {
            return Ok(None);
        }
        if book.len() <= at {
            return Err(Broken);
        }
        if book.len() < at + 8 {
            return Err(Broken);
        }
        let rest = usize::from(word_at(book, at));
        let behind = at + 2 + rest;
        if book.len() < behind {
            return Err(Broken);
        }
        let count = usize::from(book[at + 6]);
        if rest <= REST_HEAD + count {
            return Err(Broken);
        }
        let size = rest - (REST_HEAD + count);
        if 256 < size {
            return Err(Broken);
        }
        let card = word_at(book, at + 2);
        if card <= last {
            return Err(Broken);
        }
        if 4000 < card {
            return Err(Broken);
        }
        let address = word_at(book, at + 4);
        if 65536 < usize::from(address) + size {
            return Err(Broken);
        }
        let fields = at + RECORD_HEAD;
        let text = fields + count;
        if !fields_fit(&book[fields..text], size) {
            return Err(Broken);
        }
        let place = Place {
            card,
            address: Relocatable(address),
            fields,
            count,
            text,
            size,
        };
        Ok(Some((place, Cursor { at: behind, card })))
    }
}

// The header alone: it says nothing of the records.
#[tactic(auto, unfolding(crate::specs::Book::header_ok, crate::specs::Book::entry_at))]
fn read_header(book: &[u8]) -> Result<Option<Relocatable>, Broken>
    ensures { result ≡ header_of book.now }
{
    if book.len() < 8 {
        return Err(Broken);
    }
    if long_at(book, 0) + 4 != book.len() {
        return Err(Broken);
    }
    if book[4] != 1 {
        return Err(Broken);
    }
    match (book[5], word_at(book, 6)) {
        (0, 0) => Ok(None),
        (1, entry) => Ok(Some(Relocatable(entry))),
        _ => Err(Broken),
    }
}

// The whole book: its header and every record.
pub fn read_layout(book: &[u8]) -> Result<Option<Relocatable>, Broken>
    ensures { result ≡ layout_of book.now }
{
    let entry = read_header(book)?;
    let mut cursor = Cursor::first();
    while let Some((_, behind)) = cursor.next(book)? {
        cursor = behind;
    }
    Ok(entry)
}
