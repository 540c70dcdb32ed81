// Loading a book: 50, 51 and 52, each over the whole book before the next; then storing, record by record.
#![tactic(auto)]

ghost use Rattle.std.specs.Prelude.{◌≡◌, ◌≤◌, ◌<◌, unwrap_or, IfSome};
ghost use Rattle.book.specs.Reading.{layout_of, records_in, Kept};
ghost use Rattle.book.specs.Records.{record_of};
ghost use Rattle.fields.specs.Fields.{over_field};
ghost use Rattle.load.specs.Load.{Answers, first_card, outside, room_in, stored_all, bytes_stored, judged, loading};

use book::record::{Record, Records};
use book::{Broken, read_layout};
use fields::{over_field, put_moved};
use values::{Displacement, Relocatable};

// What a load has stored: how many bytes, and the entry plus the displacement.
#[derive(Clone, Copy, Debug, PartialEq, Eq)]
pub struct Stored {
    pub bytes: u32,
    pub entry: Option<Relocatable>,
}

// Why a load is refused.
#[derive(Clone, Copy, Debug, PartialEq, Eq)]
pub enum LoadError {
    // 50: the book breaks its layout.
    Broken,
    // 51: text outside storage, and the card of the first such record.
    Outside(u16),
    // 52: a field or the entry, moved, is over; the card of the first such record, 0 for the entry alone.
    Over(u16),
}

impl From<Broken> for LoadError {
    ghost use Rattle.std.specs.Prelude.{◌≡◌};
    ghost use Rattle.load.specs.declared.LoadError.TheVariants as error;

    ghost from_gives = { λ _ e. e ≡ error.Broken };

    fn from(_: Broken) -> LoadError {
        LoadError::Broken
    }
}

// How many bytes of storage count.
fn room_of(storage: &[u8]) -> usize
    ensures { result ≡ room_in storage.now }
{
    storage.len().min(65536)
}

// 51: whether the record's text, moved, lies outside so many bytes.
fn is_outside(r: Record, d: Displacement, room: usize) -> bool
    ensures { result ≡ outside d room (record_of r.entry) }
{
    match r.address().plus(d) {
        None => true,
        Some(address) => room < usize::from(address.0) + r.text().len(),
    }
}

// The card of the first record that fails a test, where one does.
fn first_failing<F: Fn(Record) -> bool>(book: &[u8], fails: F) -> Option<u16>
    requires kept { Kept book.now }
    requires callable { F.IsAlwaysCallable fails }
    ensures card { (test : _) → Answers (F.post fails) test → unwrap_or result 0 ≡ first_card test (records_in book.now) }
    ensures some_card { IfSome result (λ card. 0 < card) }
{
    Records::of(book).find(|r| fails(*r)).map(|r| r.card())
}

// Every record in order, its fields moved; how many bytes that is.
fn store_all(book: &[u8], d: Displacement, m: &mut [u8]) -> usize
    requires kept { Kept book.now }
    requires none_outside { first_card (outside d (room_in m.old)) (records_in book.now) ≡ 0 }
    ensures value { (result ≡ bytes_stored (records_in book.now)) × (result ≤ 1024000) }
    ensures m_after { m.new ≡ stored_all d (records_in book.now) m.old }
{
    let mut count = 0;
    for r in Records::of(book) {
        if let Some(address) = r.address().plus(d) {
            put_moved(r, d, m, usize::from(address.0));
        }
        count += r.text().len();
    }
    count
}

// A book that keeps its layout, with its entry.
#[tactic(auto, unfolding(crate::specs::Load::judged))]
fn load_whole(
    book: &[u8],
    entry: Option<Relocatable>,
    d: Displacement,
    storage: &mut [u8],
) -> Result<Stored, LoadError>
    requires { Ok entry ≡ layout_of book.now }
    ensures value { result ≡ (judged entry d (records_in book.now) storage.old).answer }
    ensures storage_after { storage.new ≡ (judged entry d (records_in book.now) storage.old).storage }
{
    let room = room_of(storage);
    if let Some(card) = first_failing(book, |r| is_outside(r, d, room)) {
        return Err(LoadError::Outside(card));
    }
    if let Some(card) = first_failing(book, |r| over_field(r, d)) {
        return Err(LoadError::Over(card));
    }
    let moved = match entry {
        None => None,
        Some(start) => Some(start.plus(d).ok_or(LoadError::Over(0))?),
    };
    Ok(Stored {
        bytes: store_all(book, d, storage) as u32,
        entry: moved,
    })
}

// Any book, displacement and storage.
pub fn load_book(book: &[u8], d: Displacement, storage: &mut [u8]) -> Result<Stored, LoadError>
    ensures value { result ≡ (loading book.now d storage.old).answer }
    ensures storage_after { storage.new ≡ (loading book.now d storage.old).storage }
{
    let entry = read_layout(book)?;
    load_whole(book, entry, d, storage)
}
