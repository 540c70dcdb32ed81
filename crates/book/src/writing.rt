// The head of a record, and the header of a book, laid into a lent slice.
ghost use Rattle.std.specs.Prelude.{◌≡◌, ◌+◌, ◌-◌, ◌*◌, ◌^◌, ◌≤◌, ◌<◌, length};
ghost use Rattle.std.proofs.lemmas.List.Edits.{sets};
ghost use Rattle.book.specs.Book.{record_head};
ghost use Rattle.book.specs.Writing.{record_length, head_bytes, entry_bytes, header_bytes};

use crate::RECORD_HEAD;
use values::Relocatable;
use values::words::{put_bytes, put_word};

// How long the record of a text is: there is none where it has no byte.
pub fn record_length(size: usize, count: usize) -> usize
    requires { (size ≤ 256) × (2 * count ≤ size) }
    ensures { (result ≡ record_length size count) × (result ≤ 391) }
{
    if size == 0 {
        return 0;
    }
    RECORD_HEAD + count + size
}

// Length of the record's rest, card, address, count of fields.
pub fn put_head(rest: u16, card: u16, address: u16, count: u8, m: &mut [u8], to: usize)
    requires { to + record_head ≤ length m.old }
    ensures { m.new ≡ sets m.old to (head_bytes rest card address count) }
{
    put_word(m, to, rest);
    put_word(m, to + 2, card);
    put_word(m, to + 4, address);
    m[to + 6] = count;
}

// The flag and the entry.
fn put_entry(e: Option<Relocatable>, m: &mut [u8], to: usize)
    requires { to + 3 ≤ length m.old }
    ensures { m.new ≡ sets m.old to (entry_bytes e) }
{
    match e {
        None => {
            m[to] = 0;
            put_word(m, to + 1, 0);
        }
        Some(a) => {
            m[to] = 1;
            put_word(m, to + 1, a.0);
        }
    }
}

// The length of the rest, version 1, the entry; of a book of so many bytes.
pub fn put_header(size: usize, e: Option<Relocatable>, m: &mut [u8])
    requires { (4 ≤ size) × (size < 2 ^ 32) × (8 ≤ length m.old) }
    ensures { m.new ≡ sets m.old 0 (header_bytes (size - 4) e) }
{
    let rest = size - 4;
    put_bytes(m, 0, &(rest as u32).to_be_bytes());
    m[4] = 1;
    put_entry(e, m, 5);
}
