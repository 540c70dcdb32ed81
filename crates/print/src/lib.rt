// The printer's lines, written into a lent buffer.
#![tactic(auto)]

ghost use Rattle.std.specs.Prelude.{◌≡◌, ◌+◌, ◌*◌, ◌≤◌, ◌<◌, length};
ghost use Rattle.std.proofs.lemmas.List.Edits.{sets};
ghost use Rattle.book.specs.Reading.{records_in, Kept};
ghost use Rattle.book.specs.Records.{record_of};
ghost use Rattle.print.specs.Print.{hex_digit, column, header_line, offsets, head_columns, record_line, record_lines, book_lines, printed, where_room, offsets_length, line_length};

use book::record::{Record, Records};
use book::{Broken, REST_HEAD, read_layout};
use values::words::put_bytes;

fn digit(n: u8) -> u8
    requires { n < 16 }
    ensures { result ≡ hex_digit n }
{
    if n < 10 { b'0' + n } else { b'A' + (n - 10) }
}

// Bytes in hex, and the byte that ends the column; the place behind it.
#[tactic(auto, using(crate::proofs::Laws::column_last))]
fn put_column(m: &mut [u8], to: usize, bytes: &[u8], end: u8) -> usize
    requires { to + (2 * length bytes.now + 1) ≤ length m.old }
    ensures value { result ≡ to + (2 * length bytes.now + 1) }
    ensures m_after { m.new ≡ sets m.old to (column bytes.now end) }
{
    let mut at = to;
    for &b in bytes {
        let high = digit(b / 16);
        let low = digit(b % 16);
        m[at] = high;
        m[at + 1] = low;
        at += 2;
    }
    m[at] = end;
    at + 1
}

// The first eight bytes of the book, as a line.
fn put_header_line(m: &mut [u8], book: &[u8]) -> usize
    requires { (20 ≤ length m.old) × (8 ≤ length book.now) }
    ensures value { result ≡ 20 }
    ensures m_after { m.new ≡ sets m.old 0 (header_line book.now) }
{
    let version = put_column(m, 0, &book[0..4], b' ');
    let flag = put_column(m, version, &book[4..5], b' ');
    let entry = put_column(m, flag, &book[5..6], b' ');
    put_column(m, entry, &book[6..8], b'\n')
}

// The offsets, or - where there are none, and a blank.
#[tactic(auto, unfolding(crate::specs::Print::offsets))]
fn put_offsets(m: &mut [u8], to: usize, r: Record) -> usize
    requires { to + offsets_length (length (record_of r).fields) ≤ length m.old }
    ensures value { result ≡ to + offsets_length (length (record_of r.entry).fields) }
    ensures m_after { m.new ≡ sets m.old to (offsets (record_of r.entry).fields) }
{
    let listed = r.offsets();
    if listed.is_empty() {
        put_bytes(m, to, b"- ");
        return to + 2;
    }
    put_column(m, to, listed, b' ')
}

// Length of the record's rest, card, address, count.
fn put_head_columns(m: &mut [u8], to: usize, r: Record) -> usize
    requires { to + 18 ≤ length m.old }
    ensures value { result ≡ to + 18 }
    ensures m_after { m.new ≡ sets m.old to (head_columns (length (record_of r.entry).fields) (length (record_of r.entry).text) (record_of r.entry).card (record_of r.entry).address) }
{
    let count = r.offsets().len();
    let rest = (REST_HEAD + count + r.text().len()) as u16;
    let card = put_column(m, to, &rest.to_be_bytes(), b' ');
    let address = put_column(m, card, &r.card().to_be_bytes(), b' ');
    let last = put_column(m, address, &r.address().0.to_be_bytes(), b' ');
    put_column(m, last, &[count as u8], b' ')
}

// The line of a record.
fn put_record(m: &mut [u8], to: usize, r: Record) -> usize
    requires { to + line_length (length (record_of r).fields) (length (record_of r).text) ≤ length m.old }
    ensures value { result ≡ to + line_length (length (record_of r.entry).fields) (length (record_of r.entry).text) }
    ensures m_after { m.new ≡ sets m.old to (record_line (record_of r.entry)) }
{
    let offsets = put_head_columns(m, to, r);
    let text = put_offsets(m, offsets, r);
    put_column(m, text, r.text(), b'\n')
}

// How long the line of a record is.
fn line_length(r: Record) -> usize
    ensures { (result ≡ line_length (length (record_of r.entry).fields) (length (record_of r.entry).text)) × (result ≤ 788) }
{
    let count = r.offsets().len();
    let offsets = if count == 0 { 2 } else { 2 * count + 1 };
    18 + offsets + 2 * r.text().len() + 1
}

// How long the lines of all records are together.
fn lines_length(book: &[u8]) -> usize
    requires { Kept book.now }
    ensures { (result ≡ length (record_lines (records_in book.now))) × (result ≤ 3152000) }
{
    Records::of(book).map(line_length).sum()
}

// The lines of all records.
fn put_records(m: &mut [u8], to: usize, book: &[u8])
    requires kept { Kept book.now }
    requires room { to + length (record_lines (records_in book.now)) ≤ length m.old }
    ensures { m.new ≡ sets m.old to (record_lines (records_in book.now)) }
{
    let mut at = to;
    for r in Records::of(book) {
        at = put_record(m, at, r);
    }
}

// The lines of a book that keeps its layout, where there is room for them; how long they are.
fn print_lines(book: &[u8], out: &mut [u8]) -> usize
    requires { Kept book.now }
    ensures value { result ≡ length (book_lines book.now) }
    ensures out_after { out.new ≡ where_room (book_lines book.now) out.old }
{
    let all = 20 + lines_length(book);
    if all <= out.len() {
        let to = put_header_line(out, book);
        put_records(out, to, book);
    }
    all
}

// One line, where there is room for it; how long it is.
#[tactic(auto, unfolding(crate::specs::Print::where_room))]
fn print_line(line: &[u8], out: &mut [u8]) -> usize
    ensures value { result ≡ length line.now }
    ensures out_after { out.new ≡ where_room line.now out.old }
{
    if line.len() <= out.len() {
        put_bytes(out, 0, line);
    }
    line.len()
}

// What the printer writes for any input, where `out` has room for it; how long that is, with room or without.
#[tactic(auto, unfolding(crate::specs::Print::printed, crate::specs::Print::where_room))]
pub fn print_book(input: &[u8], out: &mut [u8]) -> usize
    ensures value { result ≡ length (printed input.now) }
    ensures out_after { out.new ≡ where_room (printed input.now) out.old }
{
    if 65536 < input.len() {
        return print_line(b"REFUSED 57\n", out);
    }
    match read_layout(input) {
        Err(Broken) => print_line(b"REFUSED 50\n", out),
        Ok(_) => print_lines(input, out),
    }
}
