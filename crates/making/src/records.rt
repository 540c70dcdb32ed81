// The record of what a card makes, laid into a lent slice.
ghost use Rattle.std.specs.Prelude.{◌≡◌, true, ◌+◌, ◌^◌, ◌≤◌, ◌<◌, length};
ghost use Rattle.std.proofs.lemmas.List.Edits.{sets};
ghost use Rattle.book.specs.Book.{record_head};
ghost use Rattle.book.specs.Writing.{record_bytes};
ghost use Rattle.encode.specs.Pieces.{text_of};
ghost use Rattle.passes.specs.Two.{record_of_pieces};
ghost use Rattle.making.specs.Steps.{text_pieces, text_length, text_fields, made_length, made_record, laid_if, TextFits, MadeFits};

use crate::{Made, Text};
use book::writing::{put_head, record_length};
use book::{RECORD_HEAD, REST_HEAD};
use data::sizes::data_size;
use data::text::put_constant;
use encode::{field_count, put_fields, put_text, text_size};

// How many bytes a text has.
fn text_length(t: Text) -> usize
    ensures { result ≡ text_length t }
{
    match t {
        Text::Columns(d) => data_size(d),
        Text::Stated(st) => text_size(st),
    }
}

// How many relocatable fields it has: a constant of type C, X or D none.
fn text_count(t: Text) -> usize
    ensures { result ≡ length (text_fields t) }
{
    match t {
        Text::Columns(_) => 0,
        Text::Stated(st) => field_count(st),
    }
}

fn put_text_fields(t: Text, m: &mut [u8], to: usize)
    requires { (text_length t ≤ 256) × (to + length (text_fields t) ≤ length m.old) }
    ensures { m.new ≡ sets m.old to (text_fields t) }
{
    match t {
        Text::Columns(_) => {}
        Text::Stated(st) => put_fields(st, m, to),
    }
}

fn put_text_bytes(t: Text, o: &[u8], m: &mut [u8], to: usize)
    requires text_fits { TextFits t o.now }
    requires room { to + text_length t ≤ length m.old }
    ensures { m.new ≡ sets m.old to (text_of (text_pieces t o.now)) }
{
    match t {
        Text::Columns(d) => put_constant(o, d, m, to),
        Text::Stated(st) => put_text(st, m, to),
    }
}

// The record of a text that has a byte.
fn put_record(t: Text, o: &[u8], card: u16, address: u32, m: &mut [u8], to: usize)
    requires text_fits { TextFits t o.now }
    requires room { to + (record_head + length (text_fields t) + text_length t) ≤ length m.old }
    ensures { m.new ≡ sets m.old to (record_bytes (record_of_pieces card address (text_pieces t o.now))) }
{
    let size = text_length(t);
    let count = text_count(t);
    let fields = to + RECORD_HEAD;
    let text = fields + count;
    put_head(
        (REST_HEAD + count + size) as u16,
        card,
        (address % 65536) as u16,
        count as u8,
        m,
        to,
    );
    put_text_fields(t, m, fields);
    put_text_bytes(t, o, m, text);
}

// The place behind the record of a card, if it makes a byte; where the pass writes, that record is laid.
pub fn put_made(
    x: Made,
    s: &[u8],
    card: u16,
    address: u32,
    writes: bool,
    m: &mut [u8],
    to: usize,
) -> usize
    requires made_fits { MadeFits x s.now × (to + 391 < 2 ^ 32) }
    requires room { writes ≡ true → to + made_length x ≤ length m.old }
    ensures value { (result ≡ to + made_length x) × (result ≤ to + 391) }
    ensures m_after { m.new ≡ sets m.old to (laid_if writes (made_record card address x s.now)) }
{
    let size = text_length(x.text);
    if writes && size != 0 {
        put_record(x.text, &s[x.from..x.end], card, address, m, to);
    }
    to + record_length(size, text_count(x.text))
}
