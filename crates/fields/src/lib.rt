// The listed fields of a record's text, moved by a displacement.
#![tactic(auto)]

ghost use Rattle.std.specs.Prelude.{◌≡◌, ◌+◌, ◌≤◌, length};
ghost use Rattle.std.proofs.lemmas.List.Edits.{sets};
ghost use Rattle.values.specs.Values.{moved_by};
ghost use Rattle.book.specs.Records.{record_of};
ghost use Rattle.fields.specs.Fields.{field_in, over_field, moved_text};

use book::record::Record;
use values::words::{put_bytes, put_word, word_at};
use values::{Displacement, Relocatable};

// The field at an offset of a text, moved.
pub fn moved_field(text: &[u8], offset: usize, d: Displacement) -> Option<Relocatable>
    requires { offset + 2 ≤ length text.now }
    ensures { result ≡ moved_by d (field_in text.now offset) }
{
    Relocatable(word_at(text, offset)).plus(d)
}

// 52: whether a listed field, moved, is over.
pub fn over_field(r: Record, d: Displacement) -> bool
    ensures { result ≡ over_field d (record_of r.entry) }
{
    let text = r.text();
    r.offsets().iter().any(|&offset| moved_field(text, usize::from(offset), d).is_none())
}

// The record's text, its listed fields moved, laid over m from `to` on.
pub fn put_moved(r: Record, d: Displacement, m: &mut [u8], to: usize)
    requires { to + length (record_of r).text ≤ length m.old }
    ensures { m.new ≡ sets m.old to (moved_text d (record_of r.entry)) }
{
    let text = r.text();
    put_bytes(m, to, text);
    for &byte in r.offsets() {
        let offset = usize::from(byte);
        if let Some(moved) = moved_field(text, offset, d) {
            put_word(m, to + offset, moved.0);
        }
    }
}
