// The text of a constant of type C, X or D, laid into a lent slice.
ghost use Rattle.std.specs.Prelude.{◌≡◌, ◌+◌, ◌*◌, ◌≤◌, ◌<◌, ◌^◌, length, replicate};
ghost use Rattle.std.proofs.lemmas.List.Edits.{sets};
ghost use Rattle.data.specs.Sizes.{half_up, bytes_needed, data_size, constant_no};
ghost use Rattle.data.specs.Text.{code_in, next_in, codes_from, hex_at, pair_at, pairs_from, hex_bytes, copy_text, constant_text};

use crate::sizes::bytes_needed;
use crate::{Data, DataType};
use letters::{BLANK_CODE, byte_at};
use terms::{Quoted, quoted_at};

fn code_in(q: Result<(Quoted, usize), usize>) -> u8
    ensures { result ≡ code_in q }
{
    match q {
        Ok((Quoted::One(code), _)) => code,
        _ => BLANK_CODE,
    }
}

fn next_in(q: Result<(Quoted, usize), usize>, at: usize) -> usize
    ensures { result ≡ next_in q at }
{
    match q {
        Ok((Quoted::One(_), next)) => next,
        _ => at,
    }
}

// The codes of n characters from a position on.
#[tactic(auto, unfolding(crate::specs::Text::codes_from))]
fn put_codes(o: &[u8], at: usize, n: usize, m: &mut [u8], to: usize)
    requires { to + n ≤ length m.old }
    ensures { m.new ≡ sets m.old to (codes_from n o.now at) }
{
    let mut p = at;
    for i in 0..n {
        let q = quoted_at(o, p);
        m[to + i] = code_in(q);
        p = next_in(q, p);
    }
}

// The value of a hex digit.
fn hex_at(o: &[u8], at: usize) -> u8
    ensures { (result ≡ hex_at o.now at) × (result < 16) }
{
    letters::digit_of(byte_at(o, at)) % 16
}

fn pair_at(o: &[u8], at: usize) -> u8
    requires { at + 1 < 2 ^ 64 }
    ensures { result ≡ pair_at o.now at }
{
    hex_at(o, at) * 16 + hex_at(o, at + 1)
}

// n bytes of two hex digits each, from a position on.
#[tactic(auto, unfolding(crate::specs::Text::pairs_from))]
fn put_pairs(o: &[u8], at: usize, n: usize, m: &mut [u8], to: usize)
    requires { (at + 2 * n < 2 ^ 64) × (to + n ≤ length m.old) }
    ensures { m.new ≡ sets m.old to (pairs_from n o.now at) }
{
    for i in 0..n {
        m[to + i] = pair_at(o, at + 2 * i);
    }
}

// The bytes of so many hex digits: the first of an odd count has a byte of its own.
#[tactic(auto, unfolding(crate::specs::Text::hex_bytes))]
fn put_hex(o: &[u8], at: usize, count: usize, m: &mut [u8], to: usize)
    requires { (at + count < 2 ^ 64) × (to + half_up count ≤ length m.old) }
    ensures { m.new ≡ sets m.old to (hex_bytes count o.now at) }
{
    if count % 2 == 0 {
        put_pairs(o, at, count / 2, m, to);
    } else {
        m[to] = hex_at(o, at);
        put_pairs(o, at + 1, count / 2, m, to + 1);
    }
}

// A byte n times.
fn put_fill(m: &mut [u8], to: usize, n: usize, b: u8)
    requires { to + n ≤ length m.old }
    ensures { m.new ≡ sets m.old to (replicate n b) }
{
    m[to..to + n].fill(b);
}

// One copy: characters have blanks on their right, digits zeros or F0 on their left.
#[tactic(auto, unfolding(crate::specs::Text::characters_text, crate::specs::Text::hexadecimal_text, crate::specs::Text::decimal_text))]
fn put_copy(o: &[u8], d: Data, m: &mut [u8], to: usize)
    requires { (bytes_needed d ≤ d.length) × (to + d.length ≤ length m.old) × (d.value + d.count ≤ length o.now) }
    ensures { m.new ≡ sets m.old to (copy_text o.now d) }
{
    let needed = bytes_needed(d) as usize;
    let rest = d.length as usize - needed;
    match d.kind {
        DataType::Characters => {
            put_codes(o, d.value, needed, m, to);
            put_fill(m, to + needed, rest, BLANK_CODE);
        }
        DataType::Hexadecimal => {
            put_fill(m, to, rest, 0);
            put_hex(o, d.value, d.count as usize, m, to + rest);
        }
        DataType::Decimal => {
            put_fill(m, to, rest, 0xF0);
            put_codes(o, d.value, needed, m, to + rest);
        }
        DataType::Address => put_fill(m, to, rest, 0),
    }
}

// All copies of a constant, laid over a slice from a place on.
#[tactic(auto, unfolding(crate::specs::Text::constant_text, crate::specs::Sizes::data_size, crate::specs::Sizes::constant_no))]
pub fn put_constant(o: &[u8], d: Data, m: &mut [u8], to: usize)
    requires { (constant_no d ≡ 0) × (d.value + d.count ≤ length o.now) × (to + data_size d ≤ length m.old) }
    ensures { m.new ≡ sets m.old to (constant_text o.now d) }
{
    let size = d.length as usize;
    let mut at = to;
    for _ in 0..d.copies {
        put_copy(o, d, m, at);
        at += size;
    }
}
