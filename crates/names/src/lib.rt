// The table of names in a lent area: records of 16 bytes in ascending order of the names' numbers.
// A record: byte 0 its owner (1: in use), 1 to 6 the name, 7 the kind (0: absolute, 1: relocatable), 8-9 the value, 10-11 the length, 12 to 15 zero.
#![tactic(auto)]

pub mod lookup;

ghost use Rattle.std.specs.Prelude.{◌≡◌, true, ◌+◌, ◌*◌, ◌≤◌, ◌<◌, ◌^◌, length, drop};
ghost use Rattle.std.proofs.lemmas.List.Edits.{sets};
ghost use Rattle.values.specs.Values.{amount_of};
ghost use Rattle.names.specs.Names.{defined, ascending};
ghost use Rattle.names.specs.Table.{value_of, kind_of, number_at, meaning_at, names_in, zeroed};
ghost use Rattle.names.specs.Steps.{below, shifted, name_bytes, put};

use values::words::{put_bytes, word_at};
use values::{Absolute, Relocatable, Value};

// A name: its number (six EBCDIC bytes, base 256), what it stands for, its length.
#[derive(Clone, Copy, Debug, PartialEq, Eq)]
pub struct Name {
    pub number: u64,
    pub value: Value,
    pub length: u16,
}

// What the table says of a number.
#[derive(Clone, Copy, Debug, PartialEq, Eq)]
pub struct Meaning {
    pub value: Value,
    pub length: u16,
}

fn value_of(kind: u8, amount: u16) -> Value
    ensures { result ≡ value_of kind amount }
{
    if kind == 0 {
        Value::Absolute(Absolute(amount))
    } else {
        Value::Relocatable(Relocatable(amount))
    }
}

fn kind_of(v: Value) -> u8
    ensures { result ≡ kind_of v }
{
    match v {
        Value::Absolute(_) => 0,
        Value::Relocatable(_) => 1,
    }
}

#[tactic(auto, unfolding(crate::specs::Table::number_at))]
pub(crate) fn number_at(t: &[u8], at: usize) -> u64
    requires { at + 16 ≤ length t.now }
    ensures { result ≡ number_at t.now at }
{
    u64::from_be_bytes([
        0,
        0,
        t[at + 1],
        t[at + 2],
        t[at + 3],
        t[at + 4],
        t[at + 5],
        t[at + 6],
    ])
}

pub(crate) fn meaning_at(t: &[u8], at: usize) -> Meaning
    requires { at + 16 ≤ length t.now }
    ensures { result ≡ meaning_at t.now at }
{
    Meaning {
        value: value_of(t[at + 7], word_at(t, at + 8)),
        length: word_at(t, at + 10),
    }
}

// How many names come before a number, by bisection.
pub(crate) fn place(t: &[u8], count: usize, number: u64) -> usize
    requires { (16 * count ≤ length t.now) × (ascending (names_in count t.now) ≡ true) }
    ensures { (result ≡ below number (names_in count t.now)) × (result ≤ count) }
{
    let (records, _) = t.as_chunks::<16>();
    records[..count].partition_point(|record| number_at(record, 0) < number)
}

// The bytes from `from` to `to` go 16 places up.
#[tactic(auto, unfolding(crate::specs::Steps::shifted))]
fn shift_up(t: &mut [u8], from: usize, to: usize)
    requires { (from ≤ to) × (to + 16 ≤ length t.old) }
    ensures { t.new ≡ shifted from to t.old }
{
    t.copy_within(from..to, from + 16);
}

#[tactic(auto, unfolding(crate::specs::Steps::name_bytes))]
fn put_name(t: &mut [u8], at: usize, x: Name)
    requires { at + 16 ≤ length t.old }
    ensures { (t.new ≡ sets t.old at (name_bytes x)) × (amount_of x.value < 65536) }
{
    let [_, _, n1, n2, n3, n4, n5, n6] = x.number.to_be_bytes();
    let kind = kind_of(x.value);
    let [v1, v2] = x.value.amount().to_be_bytes();
    let [l1, l2] = x.length.to_be_bytes();
    let record = [1, n1, n2, n3, n4, n5, n6, kind, v1, v2, l1, l2, 0, 0, 0, 0];
    put_bytes(t, at, &record);
}

// A name more: the names above it go one record up, and it takes the place that they leave.
#[tactic(auto, unfolding(crate::specs::Steps::put))]
pub fn define(t: &mut [u8], count: usize, x: Name)
    requires { (16 * count + 16 ≤ length t.old) × (ascending (names_in count t.old) ≡ true) × (x.number < 2 ^ 48) }
    ensures names { names_in (count + 1) t.new ≡ defined x (names_in count t.old) }
    ensures rest { drop (16 * count + 16) t.new ≡ drop (16 * count + 16) t.old }
    ensures bytes { t.new ≡ put x count t.old }
{
    let at = 16 * place(t, count, x.number);
    shift_up(t, at, 16 * count);
    put_name(t, at, x);
}

// The first n bytes become zero.
#[tactic(auto, unfolding(crate::specs::Table::zeroed))]
pub fn clear(t: &mut [u8], n: usize)
    requires { n ≤ length t.old }
    ensures { t.new ≡ zeroed n t.old }
{
    t[..n].fill(0);
}
