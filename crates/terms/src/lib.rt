// A term at a position of a card, and the name at a position. Positions count from 0, and past the end nothing stands.
#![tactic(auto)]

pub mod naming;

ghost use Rattle.std.specs.Prelude.{◌≡◌, ◌+◌, ◌*◌, ◌^◌, ◌≤◌, ◌<◌};
ghost use Rattle.terms.specs.Terms.{digits_from, decimal_at, closed_at, numeral_at, hex_at, binary_at, quoted_at, second_of, characters_at, symbol_at, lettered_at, term_at};

use letters::{Class, byte_at};

// A term: its value, its name's number, or `*`.
#[derive(Clone, Copy, Debug, PartialEq, Eq)]
pub enum Term {
    Number(u16),
    Symbol(u64),
    Here,
}

// What stands inside apostrophes: a character's code, or the closing apostrophe.
#[derive(Clone, Copy, Debug, PartialEq, Eq)]
pub enum Quoted {
    One(u8),
    Closed,
}

// Digits that were read: their value, and the position behind them.
#[derive(Clone, Copy, Debug, PartialEq, Eq)]
pub struct Digits {
    pub value: u32,
    pub next: usize,
}

#[tactic(auto, unfolding(crate::specs::Terms::digits_from))]
fn read_digits(s: &[u8], at: usize, base: u8, most: usize) -> Digits
    requires { base ≤ 16 }
    ensures { (result ≡ digits_from most base s.now at 0) × (result.value ≤ 65535) }
{
    let mut digits = Digits { value: 0, next: at };
    for _ in 0..most {
        let d = letters::digit_of(byte_at(s, digits.next));
        if base <= d {
            break;
        }
        let more = appended(digits.value, base, d);
        if 65535 < more {
            break;
        }
        digits = Digits {
            value: more,
            next: digits.next + 1,
        };
    }
    digits
}

// A digit behind a value.
fn appended(value: u32, base: u8, digit: u8) -> u32
    requires { (value ≤ 65535) × (base ≤ 16) }
    ensures { result ≡ value * base + digit }
{
    value * u32::from(base) + u32::from(digit)
}

#[tactic(auto, unfolding(crate::specs::Terms::decimal_at))]
pub fn read_decimal(s: &[u8], at: usize) -> Result<(Term, usize), usize>
    ensures { result ≡ decimal_at s.now at }
{
    let Digits { value, next } = read_digits(s, at, 10, 5);
    if next == at || letters::digit_of(byte_at(s, next)) < 10 {
        return Err(next);
    }
    Ok((Term::Number(value as u16), next))
}

#[tactic(auto, unfolding(crate::specs::Terms::closed_at))]
fn read_closed(s: &[u8], at: usize, value: u16) -> Result<(Term, usize), usize>
    ensures { result ≡ closed_at s.now at value }
{
    if byte_at(s, at) == b'\'' {
        Ok((Term::Number(value), at + 1))
    } else {
        Err(at)
    }
}

#[tactic(auto, unfolding(crate::specs::Terms::numeral_at))]
fn read_numeral(s: &[u8], at: usize, base: u8, most: usize) -> Result<(Term, usize), usize>
    requires { base ≤ 16 }
    ensures { result ≡ numeral_at most base s.now at }
{
    let Digits { value, next } = read_digits(s, at, base, most);
    if next == at {
        return Err(at);
    }
    read_closed(s, next, value as u16)
}

// A hexadecimal term whose X stands at the position, and whose apostrophe follows.
#[tactic(auto, unfolding(crate::specs::Terms::hex_at))]
pub fn read_hex(s: &[u8], at: usize) -> Result<(Term, usize), usize>
    requires { at + 2 < 2 ^ 64 }
    ensures { result ≡ hex_at s.now at }
{
    read_numeral(s, at + 2, 16, 4)
}

#[tactic(auto, unfolding(crate::specs::Terms::binary_at))]
fn read_binary(s: &[u8], at: usize) -> Result<(Term, usize), usize>
    requires { at + 2 < 2 ^ 64 }
    ensures { result ≡ binary_at s.now at }
{
    read_numeral(s, at + 2, 2, 16)
}

#[tactic(auto, unfolding(crate::specs::Terms::quoted_at))]
pub fn quoted_at(s: &[u8], at: usize) -> Result<(Quoted, usize), usize>
    ensures { result ≡ quoted_at s.now at }
{
    let b = byte_at(s, at);
    let code = letters::code_of(b);
    match b {
        b'\'' if byte_at(s, at + 1) == b'\'' => Ok((Quoted::One(code), at + 2)),
        b'\'' => Ok((Quoted::Closed, at + 1)),
        _ if letters::is_accepted(letters::class_of(b)) => Ok((Quoted::One(code), at + 1)),
        _ => Err(at),
    }
}

// Behind a first character of code a.
#[tactic(auto, unfolding(crate::specs::Terms::quoted_at))]
fn read_second(s: &[u8], a: u8, at: usize) -> Result<(Term, usize), usize>
    ensures { result ≡ second_of s.now a (quoted_at s.now at) }
{
    let (second, next) = quoted_at(s, at)?;
    match second {
        Quoted::One(b) => read_closed(s, next, u16::from_be_bytes([a, b])),
        Quoted::Closed => Ok((Term::Number(u16::from(a)), next)),
    }
}

#[tactic(auto, unfolding(crate::specs::Terms::characters_at))]
fn read_characters(s: &[u8], at: usize) -> Result<(Term, usize), usize>
    requires { at + 2 < 2 ^ 64 }
    ensures { result ≡ characters_at s.now at }
{
    let (first, next) = quoted_at(s, at + 2)?;
    match first {
        Quoted::One(a) => read_second(s, a, next),
        Quoted::Closed => Err(next),
    }
}

#[tactic(auto, unfolding(crate::specs::Terms::symbol_at))]
fn read_symbol(s: &[u8], at: usize) -> Result<(Term, usize), usize>
    ensures { result ≡ symbol_at s.now at }
{
    let (number, next) = naming::read_name(s, at)?;
    Ok((Term::Symbol(number), next))
}

// A term that a letter starts.
#[tactic(auto, unfolding(crate::specs::Terms::lettered_at))]
fn read_lettered(s: &[u8], at: usize) -> Result<(Term, usize), usize>
    requires { at + 2 < 2 ^ 64 }
    ensures { result ≡ lettered_at s.now at }
{
    match (byte_at(s, at), byte_at(s, at + 1)) {
        (b'X', b'\'') => read_hex(s, at),
        (b'B', b'\'') => read_binary(s, at),
        (b'C', b'\'') => read_characters(s, at),
        _ => read_symbol(s, at),
    }
}

#[tactic(auto, unfolding(crate::specs::Terms::term_at))]
pub fn read_term(s: &[u8], at: usize) -> Result<(Term, usize), usize>
    ensures { result ≡ term_at s.now at }
{
    let b = byte_at(s, at);
    match letters::class_of(b) {
        Class::Letter => read_lettered(s, at),
        Class::Digit => read_decimal(s, at),
        Class::Sign if b == b'*' => Ok((Term::Here, at + 1)),
        Class::Sign | Class::Blank | Class::Refused => Err(at),
    }
}
