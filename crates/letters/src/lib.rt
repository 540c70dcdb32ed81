// The accepted characters of a card: the class of a byte, its EBCDIC code, its value as a digit.
#![tactic(auto)]

ghost use Rattle.std.specs.Prelude.{◌≡◌, ◌<◌, ◌≤◌, get_or};
ghost use Rattle.letters.specs.Letters.{class_of, code_of, digit_of, starts_name, goes_on_name, is_blank, is_accepted};
ghost use Rattle.letters.specs.Table.{place_of};

#[derive(Debug, Clone, Copy, PartialEq, Eq)]
pub enum Class {
    Letter,
    Digit,
    Sign,
    Blank,
    Refused,
}

// The EBCDIC code of a blank.
pub const BLANK_CODE: u8 = 0x40;

// An ASCII byte and its EBCDIC code.
#[derive(Debug, Clone, Copy, PartialEq, Eq)]
pub struct Pair(pub u8, pub u8);

// The accepted characters, by their ASCII bytes: 32 to 90, 95 and 124.
const PAIRS: [Pair; 61] = [
    Pair(b' ', BLANK_CODE),
    Pair(b'!', 0x5A),
    Pair(b'"', 0x7F),
    Pair(b'#', 0x7B),
    Pair(b'$', 0x5B),
    Pair(b'%', 0x6C),
    Pair(b'&', 0x50),
    Pair(b'\'', 0x7D),
    Pair(b'(', 0x4D),
    Pair(b')', 0x5D),
    Pair(b'*', 0x5C),
    Pair(b'+', 0x4E),
    Pair(b',', 0x6B),
    Pair(b'-', 0x60),
    Pair(b'.', 0x4B),
    Pair(b'/', 0x61),
    Pair(b'0', 0xF0),
    Pair(b'1', 0xF1),
    Pair(b'2', 0xF2),
    Pair(b'3', 0xF3),
    Pair(b'4', 0xF4),
    Pair(b'5', 0xF5),
    Pair(b'6', 0xF6),
    Pair(b'7', 0xF7),
    Pair(b'8', 0xF8),
    Pair(b'9', 0xF9),
    Pair(b':', 0x7A),
    Pair(b';', 0x5E),
    Pair(b'<', 0x4C),
    Pair(b'=', 0x7E),
    Pair(b'>', 0x6E),
    Pair(b'?', 0x6F),
    Pair(b'@', 0x7C),
    Pair(b'A', 0xC1),
    Pair(b'B', 0xC2),
    Pair(b'C', 0xC3),
    Pair(b'D', 0xC4),
    Pair(b'E', 0xC5),
    Pair(b'F', 0xC6),
    Pair(b'G', 0xC7),
    Pair(b'H', 0xC8),
    Pair(b'I', 0xC9),
    Pair(b'J', 0xD1),
    Pair(b'K', 0xD2),
    Pair(b'L', 0xD3),
    Pair(b'M', 0xD4),
    Pair(b'N', 0xD5),
    Pair(b'O', 0xD6),
    Pair(b'P', 0xD7),
    Pair(b'Q', 0xD8),
    Pair(b'R', 0xD9),
    Pair(b'S', 0xE2),
    Pair(b'T', 0xE3),
    Pair(b'U', 0xE4),
    Pair(b'V', 0xE5),
    Pair(b'W', 0xE6),
    Pair(b'X', 0xE7),
    Pair(b'Y', 0xE8),
    Pair(b'Z', 0xE9),
    Pair(b'_', 0x6D),
    Pair(b'|', 0x4F),
];

// The class of a byte. In ASCII # and $ are neighbours, @ stands before A, and the signs lie between the others.
#[tactic(auto, unfolding(crate::specs::Letters::class_of, crate::specs::Text::is_one_of, crate::specs::Text::is_from_to))]
pub fn class_of(b: u8) -> Class
    ensures { result ≡ class_of b }
{
    match b {
        b' ' => Class::Blank,
        b'0'..=b'9' => Class::Digit,
        b'#'..=b'$' | b'@'..=b'Z' => Class::Letter,
        b'!'..=b'"' | b'%'..=b'/' | b':'..=b'?' | b'_' | b'|' => Class::Sign,
        _ => Class::Refused,
    }
}

// Where a byte's pair stands in the table; a byte that is not accepted is sent to the first place.
#[tactic(auto, unfolding(crate::specs::Table::place_of))]
fn place_of(b: u8) -> usize
    ensures { (result ≡ place_of b) × (result < 61) }
{
    match b {
        b' '..=b'Z' => usize::from(b - b' '),
        b'_' => 59,
        b'|' => 60,
        _ => 0,
    }
}

// The EBCDIC code of a byte; 0 where it is not accepted.
pub fn code_of(b: u8) -> u8
    ensures { result ≡ code_of b }
{
    let p = &PAIRS[place_of(b)];
    if p.0 == b { p.1 } else { 0 }
}

// The value of a hexadecimal digit; 16 for a byte that is none.
#[tactic(auto, unfolding(crate::specs::Letters::digit_of, crate::specs::Text::is_from_to))]
pub fn digit_of(b: u8) -> u8
    ensures { (result ≡ digit_of b) × (result ≤ 16) }
{
    match b {
        b'0'..=b'9' => b - b'0',
        b'A'..=b'F' => b - b'A' + 10,
        _ => 16,
    }
}

pub fn starts_name(c: Class) -> bool
    ensures { result ≡ starts_name c }
{
    c == Class::Letter
}

pub fn goes_on_name(c: Class) -> bool
    ensures { result ≡ goes_on_name c }
{
    matches!(c, Class::Letter | Class::Digit)
}

pub fn is_blank(c: Class) -> bool
    ensures { result ≡ is_blank c }
{
    c == Class::Blank
}

pub fn is_accepted(c: Class) -> bool
    ensures { result ≡ is_accepted c }
{
    c != Class::Refused
}

// The byte at a position; 0, which is no accepted byte, past the end.
pub fn byte_at(s: &[u8], i: usize) -> u8
    ensures { result ≡ get_or s.now i 0 }
{
    s.get(i).copied().unwrap_or(0)
}

#[tactic(auto, unfolding(crate::specs::Letters::class_of))]
pub fn class_at(s: &[u8], i: usize) -> Class
    ensures { result ≡ class_of (get_or s.now i 0) }
{
    class_of(byte_at(s, i))
}
