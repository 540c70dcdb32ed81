// What stands before a value: copies, type and length.
ghost use Rattle.std.specs.Prelude.{◌≡◌, ◌+◌};
ghost use Rattle.data.specs.Form.{type_of, copies_before, length_at, head_at};

use crate::DataType;
use crate::runs::{digits_end, number_in};
use letters::byte_at;

// Copies, type and length, and the position behind them.
#[derive(Clone, Copy, Debug, PartialEq, Eq)]
pub struct Head {
    pub kind: DataType,
    pub copies: u32,
    pub length: Option<u32>,
    pub next: usize,
}

#[tactic(auto, unfolding(crate::specs::Form::type_of))]
fn type_of(b: u8) -> Option<DataType>
    ensures { result ≡ type_of b }
{
    match b {
        b'C' => Some(DataType::Characters),
        b'X' => Some(DataType::Hexadecimal),
        b'D' => Some(DataType::Decimal),
        b'A' => Some(DataType::Address),
        _ => None,
    }
}

#[tactic(auto, unfolding(crate::specs::Form::copies_before))]
fn copies_before(s: &[u8], at: usize) -> u32
    ensures { result ≡ copies_before s.now at }
{
    if at == 0 { 1 } else { number_in(s, 0, at) }
}

// The length behind a type, if it is written.
#[tactic(auto, unfolding(crate::specs::Form::length_at))]
fn read_length(s: &[u8], kind: DataType, copies: u32, at: usize) -> Result<Head, usize>
    ensures { result ≡ length_at s.now kind copies at }
{
    let head = Head {
        kind,
        copies,
        length: None,
        next: at,
    };
    if byte_at(s, at) != b'L' {
        return Ok(head);
    }
    let from = at + 1;
    let end = digits_end(s, from, 10);
    if end == from {
        return Err(from);
    }
    Ok(Head {
        length: Some(number_in(s, from, end)),
        next: end,
        ..head
    })
}

#[tactic(auto, unfolding(crate::specs::Form::head_at), using(crate::proofs::Within::type_inside))]
pub fn read_head(s: &[u8]) -> Result<Head, usize>
    ensures { result ≡ head_at s.now }
{
    let at = digits_end(s, 0, 10);
    let kind = type_of(byte_at(s, at)).ok_or(at)?;
    read_length(s, kind, copies_before(s, at), at + 1)
}
