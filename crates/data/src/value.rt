// The value of a constant: how many characters or digits it has, and where it ends.
ghost use Rattle.std.specs.Prelude.{◌≡◌, ◌≤◌, ◌<◌};
ghost use Rattle.data.specs.Form.{characters_at, run_at, address_at, opening_of, value_at};

use crate::DataType;
use crate::runs::{digits_end, tell};
use expressions::form::{behind_byte, expression_form};
use terms::{Quoted, quoted_at};

// Characters from a position on, and the closing apostrophe.
fn count_characters(s: &[u8], at: usize) -> Result<(u32, usize), usize>
    ensures { result ≡ characters_at s.now at }
{
    let mut p = at;
    let mut n: usize = 0;
    loop {
        match quoted_at(s, p)? {
            (Quoted::One(_), next) => {
                p = next;
                n += 1;
            }
            (Quoted::Closed, next) if n == 0 => return Err(next),
            (Quoted::Closed, next) => return Ok((tell(n), next)),
        }
    }
}

// Digits of a base from a position on, and the closing apostrophe.
#[tactic(auto, unfolding(crate::specs::Form::run_at), using(crate::proofs::Within::digits_within))]
fn count_digits(s: &[u8], at: usize, base: u8) -> Result<(u32, usize), usize>
    requires { base ≤ 16 }
    ensures { result ≡ run_at base s.now at }
{
    let end = digits_end(s, at, base);
    if end == at {
        return Err(at);
    }
    Ok((tell(end - at), behind_byte(s, end, b'\'')?))
}

// An expression at a position, and the closing parenthesis.
#[tactic(auto, unfolding(crate::specs::Form::address_at))]
fn read_address(s: &[u8], at: usize) -> Result<(u32, usize), usize>
    ensures { result ≡ address_at s.now at }
{
    let q = expression_form(s, at)?;
    Ok((0, behind_byte(s, q, b')')?))
}

// The character that opens a value.
fn opening(kind: DataType) -> u8
    ensures { (result ≡ opening_of kind) × (0 < result) }
{
    match kind {
        DataType::Address => b'(',
        _ => b'\'',
    }
}

// The value of a type that opens at a position.
#[tactic(auto, unfolding(crate::specs::Form::value_at))]
pub fn read_value(s: &[u8], kind: DataType, at: usize) -> Result<(u32, usize), usize>
    ensures { result ≡ value_at s.now kind at }
{
    let first = behind_byte(s, at, opening(kind))?;
    match kind {
        DataType::Characters => count_characters(s, first),
        DataType::Hexadecimal => count_digits(s, first, 16),
        DataType::Decimal => count_digits(s, first, 10),
        DataType::Address => read_address(s, first),
    }
}
