// DC and DS operands: copies, type, length and value from the columns alone; their sizes and refusal 21; the text of a constant.
// An operand is a slice of its own, and its end is the slice's end.
#![tactic(auto)]

pub mod head;
pub mod runs;
pub mod sizes;
pub mod text;
pub mod value;

ghost use Rattle.std.specs.Prelude.{◌≡◌, ◌+◌, ◌<◌, ◌^◌};
ghost use Rattle.data.specs.Form.{constant_length, reserve_length, constant_data, reserve_data, data_form};

use head::{Head, read_head};
use value::read_value;

#[derive(Clone, Copy, Debug, PartialEq, Eq)]
pub enum DataType {
    Characters,
    Hexadecimal,
    Decimal,
    Address,
}

// A DC, which makes bytes, or a DS, which leaves room for them.
#[derive(Clone, Copy, Debug, PartialEq, Eq)]
pub enum DataCard {
    Constant,
    Reserve,
}

// What an operand says. `count`: the characters or digits of its value; `value`: where the first of them, or the expression, stands.
// Copies, length and count are told no further than 65536.
#[derive(Clone, Copy, Debug, PartialEq, Eq)]
pub struct Data {
    pub card: DataCard,
    pub kind: DataType,
    pub copies: u32,
    pub length: u32,
    pub count: u32,
    pub value: usize,
}

// The length of a DC where it is absent.
fn constant_length(kind: DataType, count: u32) -> u32
    ensures { result ≡ constant_length kind count }
{
    match kind {
        DataType::Address => 2,
        _ => sizes::needed(kind, count),
    }
}

// The length of a DS where it is absent.
fn reserve_length(kind: DataType) -> u32
    ensures { result ≡ reserve_length kind }
{
    match kind {
        DataType::Address => 2,
        _ => 1,
    }
}

fn constant_data(h: Head, count: u32) -> Data
    requires { h.next + 1 < 2 ^ 64 }
    ensures { result ≡ constant_data h count }
{
    Data {
        card: DataCard::Constant,
        kind: h.kind,
        copies: h.copies,
        length: h.length.unwrap_or(constant_length(h.kind, count)),
        count,
        value: h.next + 1,
    }
}

fn reserve_data(h: Head) -> Data
    ensures { result ≡ reserve_data h }
{
    Data {
        card: DataCard::Reserve,
        kind: h.kind,
        copies: h.copies,
        length: h.length.unwrap_or(reserve_length(h.kind)),
        count: 0,
        value: h.next,
    }
}

// The operand of a data card: a DC has a value, a DS has none; and nothing stands behind it.
#[tactic(auto, unfolding(crate::specs::Form::constant_form, crate::specs::Form::constant_behind, crate::specs::Form::reserve_form), using(crate::proofs::Within::value_span))]
pub fn data_form(card: DataCard, o: &[u8]) -> Result<Data, usize>
    ensures { result ≡ data_form card o.now }
{
    let head = read_head(o)?;
    let (data, end) = match card {
        DataCard::Constant => {
            let (count, end) = read_value(o, head.kind, head.next)?;
            (constant_data(head, count), end)
        }
        DataCard::Reserve => (reserve_data(head), head.next),
    };
    if end == o.len() { Ok(data) } else { Err(end) }
}
