// A card read whole: its name, its operation and the shape of its operand, from the columns alone.
#![tactic(auto)]

ghost use Rattle.std.specs.Prelude.{◌≡◌, ◌≤◌, length};
ghost use Rattle.values.specs.Refusals.{number_in};
ghost use Rattle.lines.specs.Lines.{line_of, reading_of, shape_no};

use cards::{Card, Fields, read_card};
use forms::{Shape, shape_of};
use mnemonics::operation_at;
use operations::Operation;
use values::refusals::Refusal;

// A statement: its name's number, its operation, and the shape of its operand or the place where that fails, with where it starts and ends.
#[derive(Clone, Copy, Debug, PartialEq, Eq)]
pub struct Line {
    pub name: Option<u64>,
    pub operation: Operation,
    pub shape: Result<Shape, usize>,
    pub operand: usize,
    pub end: usize,
}

#[derive(Clone, Copy, Debug, PartialEq, Eq)]
pub enum Reading {
    Comment,
    BadName,
    Statement(Line),
}

#[tactic(auto, unfolding(crate::specs::Lines::line_of))]
fn line_of(card: &[u8], f: Fields) -> Line
    requires { (f.operand ≤ f.end) × (f.end ≤ length card.now) }
    ensures { result ≡ line_of card.now f }
{
    let operation = operation_at(card, f.operation, f.behind);
    Line {
        name: f.name,
        operation,
        shape: shape_of(&card[f.operand..f.end], operation),
        operand: f.operand,
        end: f.end,
    }
}

// A card by its statement columns.
#[tactic(auto, unfolding(crate::specs::Lines::reading_of))]
pub fn read_line(card: &[u8]) -> Reading
    ensures { result ≡ reading_of card.now }
{
    match read_card(card) {
        Card::Comment => Reading::Comment,
        Card::BadName => Reading::BadName,
        Card::Statement(f) => Reading::Statement(line_of(card, f)),
    }
}

// 15 of an operand that has not its form.
pub fn check_shape(shape: Result<Shape, usize>) -> Result<(), Refusal>
    ensures { number_in result ≡ shape_no shape }
{
    match shape {
        Ok(_) => Ok(()),
        Err(_) => Err(Refusal::Malformed),
    }
}
