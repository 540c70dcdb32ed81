// What both passes make of a card: its part in the counter and the names, and the answer of an assembly.
#![tactic(auto)]

ghost use Rattle.std.specs.Prelude.{◌≡◌, ◌+◌, ◌^◌, ◌≤◌, ◌<◌, length};
ghost use Rattle.values.specs.Values.{only_relocatable, with_relocatable};
ghost use Rattle.values.specs.Refusals.{number_of};
ghost use Rattle.names.specs.Names.{find};
ghost use Rattle.forms.specs.Shape.{start_or};
ghost use Rattle.forms.specs.Size.{size_of};
ghost use Rattle.passes.specs.Cards.{operands_at, counter_by};

use expressions::factors::Scope;
use forms::{Shape, size_of};
use lines::Line;
use names::lookup::Names;
use operands::{Operands, operands_of};
use operations::traits::Role;
use places::Bases;
use values::Value;
use values::refusals::Refusal;

// Where pass one stands: before START, between START and END, behind END.
#[derive(Clone, Copy, Debug, PartialEq, Eq)]
pub enum Phase {
    Before,
    Within,
    Ended,
}

// Where pass two stands: the counter, and the bases in force.
#[derive(Clone, Copy, Debug, PartialEq, Eq)]
pub struct Course {
    pub counter: u32,
    pub bases: Bases,
}

// What an assembly has made: the length of the book, and how many names there are.
#[derive(Clone, Copy, Debug, PartialEq, Eq)]
pub struct Assembled {
    pub length: u32,
    pub names: u16,
}

// A refusal as it is told: its number, and the card, 0 where it is of none.
#[derive(Clone, Copy, Debug, PartialEq, Eq)]
pub struct Refused {
    pub number: u8,
    pub card: u16,
}

impl Refused {
    pub fn at(card: u16, refusal: Refusal) -> Refused
        ensures { (result.number ≡ number_of refusal) × (result.card ≡ card) }
    {
        Refused {
            number: refusal.number(),
            card,
        }
    }
}

// A refusal of no card.
impl From<Refusal> for Refused {
    ghost from_gives = { λ refusal told. (told.number ≡ number_of refusal) × (told.card ≡ 0) };

    fn from(refusal: Refusal) -> Refused {
        Refused::at(0, refusal)
    }
}

// START's value, or else another number.
pub fn start_or(x: Result<Shape, usize>, other: u32) -> u32
    ensures { result ≡ start_or x other }
{
    match x {
        Ok(Shape::StartAt(v)) => u32::from(v),
        _ => other,
    }
}

// What the expressions of a line come to, over the names and the counter at the start of the card.
pub fn operands_at(l: Line, card: &[u8], names: &Names, counter: u32) -> Operands
    requires { (l.operand ≤ l.end) × (l.end ≤ length card.now) }
    ensures { result ≡ operands_at (find names.now) counter card.now l }
{
    operands_of(
        l.shape,
        Scope {
            columns: &card[l.operand..l.end],
            names,
            here: counter,
        },
    )
}

// A relocatable value's amount, or else another number.
fn amount_or(v: Option<Value>, other: u32) -> u32
    ensures { result ≡ with_relocatable (only_relocatable v) (λ n. n) other }
{
    match v {
        Some(Value::Relocatable(a)) => u32::from(a.0),
        _ => other,
    }
}

// The counter behind a card of a role, whose only expression came to v.
pub fn counter_by(role: Role, v: Option<Value>, counter: u32, l: Line) -> u32
    requires { counter + size_of l.operation l.shape < 2 ^ 32 }
    ensures { result ≡ counter_by role v counter l }
{
    match role {
        Role::Starts => start_or(l.shape, counter),
        Role::SetsCounter => amount_or(v, counter),
        Role::Advances => counter + size_of(l.operation, l.shape) as u32,
        _ => counter,
    }
}
