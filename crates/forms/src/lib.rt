// The form of an operand, from its columns alone: where each expression of it starts, or the first position at which no operand of its form could go on.
// An operand is a slice of its own, positions count from 0, and an absent operand is empty.
#![tactic(auto)]

ghost use Rattle.std.specs.Prelude.{◌≡◌, ◌≤◌, length};
ghost use Rattle.forms.specs.Shape.{ended, last_at, start_term, start_shape, end_shape, pair_shape, first_allowed, second_allowed, two_shape, one_shape, only_shape, shape_by, shape_of};
ghost use Rattle.forms.specs.Size.{address_size, size_of};

use addresses::{Address, Allowed, address_at};
use data::{Data, DataCard, data_form};
use expressions::form::{behind_byte, expression_form};
use letters::byte_at;
use operations::Operation;
use operations::traits::{Lengths, Pattern, fixed_size, traits_of};
use terms::Term;

#[derive(Clone, Copy, Debug, PartialEq, Eq)]
pub enum Shape {
    // END without an operand.
    Nothing,
    // START's one decimal or hex term, 0 where it has no operand.
    StartAt(u16),
    // EQU, ORG, DROP, END: an expression at 0.
    Expression,
    // USING's E,R and JC's E,Q: an expression at 0 and one at the position.
    Pair(usize),
    // An extended jump's E, at 0.
    Target,
    TwoAddresses(Address, Address),
    // One address or a branch, and where its Q starts.
    AddressAndCode(Address, usize),
    // An extended branch.
    LoneAddress(Address),
    // DC and DS.
    Data(Data),
}

// The operand ends at a position, and has this shape.
#[tactic(auto, unfolding(crate::specs::Shape::ended))]
fn ended(o: &[u8], q: usize, x: Shape) -> Result<Shape, usize>
    ensures { result ≡ ended o.now q x }
{
    if q < o.len() { Err(q) } else { Ok(x) }
}

// The expression at a position is the last of the operand.
#[tactic(auto, unfolding(crate::specs::Shape::last_at))]
fn last_at(o: &[u8], p: usize, x: Shape) -> Result<Shape, usize>
    ensures { result ≡ last_at o.now p x }
{
    let q = expression_form(o, p)?;
    ended(o, q, x)
}

#[tactic(auto, unfolding(crate::specs::Shape::start_term))]
fn start_term(o: &[u8]) -> Result<(Term, usize), usize>
    ensures { result ≡ start_term o.now }
{
    if byte_at(o, 0) != b'X' {
        return terms::read_decimal(o, 0);
    }
    if byte_at(o, 1) != b'\'' {
        return Err(1);
    }
    terms::read_hex(o, 0)
}

#[tactic(auto, unfolding(crate::specs::Shape::start_shape))]
fn start_shape(o: &[u8]) -> Result<Shape, usize>
    ensures { result ≡ start_shape o.now }
{
    if o.is_empty() {
        return Ok(Shape::StartAt(0));
    }
    match start_term(o)? {
        (Term::Number(v), q) => ended(o, q, Shape::StartAt(v)),
        _ => Err(0),
    }
}

#[tactic(auto, unfolding(crate::specs::Shape::end_shape))]
fn end_shape(o: &[u8]) -> Result<Shape, usize>
    ensures { result ≡ end_shape o.now }
{
    if o.is_empty() {
        return Ok(Shape::Nothing);
    }
    last_at(o, 0, Shape::Expression)
}

#[tactic(auto, unfolding(crate::specs::Shape::pair_shape))]
fn pair_shape(o: &[u8]) -> Result<Shape, usize>
    ensures { result ≡ pair_shape o.now }
{
    let q = expression_form(o, 0)?;
    let p = behind_byte(o, q, b',')?;
    last_at(o, p, Shape::Pair(p))
}

fn first_allowed(k: Lengths) -> Allowed
    ensures { result ≡ first_allowed k }
{
    match k {
        Lengths::OnNone => Allowed::NoLength,
        _ => Allowed::MayHaveLength,
    }
}

fn second_allowed(k: Lengths, first: Option<usize>) -> Allowed
    ensures { result ≡ second_allowed k first }
{
    match k {
        Lengths::OnEach => Allowed::MayHaveLength,
        _ if first.is_some() => Allowed::NoLength,
        Lengths::OnOne => Allowed::MayHaveLength,
        Lengths::OnExactlyOne => Allowed::HasLength,
        Lengths::OnNone => Allowed::NoLength,
    }
}

#[tactic(auto, unfolding(crate::specs::Shape::two_shape, crate::specs::Shape::two_of))]
fn two_shape(o: &[u8], k: Lengths) -> Result<Shape, usize>
    ensures { result ≡ two_shape k o.now }
{
    let (a, q) = address_at(o, 0, first_allowed(k))?;
    let p = behind_byte(o, q, b',')?;
    let (b, end) = address_at(o, p, second_allowed(k, a.length))?;
    ended(o, end, Shape::TwoAddresses(a, b))
}

#[tactic(auto, unfolding(crate::specs::Shape::one_shape))]
fn one_shape(o: &[u8]) -> Result<Shape, usize>
    ensures { result ≡ one_shape o.now }
{
    let (a, q) = address_at(o, 0, Allowed::OnlyRegister)?;
    let p = behind_byte(o, q, b',')?;
    last_at(o, p, Shape::AddressAndCode(a, p))
}

#[tactic(auto, unfolding(crate::specs::Shape::only_shape))]
fn only_shape(o: &[u8]) -> Result<Shape, usize>
    ensures { result ≡ only_shape o.now }
{
    let (a, q) = address_at(o, 0, Allowed::OnlyRegister)?;
    ended(o, q, Shape::LoneAddress(a))
}

#[tactic(auto, unfolding(crate::specs::Shape::constant_shape, crate::specs::Shape::reserve_shape))]
fn shape_by(p: Pattern, o: &[u8]) -> Result<Shape, usize>
    ensures { result ≡ shape_by p o.now }
{
    match p {
        Pattern::Unreadable => Err(0),
        Pattern::StartTerm => start_shape(o),
        Pattern::Expression => last_at(o, 0, Shape::Expression),
        Pattern::MaybeExpression => end_shape(o),
        Pattern::Constant => Ok(Shape::Data(data_form(DataCard::Constant, o)?)),
        Pattern::Reserve => Ok(Shape::Data(data_form(DataCard::Reserve, o)?)),
        Pattern::Pair => pair_shape(o),
        Pattern::TwoAddresses(k) => two_shape(o, k),
        Pattern::AddressAndCode => one_shape(o),
        Pattern::LoneAddress => only_shape(o),
        Pattern::Target => last_at(o, 0, Shape::Target),
    }
}

// The shape of an operation's operand.
pub fn shape_of(o: &[u8], op: Operation) -> Result<Shape, usize>
    ensures { result ≡ shape_of op o.now }
{
    shape_by(traits_of(op).pattern, o)
}

// A direct address takes two bytes, an indexed one.
fn address_size(a: Address) -> usize
    ensures { (result ≡ address_size a.register) × (result ≤ 2) }
{
    match a.register {
        None => 2,
        Some(_) => 1,
    }
}

// The bytes of an instruction, a DC or a DS; 0 for the assembler's other cards.
pub fn size_of(op: Operation, x: Result<Shape, usize>) -> usize
    ensures { result ≡ size_of op x }
{
    match x {
        Ok(Shape::Pair(_)) => fixed_size(op),
        Ok(Shape::Target) => fixed_size(op),
        Ok(Shape::TwoAddresses(a, b)) => fixed_size(op) + address_size(a) + address_size(b),
        Ok(Shape::AddressAndCode(a, _)) => fixed_size(op) + address_size(a),
        Ok(Shape::LoneAddress(a)) => fixed_size(op) + address_size(a),
        Ok(Shape::Data(d)) => data::sizes::data_size(d),
        _ => 0,
    }
}
