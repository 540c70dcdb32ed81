// Where operands lie: direct, or by a register under the bases in force; how far a jump goes; refusals 22 and 23.
#![tactic(auto)]

pub mod codes;

ghost use Rattle.std.specs.Prelude.{◌≡◌, ◌-◌, ◌≤◌, Ok, Err, leb};
ghost use Rattle.values.specs.Tests.{pick, both};
ghost use Rattle.values.specs.Refusals.{number_in};
ghost use Rattle.values.specs.declared.refusals.Refusal.TheVariants.{OutOfReach};
ghost use Rattle.expressions.specs.Value.{value_in, absolute_in};
ghost use Rattle.places.specs.Places.{away_from, displaced_by, indexed_by, operand_of, placed_no, operand_size, jump_to, register_no, use_no, places_no, with_base, using_base, drop_base, registered_by, bases_by};

use expressions::{Fault, absolute_in, relocatable_in, value_in};
use operands::{EvaluatedAddress, Operands};
use operations::traits::Use;
use values::refusals::{Refusal, lower_of};
use values::{Absolute, Value};

// The base of each register, under a USING in force.
#[derive(Clone, Copy, Debug, PartialEq, Eq)]
pub struct Bases {
    pub one: Option<Value>,
    pub two: Option<Value>,
}

// An operand: direct, or by register 1 or 2 with its displacement byte.
#[derive(Clone, Copy, Debug, PartialEq, Eq)]
pub enum Operand {
    Direct(Value),
    Indexed(Value, u8, u8),
}

// How far one address is behind another, where a byte can hold it.
fn reach(from: usize, to: usize) -> Result<u8, Refusal>
    ensures { result ≡ pick (both (leb from to) (leb (to - from) 255)) (Ok (to - from)) (Err OutOfReach) }
{
    to.checked_sub(from)
        .and_then(|distance| u8::try_from(distance).ok())
        .ok_or(Refusal::OutOfReach)
}

// An operand by a register: its value's distance from a base.
#[tactic(auto, unfolding(crate::specs::Places::away_from))]
fn away_from(v: Value, r: u8, from: u16, amount: u16) -> Result<Option<Operand>, Refusal>
    ensures { result ≡ away_from v r from amount }
{
    let displacement = reach(usize::from(from), usize::from(amount))?;
    Ok(Some(Operand::Indexed(v, r, displacement)))
}

// An absolute address is the byte itself; a relocatable one is told from a relocatable base.
#[tactic(auto, unfolding(crate::specs::Places::displaced_by))]
fn displaced_by(v: Value, r: u8, base: Option<Value>) -> Result<Option<Operand>, Refusal>
    ensures { result ≡ displaced_by v r base }
{
    match (v, base) {
        (Value::Absolute(a), _) => away_from(v, r, 0, a.0),
        (Value::Relocatable(a), Some(Value::Relocatable(b))) => away_from(v, r, b.0, a.0),
        _ => Err(Refusal::NoBase),
    }
}

#[tactic(auto, unfolding(crate::specs::Places::indexed_by))]
fn indexed_by(bases: Bases, v: Value, r: u16) -> Result<Option<Operand>, Refusal>
    ensures { result ≡ indexed_by bases v r }
{
    match r {
        1 => displaced_by(v, 1, bases.one),
        2 => displaced_by(v, 2, bases.two),
        _ => Err(Refusal::NoBase),
    }
}

// Direct where no register is written; an operand without a value has no place.
#[tactic(auto, unfolding(crate::specs::Places::operand_of))]
pub fn operand_of(bases: Bases, a: EvaluatedAddress) -> Result<Option<Operand>, Refusal>
    ensures { result ≡ operand_of bases a }
{
    match (value_in(a.address), a.register) {
        (Some(v), None) => Ok(Some(Operand::Direct(v))),
        (Some(v), Some(register)) => match absolute_in(register) {
            Some(r) => indexed_by(bases, v, r.0),
            None => Ok(None),
        },
        (None, _) => Ok(None),
    }
}

pub fn operand_size(x: Operand) -> usize
    ensures { (result ≡ operand_size x) × (result ≤ 2) }
{
    match x {
        Operand::Direct(_) => 2,
        Operand::Indexed(_, _, _) => 1,
    }
}

// A jump's byte: from the next instruction's address to the target.
#[tactic(auto, unfolding(crate::specs::Places::jump_code))]
pub fn jump_to(next: usize, target: Result<Value, Fault>) -> Result<Option<u8>, Refusal>
    ensures { result ≡ jump_to next target }
{
    match relocatable_in(target) {
        Some(to) => reach(next, usize::from(to.0)).map(Some),
        None => Ok(None),
    }
}

// 22 of USING and DROP.
fn check_register(register: Option<Absolute>) -> Result<(), Refusal>
    ensures { number_in result ≡ register_no register }
{
    match register {
        Some(r) if !(1..=2).contains(&r.0) => Err(Refusal::NoBase),
        _ => Ok(()),
    }
}

// `next`: the address behind the card.
fn check_use(
    u: Use,
    next: usize,
    first: Result<Value, Fault>,
    last: Result<Value, Fault>,
) -> Result<(), Refusal>
    ensures { number_in result ≡ use_no u next first last }
{
    match u {
        Use::Jumps => jump_to(next, first).map(|_| ()),
        Use::Registers => check_register(absolute_in(last)),
        Use::Nothing => Ok(()),
    }
}

fn check_place(bases: Bases, a: EvaluatedAddress) -> Result<(), Refusal>
    ensures { number_in result ≡ placed_no (operand_of bases a) }
{
    operand_of(bases, a).map(|_| ())
}

// `next`: the address behind the card.
#[tactic(auto, unfolding(crate::specs::Places::places_no))]
pub fn check_places(u: Use, x: Operands, next: usize, bases: Bases) -> Result<(), Refusal>
    ensures { number_in result ≡ places_no u x next bases }
{
    match x {
        Operands::TwoAddresses(a, b) => lower_of(check_place(bases, a), check_place(bases, b)),
        Operands::AddressAndCode(a, _) | Operands::LoneAddress(a) => check_place(bases, a),
        Operands::Pair(e, last) => check_use(u, next, e, last),
        Operands::Lone(e) => check_use(u, next, e, e),
        _ => Ok(()),
    }
}

fn with_base(bases: Bases, r: u16, base: Option<Value>) -> Bases
    ensures { result ≡ with_base bases r base }
{
    match r {
        1 => Bases { one: base, ..bases },
        2 => Bases { two: base, ..bases },
        _ => bases,
    }
}

// Behind a USING its base is in force.
fn using_base(bases: Bases, register: Result<Value, Fault>, base: Result<Value, Fault>) -> Bases
    ensures { result ≡ using_base bases (absolute_in register) (value_in base) }
{
    match (absolute_in(register), value_in(base)) {
        (Some(r), Some(v)) => with_base(bases, r.0, Some(v)),
        _ => bases,
    }
}

// Behind a DROP none is.
fn drop_base(bases: Bases, register: Result<Value, Fault>) -> Bases
    ensures { result ≡ drop_base bases (absolute_in register) }
{
    match absolute_in(register) {
        Some(r) => with_base(bases, r.0, None),
        None => bases,
    }
}

fn registered(x: Operands, bases: Bases) -> Bases
    ensures { result ≡ registered_by x bases }
{
    match x {
        Operands::Pair(e, r) => using_base(bases, r, e),
        Operands::Lone(r) => drop_base(bases, r),
        _ => bases,
    }
}

// The bases behind a card.
#[tactic(auto, unfolding(crate::specs::Places::bases_by))]
pub fn bases_by(u: Use, x: Operands, bases: Bases) -> Bases
    ensures { result ≡ bases_by u x bases }
{
    match u {
        Use::Registers => registered(x, bases),
        _ => bases,
    }
}
