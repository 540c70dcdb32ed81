// Pass one's rules, one by one.
ghost use Rattle.std.specs.Prelude.{◌≡◌};
ghost use Rattle.values.specs.Refusals.{number_in};
ghost use Rattle.names.specs.Names.{name_refusal};
ghost use Rattle.passes.specs.One.{after_end_no, start_no, most_names, if_named, m_fits, amount_over, over, sizes_no, room_no};
ghost use Rattle.defining.specs.Entering.{over_by};

use crate::place_by;
use data::sizes::{check_data, length_fits};
use forms::Shape;
use lines::Line;
use names::lookup::Names;
use operations::traits::Role;
use passes::Phase;
use values::Value;
use values::refusals::Refusal;

// How many names there may be.
const MOST_NAMES: usize = 512;

// 9: a card after END.
pub fn check_not_ended(p: Phase) -> Result<(), Refusal>
    ensures { number_in result ≡ after_end_no p }
{
    if p == Phase::Ended {
        Err(Refusal::MisplacedEnd)
    } else {
        Ok(())
    }
}

// 13: START missing first, or again.
pub fn check_start(p: Phase, r: Role) -> Result<(), Refusal>
    ensures { number_in result ≡ start_no p r }
{
    if (p == Phase::Before) == (r == Role::Starts) {
        Ok(())
    } else {
        Err(Refusal::MisplacedStart)
    }
}

// 16 and 17 of a line's name.
pub fn check_new(name: Option<u64>, names: &Names) -> Result<(), Refusal>
    ensures { number_in result ≡ if_named name (name_refusal most_names names.now) }
{
    match name {
        Some(number) => names.check_new(MOST_NAMES, number),
        None => Ok(()),
    }
}

fn m_fits(shape: Result<Shape, usize>) -> bool
    ensures { result ≡ m_fits shape }
{
    match shape {
        Ok(Shape::Data(d)) => length_fits(d),
        _ => true,
    }
}

fn check_amount(n: usize) -> Result<(), Refusal>
    ensures { number_in result ≡ amount_over n }
{
    if n <= 65535 {
        Ok(())
    } else {
        Err(Refusal::OutOfRange)
    }
}

fn check_equated(v: Option<Value>) -> Result<(), Refusal>
    ensures { number_in result ≡ over v }
{
    match v {
        Some(x) => check_amount(usize::from(x.amount())),
        None => Ok(()),
    }
}

// 20 of a name whose value is over 65535, not where m is out of range.
pub fn check_over(r: Role, v: Option<Value>, counter: u32, l: Line) -> Result<(), Refusal>
    ensures { number_in result ≡ if_named l.name (λ name. over_by r v counter l) }
{
    if l.name.is_none() || !m_fits(l.shape) {
        return Ok(());
    }
    if r == Role::Equates {
        check_equated(v)
    } else {
        check_amount(place_by(r, counter, l.shape))
    }
}

// 21 of DC and DS.
pub fn check_sizes(shape: Result<Shape, usize>) -> Result<(), Refusal>
    ensures { number_in result ≡ sizes_no shape }
{
    match shape {
        Ok(Shape::Data(d)) => check_data(d),
        _ => Ok(()),
    }
}

// 24: the counter past 65536.
pub fn check_room(counter: u32, size: usize) -> Result<(), Refusal>
    ensures { number_in result ≡ room_no counter size }
{
    if size <= 65536 && counter as usize + size <= 65536 {
        Ok(())
    } else {
        Err(Refusal::NoRoom)
    }
}
