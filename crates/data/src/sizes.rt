// The size of a data card's field, and refusal 21.
ghost use Rattle.std.specs.Prelude.{◌≡◌};
ghost use Rattle.values.specs.Refusals.{number_in};
ghost use Rattle.data.specs.Sizes.{half_up, longest, length_fits, needed, bytes_needed, data_size, constant_no, reserve_no, data_no};

use crate::{Data, DataCard, DataType};
use values::refusals::Refusal;

fn longest_of(kind: DataType) -> u32
    ensures { result ≡ longest kind }
{
    match kind {
        DataType::Address => 3,
        _ => 256,
    }
}

#[tactic(auto, unfolding(crate::specs::Sizes::length_fits))]
pub fn length_fits(d: Data) -> bool
    ensures { result ≡ length_fits d }
{
    1 <= d.length && d.length <= longest_of(d.kind)
}

// Half of a number, rounded up.
pub fn half_up(n: u32) -> u32
    ensures { result ≡ half_up n }
{
    n.div_ceil(2)
}

// The bytes that a value of so many characters or digits needs.
pub fn needed(kind: DataType, count: u32) -> u32
    ensures { result ≡ needed kind count }
{
    match kind {
        DataType::Hexadecimal => half_up(count),
        DataType::Address => 0,
        _ => count,
    }
}

pub fn bytes_needed(d: Data) -> u32
    ensures { result ≡ bytes_needed d }
{
    needed(d.kind, d.count)
}

// The bytes of all copies.
#[tactic(auto, unfolding(crate::specs::Sizes::data_size))]
pub fn data_size(d: Data) -> usize
    ensures { result ≡ data_size d }
{
    (d.copies as usize) * (d.length as usize)
}

// 21 of a DC card.
#[tactic(auto, unfolding(crate::specs::Sizes::constant_no))]
fn check_constant(d: Data) -> Result<(), Refusal>
    ensures { number_in result ≡ constant_no d }
{
    if length_fits(d) && d.copies <= 256 && bytes_needed(d) <= d.length && data_size(d) <= 256 {
        Ok(())
    } else {
        Err(Refusal::BadSize)
    }
}

// 21 of a DS card.
#[tactic(auto, unfolding(crate::specs::Sizes::reserve_no))]
fn check_reserve(d: Data) -> Result<(), Refusal>
    ensures { number_in result ≡ reserve_no d }
{
    if length_fits(d) && d.copies <= 65535 {
        Ok(())
    } else {
        Err(Refusal::BadSize)
    }
}

// 21 of a data card.
pub fn check_data(d: Data) -> Result<(), Refusal>
    ensures { number_in result ≡ data_no d }
{
    match d.card {
        DataCard::Constant => check_constant(d),
        DataCard::Reserve => check_reserve(d),
    }
}
