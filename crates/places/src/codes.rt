// An instruction's Q, and refusal 21 where a length, an item or a Q is out of range. Where a value is missing there is no Q: one of 18 to 20 is told.
ghost use Rattle.std.specs.Prelude.{◌≡◌, ◌+◌, ◌-◌, ◌≤◌, Some, None, Ok, Err, leb};
ghost use Rattle.values.specs.Tests.{pick, both};
ghost use Rattle.values.specs.Refusals.{number_in};
ghost use Rattle.values.specs.declared.refusals.Refusal.TheVariants.{BadSize};
ghost use Rattle.values.specs.Values.{with_absolute};
ghost use Rattle.expressions.specs.Value.{absolute_in};
ghost use Rattle.operations.specs.declared.traits.Rule.TheVariants.{Lengths};
ghost use Rattle.places.specs.Codes.{lengths_code, item_or, length_or, two_code, behind_code, given_code, code_of, code_no};

use expressions::{Fault, absolute_in};
use operands::{EvaluatedAddress, Operands};
use operations::Operation;
use operations::traits::{Rule, rule_of};
use values::refusals::Refusal;
use values::{Absolute, Value};

#[tactic(auto, unfolding(crate::specs::Codes::lengths_code))]
fn lengths_code(l1: u16, l2: u16) -> Result<Option<u8>, Refusal>
    ensures { result ≡ lengths_code l1 l2 }
{
    if (1..=16).contains(&l2) && l2 <= l1 && l1 - l2 <= 15 {
        Ok(Some((16 * (l1 - l2) + (l2 - 1)) as u8))
    } else {
        Err(Refusal::BadSize)
    }
}

// Q of a number from low to high: its distance from the number whose Q is 0.
fn code_in(v: Option<Absolute>, low: u16, high: u16, zero: u16) -> Result<Option<u8>, Refusal>
    requires { (zero ≤ low) × (high ≤ zero + 255) }
    ensures { result ≡ with_absolute v (λ n. pick (both (leb low n) (leb n high)) (Ok (Some (n - zero))) (Err BadSize)) (Ok None) }
{
    match v {
        Some(n) if (low..=high).contains(&n.0) => Ok(Some((n.0 - zero) as u8)),
        Some(_) => Err(Refusal::BadSize),
        None => Ok(None),
    }
}

// The value of an item, or another where it is not written.
fn item_or(item: Option<Result<Value, Fault>>, other: Option<Absolute>) -> Option<Absolute>
    ensures { result ≡ item_or item other }
{
    item.map_or(other, absolute_in)
}

fn length_or(item: Option<Result<Value, Fault>>, a: EvaluatedAddress) -> Option<Absolute>
    ensures { result ≡ length_or item a }
{
    item_or(item, Some(Absolute(a.implied)))
}

// A length on each address.
fn each_length(a: EvaluatedAddress, b: EvaluatedAddress) -> Result<Option<u8>, Refusal>
    ensures { result ≡ two_code Lengths a b }
{
    match (length_or(a.length, a), length_or(b.length, b)) {
        (Some(l1), Some(l2)) => lengths_code(l1.0, l2.0),
        _ => Ok(None),
    }
}

// Q of a card with two addresses: a length on each; or one length, that of the first address where none is written; or MVX's item.
#[tactic(auto, unfolding(crate::specs::Codes::length_code, crate::specs::Codes::item_code))]
fn two_code(rule: Rule, a: EvaluatedAddress, b: EvaluatedAddress) -> Result<Option<u8>, Refusal>
    ensures { result ≡ two_code rule a b }
{
    match rule {
        Rule::Lengths => each_length(a, b),
        Rule::Length => code_in(item_or(a.length, length_or(b.length, a)), 1, 256, 1),
        Rule::Item => code_in(item_or(a.length, item_or(b.length, None)), 0, 3, 0),
        _ => given_code(rule),
    }
}

// Q of a card that has it behind a comma.
#[tactic(auto, unfolding(crate::specs::Codes::register_code, crate::specs::Codes::written_code))]
fn behind_code(rule: Rule, q: Result<Value, Fault>) -> Result<Option<u8>, Refusal>
    ensures { result ≡ behind_code rule (absolute_in q) }
{
    match rule {
        Rule::Register => code_in(absolute_in(q), 1, 2, 0),
        Rule::Written => code_in(absolute_in(q), 0, 255, 0),
        _ => given_code(rule),
    }
}

// Q of a card whose mnemonic brings it.
fn given_code(rule: Rule) -> Result<Option<u8>, Refusal>
    ensures { result ≡ given_code rule }
{
    match rule {
        Rule::Given(q) => Ok(Some(q)),
        _ => Ok(None),
    }
}

#[tactic(auto, unfolding(crate::specs::Codes::code_of))]
pub fn code_of(op: Operation, x: Operands) -> Result<Option<u8>, Refusal>
    ensures { result ≡ code_of op x }
{
    let rule = rule_of(op);
    match x {
        Operands::TwoAddresses(a, b) => two_code(rule, a, b),
        Operands::AddressAndCode(_, q) | Operands::Pair(_, q) => behind_code(rule, q),
        _ => given_code(rule),
    }
}

// 21, a length, an item or a Q out of range. Where there is none, one of 18 to 20 is told before.
pub fn check_code(code: Result<Option<u8>, Refusal>) -> Result<(), Refusal>
    ensures { number_in result ≡ code_no code }
{
    code?.ok_or(Refusal::BadSize)?;
    Ok(())
}
