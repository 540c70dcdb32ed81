// Refusals 18, 19 and 20 over all expressions of a card: the kind that each place wants.
ghost use Rattle.std.specs.Prelude.{◌≡◌};
ghost use Rattle.values.specs.Refusals.{number_in};
ghost use Rattle.operands.specs.Kinds.{item_no, address_no, constant_wanted, expressions_no};

use crate::{EvaluatedAddress, Operands};
use expressions::{Fault, check_value};
use operations::Operation;
use operations::traits::first_wanted;
use values::refusals::{Refusal, lower_of};
use values::{Value, Wanted};

fn constant_wanted(length: u32) -> Wanted
    ensures { result ≡ constant_wanted length }
{
    if length == 2 {
        Wanted::Any
    } else {
        Wanted::OnlyAbsolute
    }
}

fn check_item(item: Option<Result<Value, Fault>>) -> Result<(), Refusal>
    ensures { number_in result ≡ item_no item }
{
    item.map_or(Ok(()), |e| check_value(Wanted::OnlyAbsolute, e))
}

fn check_address(a: EvaluatedAddress) -> Result<(), Refusal>
    ensures { number_in result ≡ address_no a }
{
    lower_of(
        check_value(Wanted::Any, a.address),
        lower_of(check_item(a.length), check_item(a.register)),
    )
}

#[tactic(auto, unfolding(crate::specs::Kinds::expressions_no))]
pub fn check_expressions(op: Operation, x: Operands) -> Result<(), Refusal>
    ensures { number_in result ≡ expressions_no op x }
{
    match x {
        Operands::TwoAddresses(a, b) => lower_of(check_address(a), check_address(b)),
        Operands::AddressAndCode(a, q) => lower_of(
            check_address(a),
            check_value(Wanted::OnlyAbsolute, q),
        ),
        Operands::LoneAddress(a) => check_address(a),
        Operands::Pair(e, q) => lower_of(
            check_value(first_wanted(op), e),
            check_value(Wanted::OnlyAbsolute, q),
        ),
        Operands::Lone(e) => check_value(first_wanted(op), e),
        Operands::AddressConstants(_, length, e) => check_value(constant_wanted(length), e),
        Operands::NoExpression => Ok(()),
    }
}
