// What the expressions of a card's operand come to.
#![tactic(auto)]

pub mod kinds;

ghost use Rattle.std.specs.Prelude.{◌≡◌};
ghost use Rattle.names.specs.Names.{find};
ghost use Rattle.operands.specs.Operands.{item_of, address_of, constant_of, operands_of};

use addresses::Address;
use data::{Data, DataCard, DataType};
use expressions::Fault;
use expressions::factors::Scope;
use forms::Shape;
use values::Value;

// An address with its items in parentheses, where they are written, and the length that it implies.
#[derive(Clone, Copy, Debug, PartialEq, Eq)]
pub struct EvaluatedAddress {
    pub address: Result<Value, Fault>,
    pub length: Option<Result<Value, Fault>>,
    pub register: Option<Result<Value, Fault>>,
    pub implied: u16,
}

#[derive(Clone, Copy, Debug, PartialEq, Eq)]
pub enum Operands {
    TwoAddresses(EvaluatedAddress, EvaluatedAddress),
    // An address and a Q.
    AddressAndCode(EvaluatedAddress, Result<Value, Fault>),
    LoneAddress(EvaluatedAddress),
    // A jump's target and its Q; a base and its register.
    Pair(Result<Value, Fault>, Result<Value, Fault>),
    Lone(Result<Value, Fault>),
    // Copies of an address constant, and their length.
    AddressConstants(u32, u32, Result<Value, Fault>),
    NoExpression,
}

fn item_of(item: Option<usize>, scope: Scope) -> Option<Result<Value, Fault>>
    ensures { result ≡ item_of (find scope.entry.names.now) scope.entry.here scope.entry.columns.now item }
{
    Some(scope.evaluate(item?))
}

fn address_of(a: Address, scope: Scope) -> EvaluatedAddress
    ensures { result ≡ address_of (find scope.entry.names.now) scope.entry.here scope.entry.columns.now a }
{
    EvaluatedAddress {
        address: scope.evaluate(a.at),
        length: item_of(a.length, scope),
        register: item_of(a.register, scope),
        implied: scope.implied_length(a.at),
    }
}

// The expression of a DC's address constants; other data cards have none.
fn constant_of(d: Data, scope: Scope) -> Operands
    ensures { result ≡ constant_of (find scope.entry.names.now) scope.entry.here scope.entry.columns.now d }
{
    match (d.card, d.kind) {
        (DataCard::Constant, DataType::Address) => {
            Operands::AddressConstants(d.copies, d.length, scope.evaluate(d.value))
        }
        _ => Operands::NoExpression,
    }
}

// Every expression of an operand, evaluated.
#[tactic(auto, unfolding(crate::specs::Operands::operands_of))]
pub fn operands_of(shape: Result<Shape, usize>, scope: Scope) -> Operands
    ensures { result ≡ operands_of (find scope.entry.names.now) scope.entry.here scope.entry.columns.now shape }
{
    match shape {
        Ok(Shape::Expression | Shape::Target) => Operands::Lone(scope.evaluate(0)),
        Ok(Shape::Pair(p)) => Operands::Pair(scope.evaluate(0), scope.evaluate(p)),
        Ok(Shape::TwoAddresses(a, b)) => {
            Operands::TwoAddresses(address_of(a, scope), address_of(b, scope))
        }
        Ok(Shape::AddressAndCode(a, q)) => {
            Operands::AddressAndCode(address_of(a, scope), scope.evaluate(q))
        }
        Ok(Shape::LoneAddress(a)) => Operands::LoneAddress(address_of(a, scope)),
        Ok(Shape::Data(d)) => constant_of(d, scope),
        _ => Operands::NoExpression,
    }
}
