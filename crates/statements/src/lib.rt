// What an instruction or a card of the assembler's own means: its statement, or the lowest of refusals 18 to 23, from its operands, the counter and the bases.
#![tactic(auto)]

ghost use Rattle.std.specs.Prelude.{◌≡◌};
ghost use Rattle.values.specs.Refusals.{number_in};
ghost use Rattle.statements.specs.Statements.{next_of, statement_no, two_of, one_of, jump_of, constants_of, statement_from, bases_after, lone_value};

use expressions::value_in;
use operands::Operands;
use operands::kinds::check_expressions;
use operations::Operation;
use operations::traits::{Use, fixed_size, use_of};
use places::codes::{check_code, code_of};
use places::{Bases, Operand, bases_by, check_places, jump_to, operand_of};
use values::Value;
use values::refusals::Refusal;

// A statement that makes bytes: its operation, its Q and its operands; a jump's Q and byte. NoBytes: it makes none.
#[derive(Clone, Copy, Debug, PartialEq, Eq)]
pub enum Statement {
    TwoAddresses(Operation, u8, Operand, Operand),
    OneAddress(Operation, u8, Operand),
    Jump(u8, u8),
    // Copies, their length, their value.
    AddressConstants(u32, u32, Value),
    NoBytes,
}

// The address behind a card that jumps.
fn next_of(op: Operation, here: u32) -> usize
    ensures { result ≡ next_of op here }
{
    here as usize + fixed_size(op)
}

// The lowest of refusals 18 to 23 that holds.
#[tactic(auto, unfolding(crate::specs::Statements::statement_no, values::specs::Tests::or_else))]
pub fn check_statement(op: Operation, x: Operands, here: u32, bases: Bases) -> Result<(), Refusal>
    ensures { number_in result ≡ statement_no op x here bases }
{
    check_expressions(op, x)?;
    check_code(code_of(op, x))?;
    check_places(use_of(op), x, next_of(op, here), bases)
}

fn two_of(
    op: Operation,
    code: Result<Option<u8>, Refusal>,
    first: Result<Option<Operand>, Refusal>,
    second: Result<Option<Operand>, Refusal>,
) -> Statement
    ensures { result ≡ two_of op code first second }
{
    match (code, first, second) {
        (Ok(Some(q)), Ok(Some(a)), Ok(Some(b))) => Statement::TwoAddresses(op, q, a, b),
        _ => Statement::NoBytes,
    }
}

fn one_of(
    op: Operation,
    code: Result<Option<u8>, Refusal>,
    first: Result<Option<Operand>, Refusal>,
) -> Statement
    ensures { result ≡ one_of op code first }
{
    match (code, first) {
        (Ok(Some(q)), Ok(Some(a))) => Statement::OneAddress(op, q, a),
        _ => Statement::NoBytes,
    }
}

// A card that does not jump makes no byte of its lone expression.
fn jump_of(
    u: Use,
    code: Result<Option<u8>, Refusal>,
    reach: Result<Option<u8>, Refusal>,
) -> Statement
    ensures { result ≡ jump_of u code reach }
{
    match (u, code, reach) {
        (Use::Jumps, Ok(Some(q)), Ok(Some(byte))) => Statement::Jump(q, byte),
        _ => Statement::NoBytes,
    }
}

fn constants_of(copies: u32, length: u32, v: Option<Value>) -> Statement
    ensures { result ≡ constants_of copies length v }
{
    match v {
        Some(v) => Statement::AddressConstants(copies, length, v),
        None => Statement::NoBytes,
    }
}

// The statement, where every part of it is there.
#[tactic(auto, unfolding(crate::specs::Statements::statement_from))]
pub fn statement_from(op: Operation, x: Operands, here: u32, bases: Bases) -> Statement
    ensures { result ≡ statement_from op x here bases }
{
    let code = code_of(op, x);
    match x {
        Operands::TwoAddresses(a, b) => two_of(
            op,
            code,
            operand_of(bases, a),
            operand_of(bases, b),
        ),
        Operands::AddressAndCode(a, _) | Operands::LoneAddress(a) => {
            one_of(op, code, operand_of(bases, a))
        }
        Operands::Pair(e, _) | Operands::Lone(e) => {
            jump_of(use_of(op), code, jump_to(next_of(op, here), e))
        }
        Operands::AddressConstants(copies, length, e) => constants_of(copies, length, value_in(e)),
        Operands::NoExpression => Statement::NoBytes,
    }
}

// The bases in force behind a card.
pub fn bases_after(op: Operation, x: Operands, bases: Bases) -> Bases
    ensures { result ≡ bases_after op x bases }
{
    bases_by(use_of(op), x, bases)
}

// The value of a card's only expression: EQU's value, ORG's counter, END's entry.
pub fn lone_value(x: Operands) -> Option<Value>
    ensures { result ≡ lone_value x }
{
    match x {
        Operands::Lone(e) => value_in(e),
        _ => None,
    }
}
