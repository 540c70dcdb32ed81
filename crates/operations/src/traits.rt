// What an operation is, all in one row: its name, its part in the counter, how its operand is written and used, its Q, its bytes.
ghost use Rattle.std.specs.Prelude.{◌≡◌, ◌≤◌};
ghost use Rattle.values.specs.Refusals.{number_in};
ghost use Rattle.operations.specs.Traits.{unknown, own, instruction, jump, traits_of, role_of, use_of, rule_of, first_wanted, fixed_size, operation_no, name_no};

use crate::Operation;
use values::Wanted;
use values::refusals::Refusal;

// Whether a card has a name.
#[derive(Clone, Copy, Debug, PartialEq, Eq)]
pub enum Naming {
    Needed,
    Taken,
    Forbidden,
}

// What a card does to the counter and the names: an ordinary one advances the counter by its bytes.
#[derive(Clone, Copy, Debug, PartialEq, Eq)]
pub enum Role {
    Starts,
    Equates,
    SetsCounter,
    Ends,
    Advances,
}

// On how many of two addresses a length, or MVX's item, is written.
#[derive(Clone, Copy, Debug, PartialEq, Eq)]
pub enum Lengths {
    OnEach,
    OnOne,
    OnExactlyOne,
    OnNone,
}

// How an operand is written.
#[derive(Clone, Copy, Debug, PartialEq, Eq)]
pub enum Pattern {
    // No operand is right.
    Unreadable,
    // One decimal or hex term, or nothing.
    StartTerm,
    Expression,
    // An expression, or nothing.
    MaybeExpression,
    // DC and DS.
    Constant,
    Reserve,
    // E,R or E,Q without items.
    Pair,
    TwoAddresses(Lengths),
    AddressAndCode,
    LoneAddress,
    // A jump's E.
    Target,
}

// What a card does with its first or last expression: jumps to it, or takes it for a register.
#[derive(Clone, Copy, Debug, PartialEq, Eq)]
pub enum Use {
    Jumps,
    Registers,
    Nothing,
}

// What an operation's Q is made of: the lengths of both operands, one length, an item, a register, a Q that is written; or what an extended mnemonic brings.
#[derive(Clone, Copy, Debug, PartialEq, Eq)]
pub enum Rule {
    Lengths,
    Length,
    Item,
    Register,
    Written,
    Given(u8),
}

// The operation byte: by the modes of the operands and a low half, or one byte alone.
#[derive(Clone, Copy, Debug, PartialEq, Eq)]
pub enum Opcode {
    NoByte,
    ByTwoModes(u8),
    ByOneMode(u8),
    ByBranchMode(u8),
    Fixed(u8),
}

#[derive(Clone, Copy, Debug, PartialEq, Eq)]
pub struct Traits {
    pub known: bool,
    pub naming: Naming,
    pub role: Role,
    pub pattern: Pattern,
    // The kind that the first expression must have.
    pub first: Wanted,
    pub uses: Use,
    pub rule: Rule,
    // The bytes beside those of addresses: of an instruction its operation byte and Q, of a jump its byte too.
    pub fixed: usize,
    pub opcode: Opcode,
}

fn unknown() -> Traits
    ensures { result ≡ unknown }
{
    Traits {
        known: false,
        naming: Naming::Taken,
        role: Role::Advances,
        pattern: Pattern::Unreadable,
        first: Wanted::Any,
        uses: Use::Nothing,
        rule: Rule::Given(0),
        fixed: 0,
        opcode: Opcode::NoByte,
    }
}

// One of the assembler's own operations.
fn own(naming: Naming, role: Role, pattern: Pattern, first: Wanted, uses: Use) -> Traits
    ensures { result ≡ own naming role pattern first uses }
{
    Traits {
        known: true,
        naming,
        role,
        pattern,
        first,
        uses,
        ..unknown()
    }
}

// An instruction with addresses.
fn instruction(pattern: Pattern, rule: Rule, opcode: Opcode) -> Traits
    ensures { result ≡ instruction pattern rule opcode }
{
    Traits {
        known: true,
        pattern,
        rule,
        fixed: 2,
        opcode,
        ..unknown()
    }
}

fn jump(pattern: Pattern, rule: Rule) -> Traits
    ensures { result ≡ jump pattern rule }
{
    Traits {
        first: Wanted::OnlyRelocatable,
        uses: Use::Jumps,
        fixed: 3,
        ..instruction(pattern, rule, Opcode::Fixed(0xF2))
    }
}

pub fn traits_of(o: Operation) -> Traits
    ensures { result ≡ traits_of o }
{
    match o {
        Operation::Unknown => unknown(),
        Operation::Start => own(
            Naming::Taken,
            Role::Starts,
            Pattern::StartTerm,
            Wanted::Any,
            Use::Nothing,
        ),
        Operation::Equ => own(
            Naming::Needed,
            Role::Equates,
            Pattern::Expression,
            Wanted::Any,
            Use::Nothing,
        ),
        Operation::Org => own(
            Naming::Forbidden,
            Role::SetsCounter,
            Pattern::Expression,
            Wanted::OnlyRelocatable,
            Use::Nothing,
        ),
        Operation::Dc => own(
            Naming::Taken,
            Role::Advances,
            Pattern::Constant,
            Wanted::Any,
            Use::Nothing,
        ),
        Operation::Ds => own(
            Naming::Taken,
            Role::Advances,
            Pattern::Reserve,
            Wanted::Any,
            Use::Nothing,
        ),
        Operation::Using => own(
            Naming::Forbidden,
            Role::Advances,
            Pattern::Pair,
            Wanted::Any,
            Use::Registers,
        ),
        Operation::Drop => own(
            Naming::Forbidden,
            Role::Advances,
            Pattern::Expression,
            Wanted::OnlyAbsolute,
            Use::Registers,
        ),
        Operation::End => own(
            Naming::Forbidden,
            Role::Ends,
            Pattern::MaybeExpression,
            Wanted::OnlyRelocatable,
            Use::Nothing,
        ),
        Operation::TwoLengths(low) => instruction(
            Pattern::TwoAddresses(Lengths::OnEach),
            Rule::Lengths,
            Opcode::ByTwoModes(low),
        ),
        Operation::OneLength(low) => instruction(
            Pattern::TwoAddresses(Lengths::OnOne),
            Rule::Length,
            Opcode::ByTwoModes(low),
        ),
        Operation::HalfBytes => instruction(
            Pattern::TwoAddresses(Lengths::OnExactlyOne),
            Rule::Item,
            Opcode::ByTwoModes(0x8),
        ),
        Operation::HalfBytesOf(item) => instruction(
            Pattern::TwoAddresses(Lengths::OnNone),
            Rule::Given(item),
            Opcode::ByTwoModes(0x8),
        ),
        Operation::OneAddress(low) => instruction(
            Pattern::AddressAndCode,
            Rule::Written,
            Opcode::ByOneMode(low),
        ),
        Operation::Branch(low) => instruction(
            Pattern::AddressAndCode,
            Rule::Written,
            Opcode::ByBranchMode(low),
        ),
        Operation::LoadAddress => instruction(
            Pattern::AddressAndCode,
            Rule::Register,
            Opcode::ByBranchMode(0x2),
        ),
        Operation::BranchOn(q) => instruction(
            Pattern::LoneAddress,
            Rule::Given(q),
            Opcode::ByBranchMode(0x0),
        ),
        Operation::Jump => jump(Pattern::Pair, Rule::Written),
        Operation::JumpOn(q) => jump(Pattern::Target, Rule::Given(q)),
    }
}

pub fn role_of(o: Operation) -> Role
    ensures { result ≡ role_of o }
{
    traits_of(o).role
}

pub fn use_of(o: Operation) -> Use
    ensures { result ≡ use_of o }
{
    traits_of(o).uses
}

pub fn rule_of(o: Operation) -> Rule
    ensures { result ≡ rule_of o }
{
    traits_of(o).rule
}

pub fn first_wanted(o: Operation) -> Wanted
    ensures { result ≡ first_wanted o }
{
    traits_of(o).first
}

pub fn fixed_size(o: Operation) -> usize
    ensures { (result ≡ fixed_size o) × (result ≤ 3) }
{
    traits_of(o).fixed
}

// 12 of an operation that is none.
pub fn check_operation(o: Operation) -> Result<(), Refusal>
    ensures { number_in result ≡ operation_no o }
{
    if traits_of(o).known {
        Ok(())
    } else {
        Err(Refusal::UnknownOperation)
    }
}

// 14 of a card with this name.
pub fn check_name(o: Operation, name: Option<u64>) -> Result<(), Refusal>
    ensures { number_in result ≡ name_no o name }
{
    match (traits_of(o).naming, name) {
        (Naming::Needed, None) | (Naming::Forbidden, Some(_)) => Err(Refusal::MisplacedName),
        _ => Ok(()),
    }
}
