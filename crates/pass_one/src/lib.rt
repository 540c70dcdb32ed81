// Pass one, over the cards in order: the counter, the names, and the first card that it refuses.
#![tactic(auto)]

ghost use Rattle.std.specs.Prelude.{◌≡◌, ◌≤◌, length, drop, IfOk};
ghost use Rattle.values.specs.Refusals.{number_in};
ghost use Rattle.names.specs.Names.{find};
ghost use Rattle.lines.specs.Lines.{reading_of};
ghost use Rattle.passes.specs.One.{fresh, early_no, line_no, one_no, phase_after, pass_one, step_one};
ghost use Rattle.pass_one.specs.Code.{early_value, early_in, state_of, stands_for, Fit, passed_as};

use cards::check_bytes;
use cards::source::Source;
use defining::enter;
use defining::refusals::{
    check_new, check_not_ended, check_over, check_room, check_sizes, check_start,
};
use forms::size_of;
use lines::{Line, Reading, check_shape, read_line};
use names::lookup::Names;
use operands::kinds::check_expressions;
use operations::traits::{Role, check_name, check_operation, role_of};
use passes::{Phase, Refused, counter_by, operands_at};
use statements::lone_value;
use values::Value;
use values::refusals::Refusal;

// Where pass one stands: the counter, how many names the table holds, and where START and END are.
#[derive(Clone, Copy, Debug, PartialEq, Eq)]
pub struct Pass {
    pub counter: u32,
    pub count: usize,
    pub phase: Phase,
}

// The value of EQU's or ORG's operand, over the names of earlier cards, or its refusal 18 to 20. At the other cards' operands pass one does not look.
#[tactic(auto, unfolding(passes::specs::One::early_no))]
fn early_value(l: Line, card: &[u8], names: &Names, counter: u32) -> Result<Option<Value>, Refusal>
    requires { (l.operand ≤ l.end) × (l.end ≤ length card.now) }
    ensures number { number_in result ≡ early_no (find names.now) counter card.now l }
    ensures value { IfOk result (λ v. v ≡ early_value (find names.now) counter card.now l) }
{
    match role_of(l.operation) {
        Role::Equates | Role::SetsCounter => {
            let x = operands_at(l, card, names, counter);
            check_expressions(l.operation, x)?;
            Ok(lone_value(x))
        }
        _ => Ok(None),
    }
}

// The lowest of refusals 12 to 24; or what pass one has looked at.
#[tactic(auto, unfolding(passes::specs::One::line_no, passes::specs::One::value_no, values::specs::Tests::or_else))]
fn check_line(p: Pass, l: Line, card: &[u8], names: &Names) -> Result<Option<Value>, Refusal>
    requires { (l.operand ≤ l.end) × (l.end ≤ length card.now) }
    ensures number { number_in result ≡ line_no (state_of p names.now) card.now l }
    ensures value { IfOk result (λ v. v ≡ early_value (find names.now) p.counter card.now l) }
{
    let role = role_of(l.operation);
    check_operation(l.operation)?;
    check_start(p.phase, role)?;
    check_name(l.operation, l.name)?;
    check_shape(l.shape)?;
    check_new(l.name, names)?;
    let v = early_value(l, card, names, p.counter)?;
    check_over(role, v, p.counter, l)?;
    check_sizes(l.shape)?;
    check_room(p.counter, size_of(l.operation, l.shape))?;
    Ok(v)
}

// The refusal of a card: 9 before all else, then 10 over all its columns; 11 of a bad name.
#[tactic(auto, unfolding(passes::specs::One::one_no, values::specs::Tests::or_else))]
fn check_card(
    p: Pass,
    card: &[u8],
    reading: Reading,
    names: &Names,
) -> Result<Option<Value>, Refusal>
    requires { reading_of card.now ≡ reading }
    ensures number { number_in result ≡ one_no (state_of p names.now) card.now }
    ensures value { IfOk result (λ v. v ≡ early_in (find names.now) p.counter card.now reading) }
{
    check_not_ended(p.phase)?;
    check_bytes(card)?;
    match reading {
        Reading::Comment => Ok(None),
        Reading::BadName => Err(Refusal::BadName),
        Reading::Statement(l) => check_line(p, l, card, names),
    }
}

fn phase_after(role: Role, p: Phase) -> Phase
    ensures { result ≡ phase_after role p }
{
    match role {
        Role::Starts => Phase::Within,
        Role::Ends => Phase::Ended,
        _ => p,
    }
}

// Behind a card that is let through, v being what pass one has looked at.
#[tactic(auto, unfolding(passes::specs::One::step_one))]
fn step_one(p: Pass, card: &[u8], reading: Reading, v: Option<Value>, table: &mut [u8]) -> Pass
    requires in_bounds { (8192 ≤ length table.old) × Fit p table.old }
    requires read { reading_of card.now ≡ reading }
    requires looked { v ≡ early_in (find (stands_for p table.old).names) p.counter card.now reading }
    requires let_through { one_no (stands_for p table.old) card.now ≡ 0 }
    ensures table_after { (stands_for result table.new ≡ step_one (stands_for p table.old) card.now) × Fit result table.new }
    ensures table_unchanged { drop 8192 table.new ≡ drop 8192 table.old }
{
    match reading {
        Reading::Comment | Reading::BadName => p,
        Reading::Statement(l) => {
            let role = role_of(l.operation);
            Pass {
                counter: counter_by(role, v, p.counter, l),
                count: enter(role, v, p.counter, l, table, p.count),
                phase: phase_after(role, p.phase),
            }
        }
    }
}

// Over all cards of a source, with the table of names in the first 8,192 bytes of a lent area.
#[tactic(auto, using(crate::proofs::Laws::ran_stop, crate::proofs::Laws::ran_through))]
pub fn run_one(source: &Source, table: &mut [u8]) -> Result<Pass, Refused>
    requires { 8192 ≤ length table.old }
    ensures table_after { passed_as result table.new ≡ pass_one 1 fresh source.now }
    ensures table_unchanged { drop 8192 table.new ≡ drop 8192 table.old }
{
    let mut p = Pass {
        counter: 0,
        count: 0,
        phase: Phase::Before,
    };
    for i in 0..source.len() {
        let card = source.card(i);
        let reading = read_line(card);
        let k = i as u16 + 1;
        let checked = check_card(p, card, reading, &Names::of(table, p.count));
        let v = checked.map_err(|r| Refused::at(k, r))?;
        p = step_one(p, card, reading, v, table);
    }
    match p.phase {
        Phase::Ended => Ok(p),
        _ => Err(Refused::at(0, Refusal::MisplacedEnd)),
    }
}
