// What pass two makes of a card: its refusal, where its text comes from, the entry if it is END, and where the pass stands behind it.
#![tactic(auto)]

pub mod records;

ghost use Rattle.std.specs.Prelude.{◌≡◌, true, ◌+◌, ◌^◌, ◌<◌, IfOk};
ghost use Rattle.values.specs.Refusals.{number_in};
ghost use Rattle.names.specs.Names.{find};
ghost use Rattle.forms.specs.Size.{size_of};
ghost use Rattle.lines.specs.declared.Reading.TheVariants.{Statement as Stated};
ghost use Rattle.lines.specs.Lines.{reading_of};
ghost use Rattle.passes.specs.Sound.{sound_reading};
ghost use Rattle.passes.specs.Two.{reading_two_no, two_no};
ghost use Rattle.making.specs.Steps.{course_by, text_from, sought_by, reading_made, made_none, card_made};

use data::{Data, DataCard, DataType};
use forms::Shape;
use lines::{Line, Reading, read_line};
use names::lookup::Names;
use operands::Operands;
use operations::traits::{Role, role_of};
use passes::{Course, counter_by, operands_at};
use statements::{Statement, bases_after, check_statement, lone_value, statement_from};
use values::refusals::Refusal;
use values::{Relocatable, Value, only_relocatable};

// The columns of a constant of type C, X or D, or a statement.
#[derive(Clone, Copy, Debug, PartialEq, Eq)]
pub enum Text {
    Columns(Data),
    Stated(Statement),
}

// What a card makes. `from` and `end`: where the columns of its operand start and end; `entry`: what END says of it.
#[derive(Clone, Copy, Debug, PartialEq, Eq)]
pub struct Made {
    pub text: Text,
    pub from: usize,
    pub end: usize,
    pub entry: Option<Option<Relocatable>>,
    pub course: Course,
}

// Where pass two stands behind a line whose expressions came to x, and its only expression to v.
fn course_after(c: Course, l: Line, x: Operands, v: Option<Value>) -> Course
    requires { c.counter + size_of l.operation l.shape < 2 ^ 32 }
    ensures { result ≡ course_by c l x v }
{
    Course {
        counter: counter_by(role_of(l.operation), v, c.counter, l),
        bases: bases_after(l.operation, x, c.bases),
    }
}

// Where the text of a line comes from. DS makes none.
fn text_from(shape: Result<Shape, usize>, st: Statement) -> Text
    ensures { result ≡ text_from shape st }
{
    match shape {
        Ok(Shape::Data(d)) => match (d.card, d.kind) {
            (DataCard::Reserve, _) => Text::Stated(Statement::NoBytes),
            (DataCard::Constant, DataType::Address) => Text::Stated(st),
            (DataCard::Constant, _) => Text::Columns(d),
        },
        _ => Text::Stated(st),
    }
}

// What END says of the entry.
fn entry_said(role: Role, v: Option<Value>) -> Option<Option<Relocatable>>
    ensures { result ≡ sought_by role v }
{
    match role {
        Role::Ends => Some(only_relocatable(v)),
        _ => None,
    }
}

fn make_line(c: Course, l: Line, card: &[u8], names: &Names) -> Result<Made, Refusal>
    requires { (reading_of card.now ≡ Stated l) × (c.counter + size_of l.operation l.shape < 2 ^ 32) }
    ensures number { number_in result ≡ reading_two_no (find names.now) c card.now (Stated l) }
    ensures made { IfOk result (λ m. m ≡ reading_made (find names.now) c card.now (Stated l)) }
{
    let x = operands_at(l, card, names, c.counter);
    check_statement(l.operation, x, c.counter, c.bases)?;
    let v = lone_value(x);
    Ok(Made {
        text: text_from(l.shape, statement_from(l.operation, x, c.counter, c.bases)),
        from: l.operand,
        end: l.end,
        entry: entry_said(role_of(l.operation), v),
        course: course_after(c, l, x, v),
    })
}

// A comment is not refused, and makes nothing.
fn make_none(c: Course) -> Made
    ensures { result ≡ made_none c }
{
    Made {
        text: Text::Stated(Statement::NoBytes),
        from: 0,
        end: 0,
        entry: None,
        course: c,
    }
}

// What a card makes, over the names, or its refusal 18 to 23.
#[tactic(auto, unfolding(crate::specs::Steps::card_made, passes::specs::Two::two_no))]
pub fn make_card(c: Course, card: &[u8], names: &Names) -> Result<Made, Refusal>
    requires { (sound_reading (reading_of card.now) ≡ true) × (c.counter + 65536 < 2 ^ 32) }
    ensures number { number_in result ≡ two_no (find names.now) c card.now }
    ensures made { IfOk result (λ m. m ≡ card_made (find names.now) c card.now) }
{
    match read_line(card) {
        Reading::Statement(l) => make_line(c, l, card, names),
        Reading::Comment | Reading::BadName => Ok(make_none(c)),
    }
}
