// What a line's name stands for, and its place in the table of names.
#![tactic(auto)]

pub mod refusals;

ghost use Rattle.std.specs.Prelude.{◌≡◌, true, ◌+◌, ◌-◌, ◌≤◌, length, drop};
ghost use Rattle.names.specs.Names.{ascending};
ghost use Rattle.names.specs.Table.{names_in};
ghost use Rattle.passes.specs.Cards.{place_named, name_value_by, field_length, name_length_by};
ghost use Rattle.passes.specs.One.{over};
ghost use Rattle.defining.specs.Entering.{place_by, Enters, entered_by};

use forms::{Shape, size_of};
use lines::Line;
use names::{Name, define};
use operations::Operation;
use operations::traits::Role;
use passes::start_or;
use values::{Relocatable, Value};

// The last byte of a field of m bytes.
fn last_byte(counter: u32, m: u32) -> usize
    ensures { result ≡ counter + m - 1 }
{
    (counter as usize + m as usize).saturating_sub(1)
}

// The place that a card's name stands for: the last byte of the first copy on DC and DS, else the first byte.
fn place_named(counter: u32, x: Result<Shape, usize>) -> usize
    ensures { result ≡ place_named counter x }
{
    match x {
        Ok(Shape::Data(d)) => last_byte(counter, d.length),
        _ => counter as usize,
    }
}

// The place that a line's name stands for, before any limit; EQU's stands for none.
pub(crate) fn place_by(role: Role, counter: u32, x: Result<Shape, usize>) -> usize
    ensures { result ≡ place_by role counter x }
{
    match role {
        Role::Starts => start_or(x, counter) as usize,
        Role::Advances => place_named(counter, x),
        _ => counter as usize,
    }
}

// The value of a line's name, where it is in range; v is the value of its only expression.
fn name_value(role: Role, v: Option<Value>, counter: u32, l: Line) -> Option<Value>
    requires { over (name_value_by role v counter l) ≡ 0 }
    ensures { result ≡ name_value_by role v counter l }
{
    match role {
        Role::Equates => v,
        _ => {
            let place = place_by(role, counter, l.shape) as u16;
            Some(Value::Relocatable(Relocatable(place)))
        }
    }
}

// The length of a field, or an instruction's.
fn field_length(op: Operation, x: Result<Shape, usize>) -> usize
    ensures { result ≡ field_length op x }
{
    match x {
        Ok(Shape::Data(d)) => d.length as usize,
        _ => size_of(op, x),
    }
}

fn name_length(role: Role, op: Operation, x: Result<Shape, usize>) -> usize
    ensures { result ≡ name_length_by role op x }
{
    match role {
        Role::Advances => field_length(op, x),
        _ => 1,
    }
}

// A line's name goes into the table, where it has one; how many names there are then.
pub fn enter(
    role: Role,
    v: Option<Value>,
    counter: u32,
    l: Line,
    table: &mut [u8],
    count: usize,
) -> usize
    requires in_bounds { (8192 ≤ length table.old) × (ascending (names_in count table.old) ≡ true) × (count ≤ 512) }
    requires enters { Enters (names_in count table.old) role v counter l }
    ensures table_after { (names_in result table.new ≡ entered_by (names_in count table.old) role v counter l) × (result ≤ 512) }
    ensures table_unchanged { drop 8192 table.new ≡ drop 8192 table.old }
{
    let Some(number) = l.name else {
        return count;
    };
    let Some(value) = name_value(role, v, counter, l) else {
        return count;
    };
    let length = name_length(role, l.operation, l.shape) as u16;
    define(
        table,
        count,
        Name {
            number,
            value,
            length,
        },
    );
    count + 1
}
