// An expression at a position of a card: its form from the columns alone, and its value over the names and the counter.
#![tactic(auto)]

pub mod factors;
pub mod form;
pub mod sums;

ghost use Rattle.std.specs.Prelude.{◌≡◌};
ghost use Rattle.values.specs.Refusals.{number_in};
ghost use Rattle.names.specs.Names.{find};
ghost use Rattle.expressions.specs.Form.{factors_at, product_at, expression_at};
ghost use Rattle.expressions.specs.Value.{evaluated, suits, kind_of, refusal_for, value_in, absolute_in, relocatable_in};
ghost use Rattle.expressions.specs.Steps.{held_on, held_at, ranged, ended};

use factors::Scope;
use form::joins_at;
use letters::byte_at;
use sums::{Held, Running};
use terms::read_term;
use values::refusals::Refusal;
use values::{Absolute, Relocatable, Value, Wanted, only_absolute, only_relocatable};

#[derive(Clone, Copy, Debug, PartialEq, Eq)]
pub enum Kind {
    Absolute,
    Relocatable,
}

// Why an expression has no value: 15, 18, 19, or 20 with the kind that the value would have.
#[derive(Clone, Copy, Debug, PartialEq, Eq)]
pub enum Fault {
    Malformed,
    Undefined,
    WrongKind,
    OutOfRange(Kind),
}

impl<'a> Scope<'a> {
    // The factors behind what is held of a product, and the position behind them; none where a term is malformed.
    fn multiply_on(self, at: usize, h: Held) -> Option<(Held, usize)>
        ensures { result ≡ held_on (find self.entry.names.now) self.entry.here h (factors_at self.entry.columns.now at) }
    {
        let mut held = h;
        let mut q = at;
        while byte_at(self.columns, q) == b'*' {
            let (t, behind) = read_term(self.columns, q + 1).ok()?;
            held = held.multiplied(self.factor_of(t));
            q = behind;
        }
        Some((held, q))
    }

    #[tactic(auto, unfolding(crate::specs::Steps::held_at, crate::specs::Form::product_at), using(crate::proofs::Turns::product_begun, crate::proofs::Turns::read_ok))]
    fn multiply(self, at: usize) -> Option<(Held, usize)>
        ensures { result ≡ held_at (find self.entry.names.now) self.entry.here (product_at self.entry.columns.now at) }
    {
        let (t, q) = read_term(self.columns, at).ok()?;
        self.multiply_on(q, Held::begun(self.factor_of(t)))
    }

    // The value of the expression at a position, or why it has none.
    pub fn evaluate(self, at: usize) -> Result<Value, Fault>
        ensures { result ≡ evaluated (find self.entry.names.now) self.entry.here (expression_at self.entry.columns.now at) }
    {
        let mut sum = Running::nothing();
        let mut minus = false;
        let mut p = at;
        loop {
            let (h, q) = self.multiply(p).ok_or(Fault::Malformed)?;
            sum = sum.run_on(minus, h);
            if !joins_at(self.columns, q) {
                return end(sum);
            }
            minus = byte_at(self.columns, q) == b'-';
            p = q + 1;
        }
    }
}

// A sum modulo 65536, where it is at least the least of its kind and at most 65535; the least is held 16777216 above itself, as the sum is.
fn ranged(k: Kind, least: u32, r: Running) -> Result<u16, Fault>
    ensures { result ≡ ranged k least r }
{
    if r.out || r.sum < least || 16842751 < r.sum {
        return Err(Fault::OutOfRange(k));
    }
    Ok((r.sum % 65536) as u16)
}

// What a finished sum comes to: 18 before 19 before 20.
#[tactic(auto, unfolding(crate::specs::Steps::ended))]
fn end(r: Running) -> Result<Value, Fault>
    ensures { result ≡ ended r }
{
    if r.undefined {
        return Err(Fault::Undefined);
    }
    if r.mixed {
        return Err(Fault::WrongKind);
    }
    match r.plus.checked_sub(r.minus) {
        Some(0) => Ok(Value::Absolute(Absolute(ranged(Kind::Absolute, 16711680, r)?))),
        Some(1) => Ok(Value::Relocatable(Relocatable(ranged(Kind::Relocatable, 16777216, r)?))),
        _ => Err(Fault::WrongKind),
    }
}

fn suits_kind(w: Wanted, k: Kind) -> bool
    ensures { result ≡ suits w k }
{
    match w {
        Wanted::Any => true,
        Wanted::OnlyAbsolute => k == Kind::Absolute,
        Wanted::OnlyRelocatable => k == Kind::Relocatable,
    }
}

pub fn kind_of(v: Value) -> Kind
    ensures { result ≡ kind_of v }
{
    match v {
        Value::Absolute(_) => Kind::Absolute,
        Value::Relocatable(_) => Kind::Relocatable,
    }
}

// Whether an expression is refused at a place that wants a kind: a wrong kind goes before a value out of range.
pub fn check_value(w: Wanted, e: Result<Value, Fault>) -> Result<(), Refusal>
    ensures { number_in result ≡ refusal_for w e }
{
    match e {
        Ok(v) if suits_kind(w, kind_of(v)) => Ok(()),
        Err(Fault::OutOfRange(k)) if suits_kind(w, k) => Err(Refusal::OutOfRange),
        Err(Fault::Malformed) => Err(Refusal::Malformed),
        Err(Fault::Undefined) => Err(Refusal::Undefined),
        _ => Err(Refusal::WrongKind),
    }
}

// The value, where there is one.
pub fn value_in(e: Result<Value, Fault>) -> Option<Value>
    ensures { result ≡ value_in e }
{
    e.ok()
}

pub fn absolute_in(e: Result<Value, Fault>) -> Option<Absolute>
    ensures { result ≡ absolute_in e }
{
    only_absolute(e.ok())
}

pub fn relocatable_in(e: Result<Value, Fault>) -> Option<Relocatable>
    ensures { result ≡ relocatable_in e }
{
    only_relocatable(e.ok())
}
