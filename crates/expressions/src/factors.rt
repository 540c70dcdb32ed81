// What a term stands for, and the length that it implies.
ghost use Rattle.std.specs.Prelude.{◌≡◌};
ghost use Rattle.names.specs.Names.{find};
ghost use Rattle.terms.specs.Terms.{term_at};
ghost use Rattle.expressions.specs.Value.{value_factor, meaning_factor, factor_of, meaning_length, term_length};

use names::Meaning;
use names::lookup::Names;
use terms::{Term, read_term};
use values::Value;

// A term's value, whether it is relocatable, whether it is a name that is not defined.
#[derive(Clone, Copy, Debug, PartialEq, Eq)]
pub struct Factor {
    pub value: u32,
    pub relocatable: bool,
    pub undefined: bool,
}

// What an expression is read over: the columns of an operand, what the names say, and the counter at the start of the card.
#[derive(Clone, Copy)]
pub struct Scope<'a> {
    pub columns: &'a [u8],
    pub names: &'a Names<'a>,
    pub here: u32,
}

fn value_factor(v: Value) -> Factor
    ensures { result ≡ value_factor v }
{
    Factor {
        value: u32::from(v.amount()),
        relocatable: matches!(v, Value::Relocatable(_)),
        undefined: false,
    }
}

fn meaning_factor(meaning: Option<Meaning>) -> Factor
    ensures { result ≡ meaning_factor meaning }
{
    match meaning {
        Some(m) => value_factor(m.value),
        None => Factor {
            value: 0,
            relocatable: false,
            undefined: true,
        },
    }
}

fn meaning_length(meaning: Option<Meaning>) -> u16
    ensures { result ≡ meaning_length meaning }
{
    meaning.map_or(1, |m| m.length)
}

impl<'a> Scope<'a> {
    pub fn factor_of(self, t: Term) -> Factor
        ensures { result ≡ factor_of (find self.entry.names.now) self.entry.here t }
    {
        match t {
            Term::Number(v) => Factor {
                value: u32::from(v),
                relocatable: false,
                undefined: false,
            },
            Term::Symbol(name) => meaning_factor(self.names.look_up(name)),
            Term::Here => Factor {
                value: self.here,
                relocatable: true,
                undefined: false,
            },
        }
    }

    // The length that the expression at a position implies: that of its first term.
    pub fn implied_length(self, at: usize) -> u16
        ensures { result ≡ term_length (find self.entry.names.now) (term_at self.entry.columns.now at) }
    {
        match read_term(self.columns, at) {
            Ok((Term::Symbol(name), _)) => meaning_length(self.names.look_up(name)),
            _ => 1,
        }
    }
}
