// Absolute and relocatable values and displacements, kept apart; and the big-endian words that they are written in.
#![tactic(auto)]

pub mod refusals;
pub mod words;

ghost use Rattle.std.specs.Prelude.{◌≡◌};
ghost use Rattle.values.specs.Values.{amount_of, only_absolute, only_relocatable, moved_by};

// A value that stays what it is wherever the program is loaded.
#[derive(Clone, Copy, Debug, PartialEq, Eq)]
pub struct Absolute(pub u16);

// A place in the program: it goes where the program goes.
#[derive(Clone, Copy, Debug, PartialEq, Eq)]
pub struct Relocatable(pub u16);

// How far a program is moved. It is neither of the two above.
#[derive(Clone, Copy)]
pub struct Displacement(u16);

#[derive(Clone, Copy, Debug, PartialEq, Eq)]
pub enum Value {
    Absolute(Absolute),
    Relocatable(Relocatable),
}

// The kind that a place asks of an expression.
#[derive(Clone, Copy, Debug, PartialEq, Eq)]
pub enum Wanted {
    Any,
    OnlyAbsolute,
    OnlyRelocatable,
}

impl Value {
    // The value without its kind.
    pub fn amount(self) -> u16
        ensures { result ≡ amount_of self }
    {
        match self {
            Value::Absolute(a) => a.0,
            Value::Relocatable(a) => a.0,
        }
    }
}

// The value if it is absolute.
pub fn only_absolute(v: Option<Value>) -> Option<Absolute>
    ensures { result ≡ only_absolute v }
{
    match v {
        Some(Value::Absolute(a)) => Some(a),
        _ => None,
    }
}

// The value if it is relocatable.
pub fn only_relocatable(v: Option<Value>) -> Option<Relocatable>
    ensures { result ≡ only_relocatable v }
{
    match v {
        Some(Value::Relocatable(a)) => Some(a),
        _ => None,
    }
}

impl Relocatable {
    // The only sum that takes a displacement.
    #[tactic(auto, unfolding(crate::specs::Values::moved_by))]
    pub fn plus(self, d: Displacement) -> Option<Relocatable>
        ensures { result ≡ moved_by d self }
    {
        let sum = self.0.checked_add(d.0)?;
        Some(Relocatable(sum))
    }
}

impl Displacement {
    // By so many bytes.
    pub fn by(bytes: u16) -> Self
        ensures { result ≡ record { 0 = bytes } }
    {
        Displacement(bytes)
    }
}
