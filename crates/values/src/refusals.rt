// R14.1: the refusals of an assembly, and which of two is told.
ghost use Rattle.std.specs.Prelude.{◌≡◌, ◌<◌};
ghost use Rattle.values.specs.Tests.{lower};
ghost use Rattle.values.specs.Refusals.{number_of, number_in};

// Why a source, a card or a call is refused, by its number.
#[derive(Clone, Copy, Debug, PartialEq, Eq)]
pub enum Refusal {
    // The source is not whole cards of 80 or 96 columns.
    BrokenCard = 1,
    TooManyCards = 2,
    SmallWorkArea = 3,
    // A card behind END, or no END.
    MisplacedEnd = 9,
    BadByte = 10,
    BadName = 11,
    UnknownOperation = 12,
    // No START first, or a second one.
    MisplacedStart = 13,
    // A name that the operation forbids, or none where it needs one.
    MisplacedName = 14,
    Malformed = 15,
    DefinedBefore = 16,
    TooManyNames = 17,
    Undefined = 18,
    WrongKind = 19,
    OutOfRange = 20,
    // A length, an item, a Q or a count that its place can't hold.
    BadSize = 21,
    NoBase = 22,
    OutOfReach = 23,
    NoRoom = 24,
    SmallOutput = 30,
}

impl Refusal {
    pub fn number(self) -> u8
        ensures { (result ≡ number_of self) × (0 < result) }
    {
        self as u8
    }
}

// The lower of two that hold.
#[tactic(auto, unfolding(crate::specs::Tests::lower))]
pub fn lower_of(a: Result<(), Refusal>, b: Result<(), Refusal>) -> Result<(), Refusal>
    ensures { number_in result ≡ lower (number_in a) (number_in b) }
{
    match (a, b) {
        (Err(r), Err(t)) => { if r.number() < t.number() { a } else { b } }
        (Ok(()), _) => b,
        (_, Ok(())) => a,
    }
}
