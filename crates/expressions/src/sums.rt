// Products and sums on their way, with their ranges: a product is 0 once it left its range, and a sum is held 16777216 above its value.
ghost use Rattle.std.specs.Prelude.{Some, None, ◌≡◌, ◌+◌, ◌<◌, ◌^◌};
ghost use Rattle.values.specs.Tests.{pick};
ghost use Rattle.expressions.specs.Steps.{begun, multiplied, summed, summed_out, nothing, run_on};

use crate::factors::Factor;

// A product at hand.
#[derive(Clone, Copy, Debug, PartialEq, Eq)]
pub struct Held {
    pub value: u32,
    pub relocatable: bool,
    pub undefined: bool,
    pub mixed: bool,
    pub out: bool,
}

// A sum on its way: the relocatable terms after plus and after minus, and what was found wrong.
#[derive(Clone, Copy, Debug, PartialEq, Eq)]
pub struct Running {
    pub sum: u32,
    pub plus: usize,
    pub minus: usize,
    pub undefined: bool,
    pub mixed: bool,
    pub out: bool,
}

impl Held {
    pub fn begun(f: Factor) -> Held
        ensures { result ≡ begun f }
    {
        Held {
            value: f.value,
            relocatable: f.relocatable,
            undefined: f.undefined,
            mixed: false,
            out: false,
        }
    }

    #[tactic(auto, unfolding(crate::specs::Steps::multiplied))]
    pub fn multiplied(self, f: Factor) -> Held
        ensures { result ≡ multiplied self f }
    {
        let product = u64::from(self.value) * u64::from(f.value);
        let over = 16777215 < product;
        Held {
            value: if over { 0 } else { product as u32 },
            relocatable: false,
            undefined: self.undefined || f.undefined,
            mixed: self.mixed || self.relocatable || f.relocatable,
            out: self.out || over,
        }
    }
}

// A sum with a value more or less; none where it would leave its range.
#[tactic(auto, unfolding(crate::specs::Steps::summed, crate::specs::Steps::summed_out))]
fn sum_on(minus: bool, sum: u32, value: u32) -> Option<u32>
    ensures { result ≡ pick (summed_out minus sum value) None (Some (summed minus sum value)) }
{
    if minus {
        sum.checked_sub(value)
    } else {
        sum.checked_add(value).filter(|s| *s <= 33554431)
    }
}

impl Running {
    pub fn nothing() -> Running
        ensures { result ≡ nothing }
    {
        Running {
            sum: 16777216,
            plus: 0,
            minus: 0,
            undefined: false,
            mixed: false,
            out: false,
        }
    }

    // A product goes into the sum.
    #[tactic(auto, unfolding(crate::specs::Steps::run_on, crate::specs::Steps::summed, crate::specs::Steps::summed_out))]
    pub fn run_on(self, minus: bool, h: Held) -> Running
        requires { (self.plus + 1 < 2 ^ 64) × (self.minus + 1 < 2 ^ 64) }
        ensures { result ≡ run_on self minus h }
    {
        let sum = sum_on(minus, self.sum, h.value);
        Running {
            sum: sum.unwrap_or(self.sum),
            plus: self.plus + usize::from(!minus && h.relocatable),
            minus: self.minus + usize::from(minus && h.relocatable),
            undefined: self.undefined || h.undefined,
            mixed: self.mixed || h.mixed,
            out: self.out || h.out || sum.is_none(),
        }
    }
}
