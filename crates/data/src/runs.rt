// Runs of digits: where they end, and the number that they write.
ghost use Rattle.std.specs.Prelude.{◌≡◌, ◌+◌, ◌-◌, ◌*◌, ◌≤◌};
ghost use Rattle.data.specs.Runs.{digits_end, told, number_from};

use letters::byte_at;

// The position behind the digits of a base that stand from a position on.
pub fn digits_end(s: &[u8], at: usize, base: u8) -> usize
    requires { base ≤ 16 }
    ensures { result ≡ digits_end base s.now at }
{
    let is_digit = |b: &&u8| letters::digit_of(**b) < base;
    at + s[at.min(s.len())..].iter().take_while(is_digit).count()
}

// A number, told no further than 65536.
#[tactic(auto, unfolding(crate::specs::Runs::told))]
pub fn tell(n: usize) -> u32
    ensures { result ≡ told n }
{
    n.min(65536) as u32
}

// A decimal digit behind a number.
#[tactic(auto, unfolding(crate::specs::Runs::told))]
fn append_digit(v: u32, digit: u8) -> u32
    requires { (v ≤ 65536) × (digit ≤ 16) }
    ensures { result ≡ told (v * 10 + digit) }
{
    (v * 10 + u32::from(digit)).min(65536)
}

// The number that the digits between two positions write, told no further than 65536.
#[tactic(auto, unfolding(crate::specs::Runs::told, crate::specs::Runs::number_from))]
pub fn number_in(s: &[u8], at: usize, end: usize) -> u32
    ensures { result ≡ told (number_from (end - at) s.now at 0) }
{
    let mut v: u32 = 0;
    for i in at..end {
        v = append_digit(v, letters::digit_of(byte_at(s, i)));
    }
    v
}
