// A name of 1 to 6 characters at a position, and its number.
ghost use Rattle.std.specs.Prelude.{◌≡◌, ◌+◌, ◌^◌, ◌≤◌, ◌<◌, length};
ghost use Rattle.terms.specs.Names.{name_end, name_byte, name_number, name_at};

use letters::{BLANK_CODE, byte_at, class_at};

fn name_end(s: &[u8], at: usize) -> usize
    requires { at ≤ length s.now }
    ensures { (result ≡ name_end 6 s.now at) × (at ≤ result) × (result ≤ length s.now) }
{
    let goes_on = |b: &&u8| letters::goes_on_name(letters::class_of(**b));
    at + s[at..].iter().take(6).take_while(goes_on).count()
}

#[tactic(auto, unfolding(crate::specs::Names::name_byte))]
fn name_byte(s: &[u8], at: usize, end: usize, k: usize) -> u8
    requires { at + k < 2 ^ 64 }
    ensures { result ≡ name_byte s.now at end k }
{
    if at + k < end {
        letters::code_of(byte_at(s, at + k))
    } else {
        BLANK_CODE
    }
}

#[tactic(auto, unfolding(crate::specs::Names::name_number))]
fn name_number(s: &[u8], at: usize, end: usize) -> u64
    requires { at + 6 < 2 ^ 64 }
    ensures { result ≡ name_number s.now at end }
{
    u64::from_be_bytes([
        0,
        0,
        name_byte(s, at, end, 0),
        name_byte(s, at, end, 1),
        name_byte(s, at, end, 2),
        name_byte(s, at, end, 3),
        name_byte(s, at, end, 4),
        name_byte(s, at, end, 5),
    ])
}

#[tactic(auto, unfolding(crate::specs::Names::name_at))]
pub fn read_name(s: &[u8], at: usize) -> Result<(u64, usize), usize>
    ensures { result ≡ name_at s.now at }
{
    if !letters::starts_name(class_at(s, at)) {
        return Err(at);
    }
    let end = name_end(s, at);
    if letters::goes_on_name(class_at(s, end)) {
        return Err(end);
    }
    Ok((name_number(s, at, end), end))
}
