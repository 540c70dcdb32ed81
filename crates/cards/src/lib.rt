// Cards: a source as a run of them, and one card's statement columns taken apart.
#![tactic(auto)]

pub mod source;

ghost use Rattle.std.specs.Prelude.{◌≡◌, false, not, ◌-◌, ◌≤◌, length};
ghost use Rattle.values.specs.Tests.{pick, both};
ghost use Rattle.values.specs.Refusals.{number_in};
ghost use Rattle.letters.specs.Text.{run_end};
ghost use Rattle.terms.specs.Names.{name_at};
ghost use Rattle.cards.specs.Fields.{all_accepted, byte_no, is_blank_byte, blank_at, blanks_end, word_end, turned, operand_end, lone_comma, fields_behind, name_ends, named_card, card_of};

use letters::{byte_at, class_at};
use values::refusals::Refusal;

// The fields of a statement: the name's number, and where operation and operand start and end. An absent one ends where it starts.
#[derive(Clone, Copy, Debug, PartialEq, Eq)]
pub struct Fields {
    pub name: Option<u64>,
    pub operation: usize,
    pub behind: usize,
    pub operand: usize,
    pub end: usize,
}

#[derive(Clone, Copy, Debug, PartialEq, Eq)]
pub enum Card {
    Comment,
    BadName,
    Statement(Fields),
}

// How many bytes are tested before it is asked whether to go on.
const PART: usize = 32;

// Each byte is tested, whatever those before it are, so that many can be tested at once.
fn part_accepted(part: &[u8]) -> bool
    ensures { result ≡ all_accepted part.now }
{
    part.iter().fold(
        true,
        |told, b| told & letters::is_accepted(letters::class_of(*b)),
    )
}

fn all_accepted(s: &[u8]) -> bool
    ensures { result ≡ all_accepted s.now }
{
    for part in s.chunks(PART) {
        if !part_accepted(part) {
            return false;
        }
    }
    true
}

// 10, over all statement columns of a card.
#[tactic(auto, unfolding(crate::specs::Fields::byte_no))]
pub fn check_bytes(s: &[u8]) -> Result<(), Refusal>
    ensures { number_in result ≡ byte_no s.now }
{
    if all_accepted(s) {
        Ok(())
    } else {
        Err(Refusal::BadByte)
    }
}

fn blank_at(s: &[u8], at: usize) -> bool
    ensures { result ≡ blank_at s.now at }
{
    letters::is_blank(class_at(s, at))
}

// The position behind the columns from a position on that are blank, or that are not.
fn run_end(s: &[u8], at: usize, blank: bool) -> usize
    requires { at ≤ length s.now }
    ensures { (result ≡ run_end (λ b. pick blank (is_blank_byte b) (not (is_blank_byte b))) (length s.now - at) s.now at) × (at ≤ result) × (result ≤ length s.now) }
{
    let goes_on = |b: &&u8| letters::is_blank(letters::class_of(**b)) == blank;
    at + s[at..].iter().take_while(goes_on).count()
}

fn next_word(s: &[u8], at: usize) -> usize
    requires { at ≤ length s.now }
    ensures { (result ≡ blanks_end (length s.now - at) s.now at) × (at ≤ result) × (result ≤ length s.now) }
{
    run_end(s, at, true)
}

fn end_of_word(s: &[u8], at: usize) -> usize
    requires { at ≤ length s.now }
    ensures { (result ≡ word_end (length s.now - at) s.now at) × (at ≤ result) × (result ≤ length s.now) }
{
    run_end(s, at, false)
}

fn ends_here(inside: bool, s: &[u8], at: usize) -> bool
    ensures { result ≡ both (not inside) (blank_at s.now at) }
{
    !inside && blank_at(s, at)
}

fn turned_at(inside: bool, s: &[u8], at: usize) -> bool
    ensures { result ≡ turned inside s.now at }
{
    if byte_at(s, at) == b'\'' {
        !inside
    } else {
        inside
    }
}

#[tactic(auto, unfolding(crate::specs::Fields::operand_end))]
fn end_of_operand(s: &[u8], at: usize) -> usize
    requires { at ≤ length s.now }
    ensures { (result ≡ operand_end (length s.now - at) false s.now at) × (at ≤ result) × (result ≤ length s.now) }
{
    let mut inside = false;
    for i in at..s.len() {
        if ends_here(inside, s, i) {
            return i;
        }
        inside = turned_at(inside, s, i);
    }
    s.len()
}

// Where an operand ends that a lone comma does not replace.
fn operand_to(s: &[u8], from: usize, to: usize) -> usize
    requires { (from ≤ to) × (to ≤ length s.now) }
    ensures { result ≡ pick (lone_comma s.now from to) from to }
{
    if to - from == 1 && byte_at(s, from) == b',' {
        from
    } else {
        to
    }
}

#[tactic(auto, unfolding(crate::specs::Fields::fields_behind))]
fn read_fields(s: &[u8], name: Option<u64>, at: usize) -> Fields
    requires { at ≤ length s.now }
    ensures { result ≡ fields_behind name s.now at }
{
    let operation = next_word(s, at);
    let behind = end_of_word(s, operation);
    let operand = next_word(s, behind);
    let to = end_of_operand(s, operand);
    Fields {
        name,
        operation,
        behind,
        operand,
        end: operand_to(s, operand, to),
    }
}

fn name_ends(s: &[u8], at: usize) -> bool
    ensures { result ≡ name_ends s.now at }
{
    s.len() <= at || blank_at(s, at)
}

fn read_named(s: &[u8]) -> Card
    ensures { result ≡ named_card s.now (name_at s.now 0) }
{
    match terms::naming::read_name(s, 0) {
        Ok((number, next)) if name_ends(s, next) => Card::Statement(read_fields(
            s,
            Some(number),
            next,
        )),
        _ => Card::BadName,
    }
}

// A card by its statement columns.
#[tactic(auto, unfolding(crate::specs::Fields::card_of))]
pub fn read_card(s: &[u8]) -> Card
    ensures { result ≡ card_of s.now }
{
    if byte_at(s, 0) == b'*' {
        Card::Comment
    } else if blank_at(s, 0) {
        Card::Statement(read_fields(s, None, 0))
    } else {
        read_named(s)
    }
}
