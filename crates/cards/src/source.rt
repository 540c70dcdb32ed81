// A source: cards of 80 or 96 bytes, of which the first 71 or 87 columns are the statement.
ghost use Rattle.std.specs.Prelude.{◌≡◌, ◌+◌, ◌≤◌, ◌<◌, [], length, get_or, IfOk};
ghost use Rattle.values.specs.Words.{part};
ghost use Rattle.values.specs.Refusals.{number_in};
ghost use Rattle.cards.specs.Source.{columns_of, whole_no, source_no, cards_of};

use std::marker::Model;
use values::refusals::Refusal;

// Whole cards: refusal 1; not more than 4,000: refusal 2.
fn check_whole(rest: usize, count: usize) -> Result<(), Refusal>
    ensures { number_in result ≡ whole_no rest count }
{
    if rest != 0 {
        Err(Refusal::BrokenCard)
    } else if count <= 4000 {
        Ok(())
    } else {
        Err(Refusal::TooManyCards)
    }
}

// 1 and 2 of a source of so many bytes.
#[tactic(auto, unfolding(crate::specs::Source::source_no))]
pub fn check_source(width: u32, size: usize) -> Result<(), Refusal>
    ensures { number_in result ≡ source_no width size }
{
    match width {
        80 => check_whole(size % 80, size / 80),
        96 => check_whole(size % 96, size / 96),
        _ => Err(Refusal::BrokenCard),
    }
}

// How many columns the statement has.
#[tactic(auto, unfolding(crate::specs::Source::columns_of))]
pub fn columns_of(width: u32) -> usize
    ensures { (result ≡ columns_of width) × (result ≤ 87) }
{
    match width {
        80 => 71,
        96 => 87,
        _ => 0,
    }
}

// The statement columns of the card that starts at a place.
pub fn card_at(source: &[u8], at: usize, columns: usize) -> &[u8]
    requires { at + columns ≤ length source.now }
    ensures { result.now ≡ part source.now at columns }
{
    &source[at..at + columns]
}

// A source that refusals 1 and 2 let through: to a contract, the list of its cards, each its statement columns.
#[derive(Drop)]
pub struct Source<'a> {
    width: u32,
    bytes: &'a [u8],
}

impl<'a> Model for Source<'a> {
    ghost use Rattle.std.specs.Prelude.{ℕ, List};

    ghost Value = { List (List ℕ) };

    ghost use Rattle.std.specs.Prelude.{◌≡◌, length};
    ghost use Rattle.cards.specs.Source.{source_no, cards_of};

    ghost view = { λ s. cards_of s.width s.bytes.now };

    ghost invariant = { λ s. source_no s.width (length s.bytes.now) ≡ 0 };
}

impl<'a> Source<'a> {
    pub fn of(width: u32, bytes: &'a [u8]) -> Result<Source<'a>, Refusal>
        ensures number { number_in result ≡ source_no width (length bytes.now) }
        ensures cards { IfOk result (λ s. s ≡ cards_of width bytes.entry.now) }
    {
        check_source(width, bytes.len())?;
        Ok(Source { width, bytes })
    }

    #[tactic(auto, using(crate::proofs::Whole::source_wide, crate::proofs::Whole::source_whole, crate::proofs::Whole::cards_length))]
    pub fn len(&self) -> usize
        ensures { (result ≡ length self.now) × (result ≤ 4000) }
    {
        self.bytes.len() / self.width as usize
    }

    // The statement columns of card i, counted from 0.
    #[tactic(auto, using(crate::proofs::Whole::card_in, crate::proofs::Whole::cards_at))]
    pub fn card(&self, i: usize) -> &'a [u8]
        requires { i < length self.now }
        ensures { result.now ≡ get_or self.now i [] }
    {
        let at = i * self.width as usize;
        card_at(self.bytes, at, columns_of(self.width))
    }
}
