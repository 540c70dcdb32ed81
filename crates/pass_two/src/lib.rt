// Pass two, over the cards in order: the first card that it refuses, or the length of the book; and the book, where it is told to write.
#![tactic(auto)]

ghost use Rattle.std.specs.Prelude.{◌≡◌, true, ◌≤◌, length};
ghost use Rattle.std.proofs.lemmas.List.Edits.{sets};
ghost use Rattle.passes.specs.Sound.{sound};
ghost use Rattle.passes.specs.Two.{outset};
ghost use Rattle.passes.specs.Two.Checked.{clean};
ghost use Rattle.making.specs.Steps.{laid_if};
ghost use Rattle.pass_two.specs.Code.{checked_in, bytes_in, judged_as, judged_length};

use book::writing::put_header;
use cards::source::Source;
use making::make_card;
use making::records::put_made;
use names::lookup::Names;
use passes::{Course, Refused};
use places::Bases;

// Before the first card.
fn first_course() -> Course
    ensures { result ≡ outset }
{
    Course {
        counter: 0,
        bases: Bases {
            one: None,
            two: None,
        },
    }
}

// Over all cards of a source, with the names: how many bytes the book has, or the first card that is refused. Where it is told to write, no card may be refused, and the book is laid over the start of the output.
#[tactic(auto, unfolding(crate::specs::Code::checked_in, crate::specs::Code::bytes_in))]
pub fn run_two(
    source: &Source,
    names: &Names,
    writes: bool,
    out: &mut [u8],
) -> Result<usize, Refused>
    requires sound { sound source.now ≡ true }
    requires writes_fits { writes ≡ true → (checked_in source.now names.now ≡ clean) × (length (bytes_in source.now names.now) ≤ length out.old) }
    ensures value { (result ≡ judged_as (checked_in source.now names.now) (length (bytes_in source.now names.now))) × (judged_length result ≤ 1564008) }
    ensures out_after { out.new ≡ sets out.old 0 (laid_if writes (bytes_in source.now names.now)) }
{
    let mut c = first_course();
    let mut entry = None;
    let mut to = 8;
    for i in 0..source.len() {
        let card = source.card(i);
        let k = i as u16 + 1;
        let made = make_card(c, card, names).map_err(|r| Refused::at(k, r))?;
        to = put_made(made, card, k, c.counter, writes, out, to);
        entry = entry.or(made.entry);
        c = made.course;
    }
    if writes {
        put_header(to, entry.flatten(), out);
    }
    Ok(to)
}
