// The whole assembly: refusals 1, 2 and 3, both passes, 30, the book; then the work area is cleared.
#![tactic(auto)]

ghost use Rattle.std.specs.Prelude.{◌≡◌, true, ◌^◌, ◌≤◌, ◌<◌, [], length, drop};
ghost use Rattle.passes.specs.Sound.{sound};
ghost use Rattle.passes.specs.Two.Checked.{clean};
ghost use Rattle.pass_two.specs.Code.{checked_in, bytes_in};
ghost use Rattle.passes.specs.Assembly.{after_two, assembled, written, outcome_of, assembling};

use cards::source::Source;
use names::clear;
use names::lookup::Names;
use pass_one::run_one;
use pass_two::run_two;
use passes::{Assembled, Refused};
use values::refusals::Refusal;

// How long a work area must be.
const WORK_SIZE: usize = 8192;

// 30, or the book in the output: pass two, which has refused no card and found so many bytes, once more.
fn write(size: usize, source: &Source, names: &Names, out: &mut [u8]) -> Result<Assembled, Refused>
    requires sound { sound source.now ≡ true }
    requires few { length names.now ≤ 512 }
    requires judged { (checked_in source.now names.now ≡ clean) × (size ≡ length (bytes_in source.now names.now)) × (size < 2 ^ 32) }
    ensures value { result ≡ (written (length names.now) (bytes_in source.now names.now) [] out.old).answer }
    ensures out_after { out.new ≡ (written (length names.now) (bytes_in source.now names.now) [] out.old).out }
{
    if out.len() < size {
        return Err(Refused::at(0, Refusal::SmallOutput));
    }
    let length = run_two(source, names, true, out)?;
    Ok(Assembled {
        length: length as u32,
        names: names.len() as u16,
    })
}

// Pass two over the names that pass one has found: judging first, then writing.
#[tactic(auto, unfolding(pass_two::specs::Code::bytes_in))]
fn finish(source: &Source, names: &Names, out: &mut [u8]) -> Result<Assembled, Refused>
    requires sound { sound source.now ≡ true }
    requires few { length names.now ≤ 512 }
    ensures value { result ≡ (outcome_of (after_two source.now names.now (checked_in source.now names.now)) [] out.old).answer }
    ensures out_after { out.new ≡ (outcome_of (after_two source.now names.now (checked_in source.now names.now)) [] out.old).out }
{
    let size = run_two(source, names, false, out)?;
    write(size, source, names, out)
}

// Both passes and the book; the first 8,192 bytes of the work area are left as they fall.
#[tactic(auto, unfolding(pass_two::specs::Code::checked_in, passes::specs::Assembly::assembled))]
fn translate(source: &Source, work: &mut [u8], out: &mut [u8]) -> Result<Assembled, Refused>
    requires { 8192 ≤ length work.old }
    ensures value { result ≡ (outcome_of (assembled source.now) work.old out.old).answer }
    ensures work_unchanged { drop 8192 work.new ≡ drop 8192 work.old }
    ensures out_after { out.new ≡ (outcome_of (assembled source.now) work.old out.old).out }
{
    let passed = run_one(source, work)?;
    finish(source, &Names::of(work, passed.count), out)
}

// Assembles any source of any width, with any work area and any output.
#[tactic(auto, unfolding(passes::specs::Assembly::assembling), using(crate::proofs::Ways::cleared, crate::proofs::Ways::left))]
pub fn assemble_cards(
    width: u32,
    source: &[u8],
    work: &mut [u8],
    out: &mut [u8],
) -> Result<Assembled, Refused>
    ensures value { result ≡ (assembling width source.now work.old out.old).answer }
    ensures work_after { work.new ≡ (assembling width source.now work.old out.old).work }
    ensures out_after { out.new ≡ (assembling width source.now work.old out.old).out }
{
    let source = Source::of(width, source)?;
    if work.len() < WORK_SIZE {
        return Err(Refused::at(0, Refusal::SmallWorkArea));
    }
    let answer = translate(&source, work, out);
    clear(work, WORK_SIZE);
    answer
}
