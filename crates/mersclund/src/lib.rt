// What the emulator calls through mersclund_c: numbers and lent bytes in, packed answers out.
#![tactic(auto)]

ghost use Rattle.std.specs.Prelude.{◌≡◌, ◌<◌, ◌^◌};
ghost use Rattle.load.specs.Load.{loading};
ghost use Rattle.passes.specs.Assembly.{assembling};
ghost use Rattle.mersclund.specs.Packed.{packed_refusal, packed_entry, packed_load, packed_assembled};

use assemble::assemble_cards;
use load::{LoadError, Stored, load_book};
use passes::{Assembled, Refused};
use values::{Displacement, Relocatable};

// A bit of a packed answer: what is multiplied by it stands from that bit on.
const BIT_32: u64 = 4294967296;

const BIT_48: u64 = 281474976710656;

const BIT_56: u64 = 72057594037927936;

fn pack_refusal(number: u8, card: u16) -> u64
    ensures { result ≡ packed_refusal number card }
{
    u64::from(number) * BIT_56 + u64::from(card)
}

fn pack_entry(entry: Option<Relocatable>) -> u64
    ensures { (result ≡ packed_entry entry) × (result < 2 ^ 49) }
{
    match entry {
        None => 0,
        Some(start) => BIT_48 + u64::from(start.0) * BIT_32,
    }
}

fn pack_load(answer: Result<Stored, LoadError>) -> u64
    ensures { result ≡ packed_load answer }
{
    match answer {
        Ok(stored) => u64::from(stored.bytes) + pack_entry(stored.entry),
        Err(LoadError::Broken) => pack_refusal(50, 0),
        Err(LoadError::Outside(card)) => pack_refusal(51, card),
        Err(LoadError::Over(card)) => pack_refusal(52, card),
    }
}

// Loads any book, moved by any displacement, into any storage.
pub fn mersclund_load(book: &[u8], displacement: u16, storage: &mut [u8]) -> u64
    ensures value { result ≡ packed_load (loading book.now (record { 0 = displacement }) storage.old).answer }
    ensures storage_after { storage.new ≡ (loading book.now (record { 0 = displacement }) storage.old).storage }
{
    pack_load(load_book(book, Displacement::by(displacement), storage))
}

fn pack_assembled(answer: Result<Assembled, Refused>) -> u64
    ensures { result ≡ packed_assembled answer }
{
    match answer {
        Ok(made) => u64::from(made.length) + u64::from(made.names) * BIT_32,
        Err(refused) => pack_refusal(refused.number, refused.card),
    }
}

// Assembles any source of cards of any width into any output, with any work area.
pub fn mersclund_assemble(width: u32, source: &[u8], work: &mut [u8], out: &mut [u8]) -> u64
    ensures value { result ≡ packed_assembled (assembling width source.now work.old out.old).answer }
    ensures work_after { work.new ≡ (assembling width source.now work.old out.old).work }
    ensures out_after { out.new ≡ (assembling width source.now work.old out.old).out }
{
    pack_assembled(assemble_cards(width, source, work, out))
}
