// The calls of `mersclund`, exported to C under their own names.
#![tactic(auto)]

ghost use Rattle.std.specs.Prelude.{◌≡◌};
ghost use Rattle.load.specs.Load.{loading};
ghost use Rattle.passes.specs.Assembly.{assembling};
ghost use Rattle.mersclund.specs.Packed.{packed_load, packed_assembled};

// Loads any book, moved by any displacement, into any storage.
#[unsafe(no_mangle)]
pub extern "C" fn mersclund_load(book: &[u8], displacement: u16, storage: &mut [u8]) -> u64
    ensures value { result ≡ packed_load (loading book.now (record { 0 = displacement }) storage.old).answer }
    ensures storage_after { storage.new ≡ (loading book.now (record { 0 = displacement }) storage.old).storage }
{
    mersclund::mersclund_load(book, displacement, storage)
}

// Assembles any source of cards of any width into any output, with any work area.
#[unsafe(no_mangle)]
pub extern "C" fn mersclund_assemble(
    width: u32,
    source: &[u8],
    work: &mut [u8],
    out: &mut [u8],
) -> u64
    ensures value { result ≡ packed_assembled (assembling width source.now work.old out.old).answer }
    ensures work_after { work.new ≡ (assembling width source.now work.old out.old).work }
    ensures out_after { out.new ≡ (assembling width source.now work.old out.old).out }
{
    mersclund::mersclund_assemble(width, source, work, out)
}
