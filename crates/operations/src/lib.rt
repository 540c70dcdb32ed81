// What an operation is, and its operation byte at each mode.
#![tactic(auto)]

pub mod codes;
pub mod traits;

// What a mnemonic stands for: one of the assembler's own operations, or an instruction of a kind, with the low half of its operation byte, or with the item or Q code that an extended mnemonic brings.
#[derive(Clone, Copy, Debug, PartialEq, Eq)]
pub enum Operation {
    Unknown,
    Start,
    Equ,
    Org,
    Dc,
    Ds,
    Using,
    Drop,
    End,
    // Two addresses with a length on each: ZAZ, AZ, SZ.
    TwoLengths(u8),
    // Two addresses with one length: ED, ITC, MVC, CLC, ALC, SLC.
    OneLength(u8),
    // MVX, and its extended mnemonics.
    HalfBytes,
    HalfBytesOf(u8),
    OneAddress(u8),
    // BC and TIO.
    Branch(u8),
    LoadAddress,
    BranchOn(u8),
    Jump,
    JumpOn(u8),
}
