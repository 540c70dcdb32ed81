// The operation table of a Model 10: the operation that a card's letters name.
#![tactic(auto)]

ghost use Rattle.std.specs.Prelude.{◌≡◌, ◌-◌};
ghost use Rattle.mnemonics.specs.Rows.{number5, operation_in, word_letter, word_number, operation_at};
ghost use Rattle.mnemonics.specs.Model10.{model10};

use operations::Operation;

// The mnemonics, in the order of their letters, and what each of them stands for.
const ROWS: [([u8; 5], Operation); 75] = [
    (*b"A    ", Operation::OneAddress(0x6)),
    (*b"ALC  ", Operation::OneLength(0xE)),
    (*b"AZ   ", Operation::TwoLengths(0x6)),
    (*b"B    ", Operation::BranchOn(0x87)),
    (*b"BC   ", Operation::Branch(0x0)),
    (*b"BE   ", Operation::BranchOn(0x81)),
    (*b"BF   ", Operation::BranchOn(0x90)),
    (*b"BH   ", Operation::BranchOn(0x84)),
    (*b"BL   ", Operation::BranchOn(0x82)),
    (*b"BM   ", Operation::BranchOn(0x82)),
    (*b"BNE  ", Operation::BranchOn(0x01)),
    (*b"BNH  ", Operation::BranchOn(0x04)),
    (*b"BNL  ", Operation::BranchOn(0x02)),
    (*b"BNM  ", Operation::BranchOn(0x02)),
    (*b"BNOL ", Operation::BranchOn(0x20)),
    (*b"BNOZ ", Operation::BranchOn(0x08)),
    (*b"BNP  ", Operation::BranchOn(0x04)),
    (*b"BNZ  ", Operation::BranchOn(0x01)),
    (*b"BOL  ", Operation::BranchOn(0xA0)),
    (*b"BOZ  ", Operation::BranchOn(0x88)),
    (*b"BP   ", Operation::BranchOn(0x84)),
    (*b"BT   ", Operation::BranchOn(0x10)),
    (*b"BZ   ", Operation::BranchOn(0x81)),
    (*b"CLC  ", Operation::OneLength(0xD)),
    (*b"CLI  ", Operation::OneAddress(0xD)),
    (*b"DC   ", Operation::Dc),
    (*b"DROP ", Operation::Drop),
    (*b"DS   ", Operation::Ds),
    (*b"ED   ", Operation::OneLength(0xA)),
    (*b"END  ", Operation::End),
    (*b"EQU  ", Operation::Equ),
    (*b"ITC  ", Operation::OneLength(0xB)),
    (*b"J    ", Operation::JumpOn(0x87)),
    (*b"JC   ", Operation::Jump),
    (*b"JE   ", Operation::JumpOn(0x81)),
    (*b"JF   ", Operation::JumpOn(0x90)),
    (*b"JH   ", Operation::JumpOn(0x84)),
    (*b"JL   ", Operation::JumpOn(0x82)),
    (*b"JM   ", Operation::JumpOn(0x82)),
    (*b"JNE  ", Operation::JumpOn(0x01)),
    (*b"JNH  ", Operation::JumpOn(0x04)),
    (*b"JNL  ", Operation::JumpOn(0x02)),
    (*b"JNM  ", Operation::JumpOn(0x02)),
    (*b"JNOL ", Operation::JumpOn(0x20)),
    (*b"JNOZ ", Operation::JumpOn(0x08)),
    (*b"JNP  ", Operation::JumpOn(0x04)),
    (*b"JNZ  ", Operation::JumpOn(0x01)),
    (*b"JOL  ", Operation::JumpOn(0xA0)),
    (*b"JOZ  ", Operation::JumpOn(0x88)),
    (*b"JP   ", Operation::JumpOn(0x84)),
    (*b"JT   ", Operation::JumpOn(0x10)),
    (*b"JZ   ", Operation::JumpOn(0x81)),
    (*b"L    ", Operation::OneAddress(0x5)),
    (*b"LA   ", Operation::LoadAddress),
    (*b"LIO  ", Operation::OneAddress(0x1)),
    (*b"MNN  ", Operation::HalfBytesOf(0x03)),
    (*b"MNZ  ", Operation::HalfBytesOf(0x02)),
    (*b"MVC  ", Operation::OneLength(0xC)),
    (*b"MVI  ", Operation::OneAddress(0xC)),
    (*b"MVX  ", Operation::HalfBytes),
    (*b"MZN  ", Operation::HalfBytesOf(0x01)),
    (*b"MZZ  ", Operation::HalfBytesOf(0x00)),
    (*b"ORG  ", Operation::Org),
    (*b"SBF  ", Operation::OneAddress(0xB)),
    (*b"SBN  ", Operation::OneAddress(0xA)),
    (*b"SLC  ", Operation::OneLength(0xF)),
    (*b"SNS  ", Operation::OneAddress(0x0)),
    (*b"ST   ", Operation::OneAddress(0x4)),
    (*b"START", Operation::Start),
    (*b"SZ   ", Operation::TwoLengths(0x7)),
    (*b"TBF  ", Operation::OneAddress(0x9)),
    (*b"TBN  ", Operation::OneAddress(0x8)),
    (*b"TIO  ", Operation::Branch(0x1)),
    (*b"USING", Operation::Using),
    (*b"ZAZ  ", Operation::TwoLengths(0x4)),
];

// The operation of a mnemonic.
fn operation_of(letters: [u8; 5]) -> Operation
    ensures { result ≡ operation_in model10 (number5 letters) }
{
    let rows = &ROWS;
    let mnemonic = |row: &([u8; 5], Operation)| -> [u8; 5]
        ensures { result ≡ row.now.0 }
    { row.0 };
    match rows.binary_search_by_key(&letters, mnemonic) {
        Ok(i) => rows[i].1,
        Err(_) => Operation::Unknown,
    }
}

#[tactic(auto, unfolding(crate::specs::Rows::word_letter))]
fn word_letter(s: &[u8], from: usize, to: usize, k: usize) -> u8
    ensures { result ≡ word_letter s.now from to k }
{
    if k < to.saturating_sub(from) {
        letters::byte_at(s, from + k)
    } else {
        b' '
    }
}

#[tactic(auto, unfolding(crate::specs::Rows::word_number))]
fn word_letters(s: &[u8], from: usize, to: usize) -> [u8; 5]
    ensures { number5 result ≡ word_number s.now from to }
{
    [
        word_letter(s, from, to, 0),
        word_letter(s, from, to, 1),
        word_letter(s, from, to, 2),
        word_letter(s, from, to, 3),
        word_letter(s, from, to, 4),
    ]
}

// The operation whose letters stand between two positions of a card.
#[tactic(auto, unfolding(crate::specs::Rows::operation_at))]
pub fn operation_at(s: &[u8], from: usize, to: usize) -> Operation
    ensures { result ≡ operation_at model10 s.now from to }
{
    if to.saturating_sub(from) <= 5 {
        operation_of(word_letters(s, from, to))
    } else {
        Operation::Unknown
    }
}
