// A statement's bytes and the offsets of its relocatable fields.
#![tactic(auto)]

ghost use Rattle.std.specs.Prelude.{◌≡◌, ◌∷◌, ◌++◌, ◌+◌, ◌*◌, ◌≤◌, length};
ghost use Rattle.std.proofs.lemmas.List.Edits.{sets};
ghost use Rattle.operations.specs.Codes.{operation_byte};
ghost use Rattle.places.specs.Places.{operand_size};
ghost use Rattle.encode.specs.Pieces.{text_of, offsets_from, fields_of, mode_of, operand_pieces, address_pieces, copied, pieces_of};
ghost use Rattle.encode.specs.Steps.{constant_size, value_count, operand_count, constant_count};

use operations::Operation;
use operations::codes::operation_byte;
use operations::traits::fixed_size;
use places::{Operand, operand_size};
use statements::Statement;
use values::Value;
use values::words::{put_bytes, put_word};

fn mode_of(x: Operand) -> u8
    ensures { result ≡ mode_of x }
{
    match x {
        Operand::Direct(_) => 0,
        Operand::Indexed(_, r, _) => r,
    }
}

// SIZES

// The bytes of one copy of an address constant, by its length.
fn constant_size(size: u32) -> usize
    ensures { (result ≡ constant_size size) × (result ≤ 3) }
{
    match size {
        1 => 1,
        3 => 3,
        _ => 2,
    }
}

// How many bytes a statement makes.
#[tactic(auto, unfolding(crate::specs::Pieces::text_of, crate::specs::Pieces::pieces_of), using(crate::proofs::Steps::constants_size_lem))]
pub fn text_size(st: Statement) -> usize
    ensures { result ≡ length (text_of (pieces_of st)) }
{
    match st {
        Statement::TwoAddresses(_, _, a, b) => 2 + operand_size(a) + operand_size(b),
        Statement::OneAddress(_, _, a) => 2 + operand_size(a),
        Statement::Jump(_, _) => fixed_size(Operation::Jump),
        Statement::AddressConstants(copies, size, _) => copies as usize * constant_size(size),
        Statement::NoBytes => 0,
    }
}

// COUNTS OF FIELDS

// n fields, where the value is relocatable.
fn value_count(v: Value, n: usize) -> usize
    ensures { (result ≡ value_count v n) × (result ≤ n) }
{
    match v {
        Value::Absolute(_) => 0,
        Value::Relocatable(_) => n,
    }
}

// A displacement byte is no field, whatever the kind of its value.
fn operand_count(x: Operand) -> usize
    ensures { (result ≡ operand_count x) × (result ≤ 1) }
{
    match x {
        Operand::Direct(v) => value_count(v, 1),
        Operand::Indexed(_, _, _) => 0,
    }
}

fn constant_count(copies: u32, size: u32, v: Value) -> usize
    ensures { result ≡ constant_count copies size v }
{
    match size {
        1 | 3 => 0,
        _ => value_count(v, copies as usize),
    }
}

// How many relocatable fields a statement has.
#[tactic(auto, unfolding(crate::specs::Pieces::offsets_from, crate::specs::Pieces::pieces_of), using(crate::proofs::Steps::addresses_count))]
pub fn field_count(st: Statement) -> usize
    ensures { result ≡ length (fields_of (pieces_of st)) }
{
    match st {
        Statement::TwoAddresses(_, _, a, b) => operand_count(a) + operand_count(b),
        Statement::OneAddress(_, _, a) => operand_count(a),
        Statement::AddressConstants(copies, size, v) => constant_count(copies, size, v),
        _ => 0,
    }
}

// THE TEXT

#[tactic(auto, unfolding(crate::specs::Pieces::text_of))]
fn put_operand(x: Operand, m: &mut [u8], to: usize)
    requires { to + operand_size x ≤ length m.old }
    ensures { m.new ≡ sets m.old to (text_of (operand_pieces x)) }
{
    match x {
        Operand::Direct(v) => put_word(m, to, v.amount()),
        Operand::Indexed(_, _, displacement) => {
            m[to] = displacement;
        }
    }
}

#[tactic(auto, unfolding(crate::specs::Pieces::text_of))]
fn put_two(op: Operation, q: u8, a: Operand, b: Operand, m: &mut [u8], to: usize)
    requires { to + (2 + operand_size a + operand_size b) ≤ length m.old }
    ensures { m.new ≡ sets m.old to (operation_byte op (mode_of a) (mode_of b) ∷ q ∷ (text_of (operand_pieces a) ++ text_of (operand_pieces b))) }
{
    put_bytes(m, to, &[operation_byte(op, mode_of(a), mode_of(b)), q]);
    put_operand(a, m, to + 2);
    put_operand(b, m, to + 2 + operand_size(a));
}

// A lone operand's mode is given twice.
#[tactic(auto, unfolding(crate::specs::Pieces::text_of))]
fn put_one(op: Operation, q: u8, a: Operand, m: &mut [u8], to: usize)
    requires { to + (2 + operand_size a) ≤ length m.old }
    ensures { m.new ≡ sets m.old to (operation_byte op (mode_of a) (mode_of a) ∷ q ∷ text_of (operand_pieces a)) }
{
    let mode = mode_of(a);
    put_bytes(m, to, &[operation_byte(op, mode, mode), q]);
    put_operand(a, m, to + 2);
}

// One copy of an address constant.
#[tactic(auto, unfolding(crate::specs::Pieces::text_of, crate::specs::Pieces::address_pieces))]
fn put_address(size: u32, v: Value, m: &mut [u8], to: usize)
    requires { to + constant_size size ≤ length m.old }
    ensures { m.new ≡ sets m.old to (text_of (address_pieces size v)) }
{
    let amount = v.amount();
    let [high, low] = amount.to_be_bytes();
    match size {
        1 => m[to] = low,
        3 => put_bytes(m, to, &[0, high, low]),
        _ => put_word(m, to, amount),
    }
}

// All copies.
#[tactic(auto, using(crate::proofs::Steps::copies_room, crate::proofs::Steps::copies_more, crate::proofs::Steps::copies_done))]
fn put_addresses(copies: u32, size: u32, v: Value, m: &mut [u8], to: usize)
    requires { to + length (text_of (copied copies (address_pieces size v))) ≤ length m.old }
    ensures { m.new ≡ sets m.old to (text_of (copied copies (address_pieces size v))) }
{
    let each = constant_size(size);
    let mut at = to;
    for _ in 0..copies {
        put_address(size, v, m, at);
        at += each;
    }
}

// A statement's bytes, laid over a slice from a place on.
#[tactic(auto, unfolding(crate::specs::Pieces::text_of, crate::specs::Pieces::pieces_of))]
pub fn put_text(st: Statement, m: &mut [u8], to: usize)
    requires { to + length (text_of (pieces_of st)) ≤ length m.old }
    ensures { m.new ≡ sets m.old to (text_of (pieces_of st)) }
{
    match st {
        Statement::TwoAddresses(op, q, a, b) => put_two(op, q, a, b, m, to),
        Statement::OneAddress(op, q, a) => put_one(op, q, a, m, to),
        Statement::Jump(q, byte) => put_bytes(
            m,
            to,
            &[operation_byte(Operation::Jump, 0, 0), q, byte],
        ),
        Statement::AddressConstants(copies, size, v) => put_addresses(copies, size, v, m, to),
        Statement::NoBytes => {}
    }
}

// THE FIELDS

#[tactic(auto, unfolding(crate::specs::Pieces::offsets_from))]
fn put_operand_field(x: Operand, at: u8, m: &mut [u8], to: usize)
    requires { to + operand_count x ≤ length m.old }
    ensures { m.new ≡ sets m.old to (offsets_from at (operand_pieces x)) }
{
    if let Operand::Direct(Value::Relocatable(_)) = x {
        m[to] = at;
    }
}

// The second operand stands behind the first.
#[tactic(auto, unfolding(crate::specs::Pieces::offsets_from))]
fn put_two_fields(a: Operand, b: Operand, m: &mut [u8], to: usize)
    requires { to + (operand_count a + operand_count b) ≤ length m.old }
    ensures { m.new ≡ sets m.old to (offsets_from 2 (operand_pieces a) ++ offsets_from (2 + operand_size a) (operand_pieces b)) }
{
    let second = 2 + operand_size(a);
    let behind = to + operand_count(a);
    put_operand_field(a, 2, m, to);
    put_operand_field(b, second as u8, m, behind);
}

// Every copy of an address constant that is a field.
#[tactic(auto, unfolding(crate::specs::Steps::two_apart), using(crate::proofs::Steps::apart_more, crate::proofs::Steps::apart_done, crate::proofs::Steps::address_fields))]
fn put_address_fields(copies: u32, size: u32, v: Value, m: &mut [u8], to: usize)
    requires { (to + constant_count copies size v ≤ length m.old) × (2 * constant_count copies size v ≤ 256) }
    ensures { m.new ≡ sets m.old to (fields_of (copied copies (address_pieces size v))) }
{
    let count = constant_count(copies, size, v);
    for i in 0..count {
        m[to + i] = (2 * i) as u8;
    }
}

// The offsets of a statement's relocatable fields, laid over a slice from a place on.
#[tactic(auto, unfolding(crate::specs::Pieces::offsets_from, crate::specs::Pieces::pieces_of), using(crate::proofs::Steps::addresses_count, crate::proofs::Laws::fields_half, crate::proofs::Steps::two_fields))]
pub fn put_fields(st: Statement, m: &mut [u8], to: usize)
    requires { (length (text_of (pieces_of st)) ≤ 256) × (to + length (fields_of (pieces_of st)) ≤ length m.old) }
    ensures { m.new ≡ sets m.old to (fields_of (pieces_of st)) }
{
    match st {
        Statement::TwoAddresses(_, _, a, b) => put_two_fields(a, b, m, to),
        Statement::OneAddress(_, _, a) => put_operand_field(a, 2, m, to),
        Statement::AddressConstants(copies, size, v) => put_address_fields(copies, size, v, m, to),
        _ => {}
    }
}
