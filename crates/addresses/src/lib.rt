// An address at a position of an operand: an expression, and the items in parentheses behind it, from the columns alone.
#![tactic(auto)]

ghost use Rattle.std.specs.Prelude.{None, ◌≡◌};
ghost use Rattle.addresses.specs.Address.{address, closed, register_at, length_at, items_at, plain, address_at};

use expressions::form::{behind_byte, expression_form};
use letters::byte_at;

// An address, E, E(L), E(L,R), E(,R) or E(R): where each expression starts.
#[derive(Clone, Copy, Debug, PartialEq, Eq)]
pub struct Address {
    pub at: usize,
    pub length: Option<usize>,
    pub register: Option<usize>,
}

impl Address {
    // E alone.
    fn alone(at: usize) -> Address
        ensures { result ≡ address at None None }
    {
        Address {
            at,
            length: None,
            register: None,
        }
    }
}

// What may be written in parentheses behind E.
#[derive(Clone, Copy, Debug, PartialEq, Eq)]
pub enum Allowed {
    // E(L), E(L,R), E(,R), E
    MayHaveLength,
    // E(L), E(L,R)
    HasLength,
    // E(,R), E
    NoLength,
    // E, E(R), E(,R)
    OnlyRegister,
}

#[tactic(auto, unfolding(crate::specs::Address::closed))]
fn closed(s: &[u8], q: usize, a: Address) -> Result<(Address, usize), usize>
    ensures { result ≡ closed s.now q a }
{
    Ok((a, behind_byte(s, q, b')')?))
}

#[tactic(auto, unfolding(crate::specs::Address::register_at))]
fn register_at(
    s: &[u8],
    at: usize,
    length: Option<usize>,
    p: usize,
) -> Result<(Address, usize), usize>
    ensures { result ≡ register_at s.now at length p }
{
    let behind = expression_form(s, p)?;
    let register = Some(p);
    closed(
        s,
        behind,
        Address {
            at,
            length,
            register,
        },
    )
}

#[tactic(auto, unfolding(crate::specs::Address::length_at, crate::specs::Address::behind_length))]
fn length_at(s: &[u8], at: usize, p: usize) -> Result<(Address, usize), usize>
    ensures { result ≡ length_at s.now at p }
{
    let q = expression_form(s, p)?;
    if byte_at(s, q) == b',' {
        register_at(s, at, Some(p), q + 1)
    } else {
        closed(
            s,
            q,
            Address {
                length: Some(p),
                ..Address::alone(at)
            },
        )
    }
}

// What stands behind the opening parenthesis.
#[tactic(auto, unfolding(crate::specs::Address::or_register))]
fn items_at(s: &[u8], at: usize, p: usize, w: Allowed) -> Result<(Address, usize), usize>
    ensures { result ≡ items_at w s.now at p }
{
    match w {
        Allowed::HasLength => length_at(s, at, p),
        _ if byte_at(s, p) == b',' => register_at(s, at, None, p + 1),
        Allowed::MayHaveLength => length_at(s, at, p),
        Allowed::NoLength => Err(p),
        Allowed::OnlyRegister => register_at(s, at, None, p),
    }
}

// E alone, which ends at q.
fn plain(at: usize, q: usize, w: Allowed) -> Result<(Address, usize), usize>
    ensures { result ≡ plain w at q }
{
    match w {
        Allowed::HasLength => Err(q),
        _ => Ok((Address::alone(at), q)),
    }
}

#[tactic(auto, unfolding(crate::specs::Address::address_at, crate::specs::Address::behind_address))]
pub fn address_at(s: &[u8], at: usize, w: Allowed) -> Result<(Address, usize), usize>
    ensures { result ≡ address_at w s.now at }
{
    let q = expression_form(s, at)?;
    if byte_at(s, q) == b'(' {
        items_at(s, at, q + 1, w)
    } else {
        plain(at, q, w)
    }
}
