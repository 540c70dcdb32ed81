// The form of an expression: where it ends, or the first position at which it could not go on.
ghost use Rattle.std.specs.Prelude.{Ok, Err, ◌≡◌, ◌+◌, ◌<◌, get_or, eqb};
ghost use Rattle.values.specs.Tests.{pick};
ghost use Rattle.expressions.specs.Form.{form_of, joins, factors_at, product_at, expression_at};

use letters::byte_at;
use terms::read_term;

// The position behind a byte, if it stands here.
pub fn behind_byte(s: &[u8], at: usize, b: u8) -> Result<usize, usize>
    requires { 0 < b }
    ensures { result ≡ pick (eqb (get_or s.now at 0) b) (Ok (at + 1)) (Err at) }
{
    if byte_at(s, at) == b {
        Ok(at + 1)
    } else {
        Err(at)
    }
}

pub fn joins_at(s: &[u8], at: usize) -> bool
    ensures { result ≡ joins s.now at }
{
    matches!(byte_at(s, at), b'+' | b'-')
}

fn factors_form(s: &[u8], at: usize) -> Result<usize, usize>
    ensures { result ≡ form_of (factors_at s.now at) }
{
    let mut q = at;
    while byte_at(s, q) == b'*' {
        let (_, behind) = read_term(s, q + 1)?;
        q = behind;
    }
    Ok(q)
}

#[tactic(auto, unfolding(crate::specs::Form::product_at))]
fn product_form(s: &[u8], at: usize) -> Result<usize, usize>
    ensures { result ≡ form_of (product_at s.now at) }
{
    let (_, q) = read_term(s, at)?;
    factors_form(s, q)
}

// The form of the expression at a position.
pub fn expression_form(s: &[u8], at: usize) -> Result<usize, usize>
    ensures { result ≡ form_of (expression_at s.now at) }
{
    let mut q = product_form(s, at)?;
    while joins_at(s, q) {
        q = product_form(s, q + 1)?;
    }
    Ok(q)
}
