// The operation byte, by the formula of the operands' modes.
ghost use Rattle.std.specs.Prelude.{◌≡◌};
ghost use Rattle.operations.specs.Codes.{halves, byte_by, operation_byte};

use crate::Operation;
use crate::traits::{Opcode, traits_of};

fn of_halves(high: usize, low: u8) -> u8
    ensures { result ≡ halves high low }
{
    (high % 16 * 16 + usize::from(low) % 16) as u8
}

#[tactic(auto, unfolding(crate::specs::Codes::two_address, crate::specs::Codes::one_address, crate::specs::Codes::branch))]
fn byte_by(code: Opcode, i: u8, j: u8) -> u8
    ensures { result ≡ byte_by code i j }
{
    match code {
        Opcode::NoByte => 0,
        Opcode::ByTwoModes(low) => of_halves(4 * usize::from(i) + usize::from(j), low),
        Opcode::ByOneMode(low) => of_halves(4 * usize::from(i) + 3, low),
        Opcode::ByBranchMode(low) => of_halves(12 + usize::from(j), low),
        Opcode::Fixed(byte) => byte,
    }
}

// The operation byte at the modes of the operands: direct 0, by register 1 or 2. A lone operand's mode is given twice.
pub fn operation_byte(o: Operation, i: u8, j: u8) -> u8
    ensures { result ≡ operation_byte o i j }
{
    byte_by(traits_of(o).opcode, i, j)
}
