// The names that a lent area holds, as a list that can be asked.
ghost use Rattle.std.specs.Prelude.{◌≡◌, true, ◌*◌, ◌≤◌, length};
ghost use Rattle.values.specs.Refusals.{number_in};
ghost use Rattle.names.specs.Names.{find, ascending, name_refusal};
ghost use Rattle.names.specs.Table.{names_in};

use crate::{Meaning, meaning_at, number_at, place};
use std::marker::Model;
use values::Value;
use values::refusals::Refusal;

// The first `count` records of an area, in ascending order: a contract sees the list of their names.
#[derive(Drop)]
pub struct Names<'a> {
    area: &'a [u8],
    count: usize,
}

impl<'a> Model for Names<'a> {
    ghost use Rattle.std.specs.Prelude.{List};
    ghost use Rattle.names.specs.declared.Name.{Name};

    ghost Value = { List Name };

    ghost use Rattle.std.specs.Prelude.{◌≡◌, true, ◌*◌, ◌≤◌, length};
    ghost use Rattle.names.specs.Names.{ascending};
    ghost use Rattle.names.specs.Table.{names_in};

    ghost view = { λ n. names_in n.count n.area.now };

    ghost invariant = { λ n. (16 * n.count ≤ length n.area.now) × (ascending (names_in n.count n.area.now) ≡ true) };
}

impl<'a> Names<'a> {
    pub fn of(area: &'a [u8], count: usize) -> Names<'a>
        requires { (16 * count ≤ length area.now) × (ascending (names_in count area.now) ≡ true) }
        ensures { result ≡ names_in count area.entry.now }
    {
        Names { area, count }
    }

    pub fn len(&self) -> usize
        ensures { result ≡ length self.now }
    {
        self.count
    }

    // What the names say of a number.
    pub fn look_up(&self, number: u64) -> Option<Meaning>
        ensures { result ≡ find self.now number }
    {
        let i = place(self.area, self.count, number);
        if i < self.count && number_at(self.area, 16 * i) == number {
            Some(meaning_at(self.area, 16 * i))
        } else {
            None
        }
    }

    // 16 or 17 of a name that is to be defined.
    #[tactic(auto, unfolding(crate::specs::Names::name_refusal))]
    pub fn check_new(&self, limit: usize, number: u64) -> Result<(), Refusal>
        ensures { number_in result ≡ name_refusal limit self.now number }
    {
        match self.look_up(number) {
            Some(_) => Err(Refusal::DefinedBefore),
            None if self.len() < limit => Ok(()),
            None => Err(Refusal::TooManyNames),
        }
    }
}
