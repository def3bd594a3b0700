// The net of a table before it is written: where its places stand, and how many transitions and arcs it has.
#![tactic(auto)]

ghost use Rattle.std.specs.Prelude.{◌≡◌};
ghost use Rattle.places.specs.Answers.{planned, measured, plan_outcome, measure_outcome};
ghost use Rattle.places.specs.declared.Refusal.TheVariants.{Table};

pub mod count;
pub mod layout;
pub mod lookup;
pub mod pairs;
mod privates;
pub mod reach;
mod rounds;
pub mod row;
pub mod sets;

use count::Totals;
use lookup::SIZE;
use pairs::PAIRS;
use table::Cause;

// Why there is no plan: the table's cause, or that the lent words are too few.
#[derive(Clone, Copy, Debug, PartialEq, Eq)]
pub enum Refusal {
    Table(Cause),
    NoRoom,
}

impl From<Cause> for Refusal {
    ghost from_gives = { λ cause refusal. refusal ≡ Table cause };

    fn from(cause: Cause) -> Refusal {
        Refusal::Table(cause)
    }
}

// Checks a table and fills in its plan.
pub fn plan(table: &[u16], index: &mut [u32]) -> Result<(), Refusal>
    ensures { planned result index.new ≡ plan_outcome table.now index.old }
{
    table::check(table)?;
    if index.len() < SIZE {
        return Err(Refusal::NoRoom);
    }
    scheme::index::fill(table, index);
    layout::lay_out(table, index);
    Ok(())
}

// As `plan`, with the counts of transitions and arcs; fills in also which receives each send can meet.
pub fn measure(table: &[u16], index: &mut [u32], pairs: &mut [u32]) -> Result<Totals, Refusal>
    ensures { measured result index.new pairs.new
        ≡ measure_outcome table.now index.old pairs.old }
{
    if pairs.len() < PAIRS {
        table::check(table)?;
        return Err(Refusal::NoRoom);
    }
    plan(table, index)?;
    pairs::fill_pairs(table, index, pairs);
    Ok(count::totals_of(table, index, pairs))
}
