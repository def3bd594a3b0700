// Reading a marking back: the words of the state that it stands for.
#![tactic(auto)]

ghost use Rattle.std.specs.Prelude.{◌≡◌, ◌<◌};
ghost use Rattle.places.specs.Plan.{Laid};
ghost use Rattle.readback.specs.Inner.Settling.{Settling, Settles};
ghost use Rattle.readback.specs.Answers.{outcome_of, laid_outcome, read_outcome, refusal_number, of_plan};
ghost use Rattle.readback.specs.declared.Refusal.TheVariants.{Table};

mod found;
mod names;
mod shown;
mod spots;

use lists::word;
use places::lookup::{SIZE, place_count};
use table::Cause;

// What `read` refuses: the table, bytes that are no marking of its net, a marking that stands for no state, a lent output
// that is too short.
#[derive(Clone, Copy, Debug, PartialEq, Eq)]
pub enum Refusal {
    Table(Cause),
    NoMarking,
    NoState,
    NoRoom,
}

impl From<Cause> for Refusal {
    ghost from_gives = { λ cause refusal. refusal ≡ Table cause };

    fn from(cause: Cause) -> Refusal {
        Self::Table(cause)
    }
}

impl From<places::Refusal> for Refusal {
    ghost from_gives = { λ planned refusal. refusal ≡ of_plan planned };

    fn from(planned: places::Refusal) -> Refusal {
        match planned {
            places::Refusal::Table(cause) => Refusal::Table(cause),
            places::Refusal::NoRoom => Refusal::NoRoom,
        }
    }
}

impl From<Refusal> for usize {
    ghost from_gives = { λ refusal number. (number ≡ refusal_number refusal) × (number < 20) };

    fn from(refusal: Refusal) -> usize {
        match refusal {
            Refusal::Table(cause) => cause.into(),
            Refusal::NoMarking => 13,
            Refusal::NoState => 17,
            Refusal::NoRoom => 10,
        }
    }
}

// Whether a marking stands for a state. Fills in where the threads stand, and the values of bound names.
fn stands_for(
    table: &[u16],
    index: &[u32],
    marking: &[u8],
    places: &mut [u32],
    indexes: &mut [u32],
    values: &mut [u16],
) -> bool
    requires { Settling table.now index.now marking.now places.old indexes.old values.old }
    ensures { Settles table.now marking.now result
        places.new indexes.new values.new }
{
    if !spots::find_spots(table, index, marking, places, indexes) {
        return false;
    }
    let mut held = [0u8; 64];
    names::mark_all(table, index, places, indexes, &mut held);
    names::find_values(table, index, marking, &held, values)
        && names::freed(table, index, marking, values)
}

// Reads a marking of a table that is laid out.
fn read_laid(
    table: &[u16],
    index: &[u32],
    marking: &[u8],
    state: &mut [u16],
) -> Result<usize, Refusal>
    requires { Laid table.now index.now }
    ensures { outcome_of result state.new
        ≡ laid_outcome table.now marking.now state.old }
{
    if !net::marking_right(marking, place_count(index)) {
        return Err(Refusal::NoMarking);
    }
    let mut places = [0u32; 8];
    let mut indexes = [0u32; 8];
    let mut values = [0u16; 64];
    if !stands_for(
        table,
        index,
        marking,
        &mut places,
        &mut indexes,
        &mut values,
    ) {
        return Err(Refusal::NoState);
    }
    let size = word(table, 3) + word(table, 1);
    if state.len() < size {
        return Err(Refusal::NoRoom);
    }
    shown::write_nodes(table, &places, &indexes, state);
    shown::write_values(table, index, &places, &indexes, &values, state);
    Ok(size)
}

// The words of the state that a marking of the table's net stands for; how many they are.
pub fn read(table: &[u16], marking: &[u8], state: &mut [u16]) -> Result<usize, Refusal>
    ensures { outcome_of result state.new
        ≡ read_outcome table.now marking.now state.old }
{
    let mut index = [0u32; SIZE];
    places::plan(table, &mut index)?;
    read_laid(table, &index, marking, state)
}
