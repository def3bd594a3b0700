// The process rules: the starting state, the steps that are open in a state, and the state after one of them.
//
// A state goes in and out as words. Each call checks the table, then the state words, then what it is asked for, and
// last the lent output; a refusal leaves the output as it was.
#![tactic(auto)]

mod formed;
mod labels;
mod listing;
mod next;
mod threads;
pub mod values;

ghost use Rattle.std.specs.Prelude.{◌≡◌, ◌<◌, map, replicate};
ghost use Rattle.std.proofs.lemmas.List.Edits.{sets};
ghost use Rattle.lists.specs.Lists.{range};
ghost use Rattle.scheme.specs.Words.{threads, bounds, root, entry};
ghost use Rattle.process.specs.Answers.{outcome_of, refusal_number};
ghost use Rattle.process.specs.declared.Refusal.TheVariants.{Table};
ghost use Rattle.process.specs.Outcomes.{start_outcome, open_outcome, step_outcome};

use crate::formed::well_formed;
use crate::labels::open_step;
use crate::listing::list_open;
use crate::next::write_state;
use lists::{store, word};
use scheme::fields::{field1, field4};
use scheme::index::SIZE;
use table::Cause;
use table::known::{Index, Known};

// What a call refuses: the table, the state words, a step that is not open, a lent output that is too short.
#[derive(Clone, Copy, Debug, PartialEq, Eq)]
pub enum Refusal {
    Table(Cause),
    Malformed,
    NotOpen,
    NoRoom,
}

impl From<Cause> for Refusal {
    ghost from_gives = { λ cause refusal. refusal ≡ Table cause };

    fn from(cause: Cause) -> Refusal {
        Self::Table(cause)
    }
}

impl From<Refusal> for usize {
    ghost from_gives = { λ refusal number. (number ≡ refusal_number refusal) × (number < 20) };

    fn from(refusal: Refusal) -> usize {
        match refusal {
            Refusal::Table(cause) => cause.into(),
            Refusal::Malformed => 18,
            Refusal::NotOpen => 19,
            Refusal::NoRoom => 10,
        }
    }
}

// Writes the root of each thread's entry definition.
fn write_roots(table: &[u16], out: &mut [u16])
    ensures { out.new
        ≡ sets out.old 0
        (map (λ t. root table.now (entry table.now t)) (range (threads table.now))) }
{
    let threads = word(table, 3);
    for t in 0..threads {
        store(out, t, field4(table, 8, field1(table, 9, t), 1) as u16);
    }
}

// Writes for each bound name that it is not held.
fn write_unheld(table: &[u16], out: &mut [u16])
    ensures { out.new
        ≡ sets out.old (threads table.now) (replicate (bounds table.now) 65535) }
{
    let threads = word(table, 3);
    let bounds = word(table, 1);
    for i in 0..bounds {
        store(out, threads + i, 65535);
    }
}

// The words of the starting state; how many they are.
pub fn start(table: &[u16], state: &mut [u16]) -> Result<usize, Refusal>
    ensures { outcome_of result state.new ≡ start_outcome table.now state.old }
{
    table::check(table)?;
    let size = word(table, 3) + word(table, 1);
    if state.len() < size {
        return Err(Refusal::NoRoom);
    }
    write_roots(table, state);
    write_unheld(table, state);
    Ok(size)
}

// The labels of the open steps, three words each; how many steps there are.
pub fn open_steps(table: &[u16], state: &[u16], labels: &mut [u32]) -> Result<usize, Refusal>
    ensures { outcome_of result labels.new
        ≡ open_outcome table.now state.now labels.old }
{
    let mut index = Index {
        words: [0u32; SIZE],
    };
    let known = Known::with_index(&mut index, table)?;
    if !well_formed(&known, state) {
        return Err(Refusal::Malformed);
    }
    let size = list_open(&known, state, labels);
    if labels.len() < size {
        return Err(Refusal::NoRoom);
    }
    Ok(size / 3)
}

// The words of the state after the step that a label names; how many they are.
pub fn step(
    table: &[u16],
    state: &[u16],
    kind: u32,
    a: u32,
    b: u32,
    next: &mut [u16],
) -> Result<usize, Refusal>
    ensures { outcome_of result next.new
        ≡ step_outcome table.now state.now kind a b next.old }
{
    let mut index = Index {
        words: [0u32; SIZE],
    };
    let known = Known::with_index(&mut index, table)?;
    if !well_formed(&known, state) {
        return Err(Refusal::Malformed);
    }
    let Some(taken) = open_step(&known, state, kind, a, b) else {
        return Err(Refusal::NotOpen);
    };
    let size = word(table, 3) + word(table, 1);
    if next.len() < size {
        return Err(Refusal::NoRoom);
    }
    write_state(&known, state, taken, next);
    Ok(size)
}
