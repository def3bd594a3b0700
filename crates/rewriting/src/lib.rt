// Definitions that call themselves: the table without self-calls that stands for a college's table, and the originals
// of its nodes, branches and names (document 02, Item 1).
//
// Each call takes the college's own table. It checks causes 1 to 9 with self-calls spared, then that the rewritten
// table is within the bounds, and last what it is asked for; a refusal leaves the output as it was.
#![tactic(auto)]

mod belonging;
mod copies;
mod numbering;
mod words;

ghost use Rattle.std.specs.Prelude.{◌≡◌, []};
ghost use Rattle.rewriting.specs.Answers.{refusal_number, outcome_of};
ghost use Rattle.rewriting.specs.Outcomes.{rewrite_outcome, origin_outcome, node_origin, branch_origin, name_origin};
ghost use Rattle.rewriting.specs.Inner.Placing.{origins_of};
ghost use Rattle.rewriting.specs.declared.Refusal.TheVariants.{Table};

use crate::copies::{Part, originals, prepare, with_copies};
use crate::numbering::entries;
use crate::words::{size, write_table};
use lists::word;
use scheme::index::SIZE;
use table::Cause;

// What a call refuses: the table, output that is too short, or a number that the rewritten table doesn't have.
#[derive(Clone, Copy, Debug, PartialEq, Eq)]
pub enum Refusal {
    Table(Cause),
    NoRoom,
    Missing,
}

impl From<Cause> for Refusal {
    ghost from_gives = { λ cause refusal. refusal ≡ Table cause };

    fn from(cause: Cause) -> Refusal {
        Self::Table(cause)
    }
}

impl From<Refusal> for usize {
    ghost from_gives = { λ refusal number. number ≡ refusal_number refusal };

    fn from(refusal: Refusal) -> usize {
        match refusal {
            Refusal::Table(cause) => usize::from(cause),
            Refusal::NoRoom => 10,
            Refusal::Missing => 5,
        }
    }
}

// The words of the rewritten table; how many there are.
pub fn rewrite(table: &[u16], out: &mut [u16]) -> Result<usize, Refusal>
    ensures { outcome_of result out.new ≡ rewrite_outcome table.now out.old }
{
    let mut index = [0u32; SIZE];
    let mut list = [0u32; 1280];
    let copies = prepare(table, &mut index, &mut list)?;
    let counts = with_copies(table, copies);
    let words = size(table, counts);
    if out.len() < words {
        return Err(Refusal::NoRoom);
    }
    write_table(table, &index, &list, copies, counts, out);
    Ok(words)
}

// The entry of a section that a number of the rewritten table's is, or is a copy of.
fn original(table: &[u16], part: Part, number: u32) -> Result<usize, Refusal>
    ensures { outcome_of result [] ≡ origin_outcome table.now (origins_of table.now part) number }
{
    let mut index = [0u32; SIZE];
    let mut list = [0u32; 1280];
    let copies = prepare(table, &mut index, &mut list)?;
    let number = number as usize;
    let old = entries(table, part);
    let originals = originals(&list, copies, part);
    if number < old {
        return Ok(number);
    }
    if number - old < originals.len() {
        return Ok(word(originals, number - old));
    }
    Err(Refusal::Missing)
}

// The node of the table that a node of the rewritten table is, or is a copy of.
#[tactic(auto, unfolding(crate::specs::Rewriting::node_origins))]
pub fn original_node(table: &[u16], number: u32) -> Result<usize, Refusal>
    ensures { outcome_of result [] ≡ node_origin table.now number }
{
    original(table, Part::Nodes, number)
}

// The branch of the table that a branch of the rewritten table is, or is a copy of.
#[tactic(auto, unfolding(crate::specs::Rewriting::branch_origins))]
pub fn original_branch(table: &[u16], number: u32) -> Result<usize, Refusal>
    ensures { outcome_of result [] ≡ branch_origin table.now number }
{
    original(table, Part::Branches, number)
}

// The name of the table that a name of the rewritten table is, or is a copy of.
#[tactic(auto, unfolding(crate::specs::Rewriting::name_origins))]
pub fn original_name(table: &[u16], number: u32) -> Result<usize, Refusal>
    ensures { outcome_of result [] ≡ name_origin table.now number }
{
    original(table, Part::Names, number)
}
