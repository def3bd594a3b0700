// The net of a table, as an image.
#![tactic(auto)]

ghost use Rattle.std.specs.Prelude.{◌≡◌, ◌+◌, ◌*◌, ◌<◌};
ghost use Rattle.lists.specs.Lists.{word};
ghost use Rattle.places.specs.Plan.{tokens_at, Laid};
ghost use Rattle.places.specs.Answers.{sums_of, net_sums};
ghost use Rattle.places.specs.Inner.Counting.{Few, Pairs};
ghost use Rattle.builder.specs.Answer.{unbuilt, built_outcome, laid_outcome, build_outcome, sized_outcome, size_outcome};
ghost use Rattle.builder.specs.declared.Refusal.TheVariants.{Table};

mod chain;
mod communications;
mod insertion;
mod layout;
mod marking;
mod nodes;
mod spans;
mod write;

use places::count::Totals;
use places::lookup::{SIZE, token_count};
use places::pairs::PAIRS;
use table::Cause;
use write::Heads;

// Why no image is written: the table's cause, or that the buffer is too short.
#[derive(Clone, Copy, Debug, PartialEq, Eq)]
pub enum Refusal {
    Table(Cause),
    NoRoom,
}

impl From<Cause> for Refusal {
    ghost from_gives = { λ cause refusal. refusal ≡ Table cause };

    fn from(cause: Cause) -> Refusal {
        Refusal::Table(cause)
    }
}

impl From<places::Refusal> for Refusal {
    ghost from_gives = { λ unplanned refusal. refusal ≡ unbuilt unplanned };

    fn from(unplanned: places::Refusal) -> Refusal {
        match unplanned {
            places::Refusal::Table(cause) => Refusal::Table(cause),
            places::Refusal::NoRoom => Refusal::NoRoom,
        }
    }
}

// How many words the image has.
fn length_of(index: &[u32], t: Totals) -> usize
    requires { (word index.now tokens_at < 65536) × Few (sums_of t) }
    ensures { result
        ≡ 8 + word index.now tokens_at + 6 * t.transitions + t.inputs + t.outputs }
{
    8 + token_count(index) + 6 * t.transitions + t.inputs + t.outputs
}

// Writes the image of a table that is laid out, with its pairs.
fn write_image(
    table: &[u16],
    index: &[u32],
    totals: Totals,
    pairs: &[u32],
    out: &mut [u32],
) -> Result<usize, Refusal>
    requires { Laid table.now index.now × (sums_of totals ≡ net_sums table.now)
        × Pairs table.now index.now pairs.now }
    ensures { built_outcome result out.new ≡ laid_outcome table.now out.old }
{
    let words = length_of(index, totals);
    if out.len() < words {
        return Err(Refusal::NoRoom);
    }
    write::header(out, index, totals);
    marking::initial(table, index, out);
    let base = 8 + token_count(index);
    let heads = Heads {
        place: base,
        arc: base + 6 * totals.transitions,
    };
    let next = nodes::nodes(table, index, out, heads);
    communications::communications(table, index, pairs, out, next);
    Ok(words)
}

// Writes the image of the table's net to the start of `out`.
pub fn build(table: &[u16], out: &mut [u32]) -> Result<usize, Refusal>
    ensures { built_outcome result out.new ≡ build_outcome table.now out.old }
{
    let mut index = [0u32; SIZE];
    let mut pairs = [0u32; PAIRS];
    let totals = places::measure(table, &mut index, &mut pairs)?;
    write_image(table, &index, totals, &pairs, out)
}

// How many words the image of the table's net has: the room that `build` needs.
pub fn size(table: &[u16]) -> Result<usize, Cause>
    ensures { sized_outcome result ≡ size_outcome table.now }
{
    let mut index = [0u32; SIZE];
    let mut pairs = [0u32; PAIRS];
    match places::measure(table, &mut index, &mut pairs) {
        Ok(totals) => Ok(length_of(&index, totals)),
        Err(places::Refusal::Table(cause)) => Err(cause),
        // The lent words are enough for every table.
        Err(places::Refusal::NoRoom) => unreachable!(),
    }
}
