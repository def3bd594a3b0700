// Writing the places that are marked at first.
ghost use Rattle.std.specs.Prelude.{◌≡◌, ◌+◌, ◌<◌, ◌≤◌, length};
ghost use Rattle.lists.specs.Lists.{from};
ghost use Rattle.scheme.specs.Scheme.{scheme};
ghost use Rattle.places.specs.Plan.{Laid};
ghost use Rattle.places.specs.Inner.Arcs.{initial_numbers};
ghost use Rattle.builder.specs.Inner.Writing.{writes};
ghost use Rattle.places.specs.Inner.Plan.{today};
ghost use Rattle.builder.specs.Inner.Parts.{initial_row_places, initial_spot_places};

use crate::insertion::insert;
use crate::write::words;
use lists::{store, word};
use places::count::publics_of;
use places::layout::is_read;
use places::lookup::{free_start, node_start, privates};
use places::reach::reach_of;
use places::row::row_places;
use scheme::fields::{field1, field4};

fn count_up(out: &mut [u32], at: usize, first: usize, count: usize) -> usize
    requires { (first + count ≤ 4294967296) × (at < 4294967296) }
    ensures { (result ≡ at + count) × (out.new ≡ writes out.old at (from first count)) }
{
    for i in 0..count {
        store(out, at + i, (first + i) as u32);
    }
    at + count
}

fn initial_rows(table: &[u16], index: &[u32], out: &mut [u32]) -> usize
    requires { Laid table.now index.now }
    ensures { (result ≡ 8 + length (initial_row_places table.now)) × (result < 65536)
        × (out.new ≡ writes out.old 8 (initial_row_places table.now)) }
{
    let publics = word(table, 0);
    let privates = privates(index);
    let end = publics + word(table, 1);
    let mut at = 8;
    let mut row = 0;
    for x in publics..end {
        if is_read(table, index, x) {
            let held = publics_of(table, reach_of(index, x)) + privates;
            at = count_up(out, at, row + held, privates);
        }
        row += row_places(table, index, x, x + 1);
    }
    at
}

// Each entry root's first place, ascending.
fn initial_spots(table: &[u16], index: &[u32], out: &mut [u32], at: usize)
    requires { Laid table.now index.now × (at < 65536) }
    ensures { out.new ≡ writes out.old at (initial_spot_places table.now) }
{
    let threads = word(table, 3);
    let mut list = [0u32; 8];
    let mut count = 0;
    for t in 0..threads {
        let root = field4(table, 8, field1(table, 9, t), 1);
        count = insert(&mut list, count, node_start(index, root) as u32);
    }
    words(out, at, &list, count);
}

pub(crate) fn initial(table: &[u16], index: &[u32], out: &mut [u32])
    requires { Laid table.now index.now }
    ensures { out.new
        ≡ writes out.old 8 (initial_numbers (scheme table.now) (today table.now)) }
{
    let at = initial_rows(table, index, out);
    let next = count_up(out, at, free_start(index), privates(index));
    initial_spots(table, index, out, next);
}
