// A transition's arcs: ascending lists of place numbers, made by insertion.
ghost use Rattle.places.specs.Places.{equals};
ghost use Rattle.places.specs.Plan.{Laid};
ghost use Rattle.places.specs.Inner.Plan.{Reads};
ghost use Rattle.builder.specs.Inner.Parts.{Rising, Inserted, Entered, Placed, Begins};

use crate::layout::equals;
use lists::word;

// The number of a place that the net does not have.
pub const NO_SPOT: u32 = u32::MAX;

// Puts x into the ascending first `count` numbers, where it is not there yet, and returns how many there are then.
pub(crate) fn insert(list: &mut [u32], count: usize, x: u32) -> usize
    requires { Rising list.old count }
    ensures { Inserted x count list.old result list.new }
{
    let mut at = count;
    while 0 < at && x < list[at - 1] {
        at -= 1;
    }
    if 0 < at && list[at - 1] == x {
        return count;
    }
    for k in (at..count).rev() {
        list[k + 1] = list[k];
    }
    list[at] = x;
    count + 1
}

// Puts the number of [name=v] into the ascending first `count` numbers, if the name is bound, and returns how many
// there are then; `row` is where the name's row starts.
pub(crate) fn insert_equals(
    table: &[u16],
    index: &[u32],
    list: &mut [u32],
    count: usize,
    row: usize,
    name: usize,
    v: usize,
) -> usize
    requires { Laid table.now index.now × Reads table.now name v × Rising list.old count
        × Begins table.now name row }
    ensures { Placed table.now (equals name v) count list.old result list.new }
{
    if name < word(table, 0) {
        return count;
    }
    insert(list, count, equals(table, index, row, name, v))
}

// Puts a place's number into the ascending first `count` numbers, if the net has the place, and returns how many there
// are then.
pub(crate) fn insert_spot(list: &mut [u32], count: usize, x: u32) -> usize
    requires { Rising list.old count }
    ensures { Entered x count list.old result list.new }
{
    if x == NO_SPOT {
        return count;
    }
    insert(list, count, x)
}
