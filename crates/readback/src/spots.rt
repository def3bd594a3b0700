// Where each thread stands: its marked control place.
ghost use Rattle.std.specs.Prelude.{◌≡◌, ◌+◌, ◌<◌, replicate};
ghost use Rattle.lists.specs.Lists.{word, same, every, range};
ghost use Rattle.scheme.specs.Words.{nodes, threads};
ghost use Rattle.scheme.specs.Scheme.{scheme};
ghost use Rattle.readback.specs.Inner.Standing.{spots_right};
ghost use Rattle.readback.specs.Inner.Noting.{Noting, NotedAll, Seeking, SpotsFound};

use crate::found::find;
use lists::{store, word};
use places::lookup::node_start;
use scheme::lookup::node_thread;

// Notes the marked control places of a node for its thread: how many there are, and the first. They end where those of
// the next node start.
fn note(
    table: &[u16],
    index: &[u32],
    marking: &[u8],
    node: usize,
    counts: &mut [u32],
    places: &mut [u32],
    indexes: &mut [u32],
)
    requires { Noting table.now index.now marking.now node counts.old places.old indexes.old }
    ensures { NotedAll table.now marking.now (node + 1)
        counts.new places.new indexes.new }
{
    let start = node_start(index, node);
    let f = find(marking, start, node_start(index, node + 1) - start);
    if f.count == 0 {
        return;
    }
    let thread = node_thread(table, index, node);
    let before = word(counts, thread);
    store(counts, thread, (before + f.count) as u32);
    if before != 0 {
        return;
    }
    store(places, thread, node as u32);
    store(indexes, thread, f.first as u32);
}

// How many control places of a thread are marked.
const MARKED: usize = 1;

// Whether each thread has one marked control place.
fn one_each(counts: &[u32], threads: usize) -> bool
    ensures { result ≡ every (λ t. same (word counts.now t) 1) (range threads) }
{
    (0..threads).all(|t| word(counts, t) == MARKED)
}

// Notes the marked control places of every node.
fn note_all(
    table: &[u16],
    index: &[u32],
    marking: &[u8],
    counts: &mut [u32],
    places: &mut [u32],
    indexes: &mut [u32],
)
    requires { Seeking table.now index.now counts.old places.old indexes.old }
    ensures { NotedAll table.now marking.now (nodes table.now)
        counts.new places.new indexes.new }
{
    let count = word(table, 4);
    for n in 0..count {
        note(table, index, marking, n, counts, places, indexes);
    }
}

// Fills in the node and the index of each thread's first marked control place. Whether each has one.
pub(crate) fn find_spots(
    table: &[u16],
    index: &[u32],
    marking: &[u8],
    places: &mut [u32],
    indexes: &mut [u32],
) -> bool
    requires { Seeking table.now index.now (replicate 8 0) places.old indexes.old }
    ensures { (result ≡ spots_right (scheme table.now) marking.now)
        × SpotsFound table.now marking.now places.new indexes.new }
{
    let mut counts = [0u32; 8];
    note_all(table, index, marking, &mut counts, places, indexes);
    one_each(&counts, word(table, 3))
}
