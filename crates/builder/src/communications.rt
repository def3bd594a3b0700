// The communications.
ghost use Rattle.std.specs.Prelude.{◌≡◌, map, ◌<◌, ◌≤◌, length};
ghost use Rattle.lists.specs.Lists.{pick, from};
ghost use Rattle.scheme.specs.Words.{publics, branches};
ghost use Rattle.places.specs.Places.{equals, differs};
ghost use Rattle.places.specs.Plan.{Laid};
ghost use Rattle.places.specs.Sides.{side_in, receives_of, partner_set};
ghost use Rattle.places.specs.Inner.Plan.{Reads, Differs};
ghost use Rattle.places.specs.Inner.Counting.{Pairs};
ghost use Rattle.builder.specs.Inner.Writing.{Inside};
ghost use Rattle.builder.specs.Inner.Spans.{values_in};
ghost use Rattle.builder.specs.Inner.Parts.{put, state, pair_told, with_all_of, all_told, arcs, Tells, Paired, pair_of};
ghost use Rattle.builder.specs.Inner.Parts.{spot_of, Spotted, Can, risers_of, told_by, Telling, Told, Coursed};
ghost use Rattle.builder.specs.Inner.Parts.{Begins, StartsOf};

use crate::insertion::{NO_SPOT, insert, insert_spot};
use crate::layout::{differs, equals, value_count};
use crate::spans::{Span, Values, behind, behind_one, first_run, first_value, is_none, values_of};
use crate::write::{Arcs, Heads, Label, series, transition};
use lists::{store, word};
use places::count::{Side, receive_at, side_of};
use places::lookup::privates;
use places::pairs::SETS;
use places::reach::{common, reach_of};
use places::row::{Start, row_on};
use scheme::fields::field4;

// What the communications of a send and a receive share: the branches, the names that they use, the places before and
// after them, and where the rows of the names of the send and of those of the receive start.
#[derive(Clone, Copy)]
pub struct Pair {
    pub send: usize,
    pub receive: usize,
    pub channel: usize,
    pub sent: usize,
    pub heard: usize,
    pub bound: usize,
    pub sender: u32,
    pub onsend: u32,
    pub receiver: u32,
    pub onreceive: u32,
    pub own: Starts,
    pub other: Starts,
}

// Where the rows of a branch's channel and of its name start.
#[derive(Clone, Copy)]
pub struct Starts {
    pub channel: u32,
    pub name: u32,
}

// A send: what is told of it, where the rows of its names start, and the receives that it can meet.
#[derive(Clone, Copy)]
pub struct Sender {
    pub side: Side,
    pub own: Starts,
    pub set: u64,
}

// Where the rows of the channel and of the name of each receive start, in order.
#[derive(Clone, Copy)]
pub struct Rows {
    pub at: [u32; 64],
}

// The numbers of the places of names that a communication reads, takes or gives, 2³² − 1 for a place that the net does
// not have: both channels, the sent name, and of the bound one the value given and, where private, the one taken.
#[derive(Clone, Copy)]
pub struct Spots {
    pub channel: u32,
    pub heard: u32,
    pub sent: u32,
    pub bound: u32,
    pub free: u32,
}

// How the values of a run are told: as channel values, as sent values, or as both; the other one stays.
#[derive(Clone, Copy)]
pub struct Way {
    pub channels: bool,
    pub sents: bool,
    pub other: usize,
}

// How the communications of a send are gone through: whether runs are of channel values, and of sent values, and the
// sent values; a name sent on itself goes with its channel, and stands as one value.
#[derive(Clone, Copy)]
pub struct Course {
    pub channels: bool,
    pub sents: bool,
    pub values: Values,
}

// How many arcs there are, and the places of names among them.
#[derive(Clone, Copy)]
pub struct Sizes {
    pub inputs: usize,
    pub outputs: usize,
    pub spots: Spots,
}

// The number of [name=v], if the name is bound.
fn spot(table: &[u16], index: &[u32], row: u32, name: usize, v: usize) -> u32
    requires { Laid table.now index.now × Reads table.now name v × Begins table.now name row }
    ensures { result ≡ spot_of table.now (equals name v) }
{
    if name < word(table, 0) {
        return NO_SPOT;
    }
    equals(table, index, row as usize, name, v)
}

// The number of [name≠v], if v is private.
fn free_spot(table: &[u16], index: &[u32], row: u32, name: usize, v: usize) -> u32
    requires { Laid table.now index.now × (publics table.now ≤ v → Differs table.now name v)
        × Begins table.now name row }
    ensures { result ≡ spot_of table.now (differs name v) }
{
    if v < word(table, 0) {
        return NO_SPOT;
    }
    differs(table, index, row as usize, name, v)
}

// The places of names at channel value i and sent value j.
fn spots_of(table: &[u16], index: &[u32], p: Pair, i: usize, j: usize) -> Spots
    requires { Laid table.now index.now × Paired table.now p × Can table.now p i j }
    ensures { Spotted table.now p i j result }
{
    Spots {
        channel: spot(table, index, p.own.channel, p.channel, i),
        heard: spot(table, index, p.other.channel, p.heard, i),
        sent: spot(table, index, p.own.name, p.sent, j),
        bound: spot(table, index, p.other.name, p.bound, j),
        free: free_spot(table, index, p.other.name, p.bound, j),
    }
}

// Fills in the arcs at channel value i and sent value j. What is read is both input and output.
fn arcs_of(
    table: &[u16],
    index: &[u32],
    p: Pair,
    i: usize,
    j: usize,
    ins: &mut [u32],
    outs: &mut [u32],
) -> Sizes
    requires { Laid table.now index.now × Paired table.now p × Can table.now p i j
        × (length ins.old ≡ 8) × (length outs.old ≡ 8) }
    ensures { Tells table.now p i j
        (arcs ins.new result.inputs outs.new result.outputs)
        × Spotted table.now p i j result.spots }
{
    let t = spots_of(table, index, p, i, j);
    let mut c = insert_spot(ins, 0, t.channel);
    c = insert_spot(ins, c, t.heard);
    c = insert_spot(ins, c, t.sent);
    outs.copy_from_slice(ins);
    let mut o = insert_spot(outs, c, t.bound);
    o = insert(outs, o, p.onsend);
    o = insert(outs, o, p.onreceive);
    c = insert_spot(ins, c, t.free);
    c = insert(ins, c, p.sender);
    c = insert(ins, c, p.receiver);
    Sizes {
        inputs: c,
        outputs: o,
        spots: t,
    }
}

// The first where the test holds, else the second.
fn either<T: Copy>(test: bool, x: T, y: T) -> T
    ensures { result ≡ pick test x y }
{
    if test { x } else { y }
}

// The numbers of the places that rise from one value of a run to the next.
fn risers(way: Way, t: Spots) -> [u32; 5]
    ensures { result ≡ risers_of way t }
{
    [
        either(way.channels, t.channel, NO_SPOT),
        either(way.channels, t.heard, NO_SPOT),
        either(way.sents, t.sent, NO_SPOT),
        either(way.sents, t.bound, NO_SPOT),
        either(way.sents, t.free, NO_SPOT),
    ]
}

// The communications of a run. From one value to the next the places of the names that are told rise by 1, and the
// order of the arcs stays.
fn tell(
    table: &[u16],
    index: &[u32],
    out: &mut [u32],
    h: Heads,
    p: Pair,
    way: Way,
    s: Span,
) -> Heads
    requires { Laid table.now index.now × Paired table.now p × Telling table.now p way s.low s.count
        × Inside (put table.now out.old h (map (told_by table.now p way) (from s.low s.count))) }
    ensures { state out.new result
        ≡ put table.now out.old h
        (map (told_by table.now p way) (from s.low s.count)) }
{
    let i = either(way.channels, s.low, way.other);
    let j = either(way.sents, s.low, way.other);
    let mut ins = [0u32; 8];
    let mut outs = [0u32; 8];
    let t = arcs_of(table, index, p, i, j, &mut ins, &mut outs);
    let label = Label {
        kind: 4,
        a: p.send,
        b: p.receive,
    };
    if s.count == 1 {
        return transition(out, h, label, &ins, t.inputs, &outs, t.outputs);
    }
    let arcs = Arcs {
        ins,
        inputs: t.inputs,
        outs,
        outputs: t.outputs,
    };
    series(out, h, label, arcs, risers(way, t.spots), s.count)
}

// The communications of all values, run by run.
fn values_told(
    table: &[u16],
    index: &[u32],
    out: &mut [u32],
    h: Heads,
    p: Pair,
    way: Way,
    x: Values,
) -> Heads
    requires { Laid table.now index.now × Paired table.now p × Told table.now p way x
        × Inside (put table.now out.old h (map (told_by table.now p way) (values_in x))) }
    ensures { state out.new result
        ≡ put table.now out.old h (map (told_by table.now p way) (values_in x)) }
{
    let mut q = h;
    let mut left = x;
    while !is_none(left) {
        let s = first_run(left);
        q = tell(table, index, out, q, p, way, s);
        left = behind(left, s);
    }
    q
}

// The communications of a send and a receive.
fn pair_up(table: &[u16], index: &[u32], out: &mut [u32], h: Heads, p: Pair, c: Course) -> Heads
    requires { Laid table.now index.now × Paired table.now p × Coursed table.now p.channel p.sent c
        × Inside (put table.now out.old h (pair_told table.now p.send p.receive)) }
    ensures { state out.new result
        ≡ put table.now out.old h (pair_told table.now p.send p.receive) }
{
    let both = common(reach_of(index, p.channel), reach_of(index, p.heard));
    let shared = values_of(word(table, 0), privates(index), both);
    let inner = either(c.channels, shared, c.values);
    let mut left = either(c.channels, c.values, shared);
    let mut q = h;
    while !is_none(left) {
        let way = Way {
            channels: c.channels,
            sents: c.sents,
            other: first_value(left),
        };
        q = values_told(table, index, out, q, p, way, inner);
        left = behind_one(left);
    }
    q
}

// How the communications of a send are gone through: a single sent value goes with all channel values.
fn course_of(table: &[u16], index: &[u32], channel: usize, name: usize) -> Course
    requires { Laid table.now index.now }
    ensures { Coursed table.now channel name result }
{
    let publics = word(table, 0);
    let privates = privates(index);
    if name == channel {
        return Course {
            channels: true,
            sents: true,
            values: Values {
                set: 1,
                low: 0,
                end: 0,
            },
        };
    }
    let reach = reach_of(index, name);
    let one = value_count(publics, privates, reach) == 1;
    Course {
        channels: one,
        sents: !one,
        values: values_of(publics, privates, reach),
    }
}

// A send and a receive by what is told of them.
fn pair_of(s: Side, own: Starts, r: Side, other: Starts) -> Pair
    ensures { result ≡ pair_of s own r other }
{
    Pair {
        send: s.branch as usize,
        receive: r.branch as usize,
        channel: s.channel as usize,
        sent: s.name as usize,
        heard: r.channel as usize,
        bound: r.name as usize,
        sender: s.place,
        onsend: s.on,
        receiver: r.place,
        onreceive: r.on,
        own,
        other,
    }
}

// Counts, once for all sends, where the rows of the receives' names start.
fn receive_rows(table: &[u16], index: &[u32]) -> Rows
    requires { Laid table.now index.now }
    ensures { StartsOf table.now result.at (receives_of table.now) }
{
    let branches = word(table, 5);
    let mut at = [0u32; 64];
    let mut a = Start { name: 0, row: 0 };
    let mut z = Start { name: 0, row: 0 };
    let mut k = 0;
    for b in 0..branches {
        if field4(table, 11, b, 0) == 2 {
            a = row_on(table, index, a, field4(table, 11, b, 1));
            z = row_on(table, index, z, field4(table, 11, b, 2));
            store(&mut at, k, a.row as u32);
            store(&mut at, k + 1, z.row as u32);
            k += 2;
        }
    }
    Rows { at }
}

// The communications of a send with the receives that it can meet.
fn partners(
    table: &[u16],
    index: &[u32],
    out: &mut [u32],
    h: Heads,
    s: Sender,
    pairs: &[u32],
    rows: Rows,
) -> Heads
    requires { Laid table.now index.now × Pairs table.now index.now pairs.now
        × (s.side.branch < branches table.now) × (s.set ≡ partner_set table.now index.now s.side.branch)
        × Inside (put table.now out.old h (with_all_of table.now s.side.branch))
        × (s.side ≡ side_in table.now index.now s.side.branch)
        × Begins table.now s.side.channel s.own.channel
        × Begins table.now s.side.name s.own.name
        × StartsOf table.now rows.at (receives_of table.now) }
    ensures { state out.new result
        ≡ put table.now out.old h (with_all_of table.now s.side.branch) }
{
    let course = course_of(table, index, s.side.channel as usize, s.side.name as usize);
    let mut q = h;
    let mut left = s.set;
    while left != 0 {
        let k = left.trailing_zeros() as u16;
        let at = 2 * (k as usize);
        let other = Starts {
            channel: rows.at[at],
            name: rows.at[at + 1],
        };
        let p = pair_of(s.side, s.own, receive_at(pairs, k), other);
        q = pair_up(table, index, out, q, p, course);
        left &= left - 1;
    }
    q
}

pub(crate) fn communications(
    table: &[u16],
    index: &[u32],
    pairs: &[u32],
    out: &mut [u32],
    h: Heads,
) -> Heads
    requires { Laid table.now index.now × Pairs table.now index.now pairs.now
        × Inside (put table.now out.old h (all_told table.now)) }
    ensures { state out.new result
        ≡ put table.now out.old h (all_told table.now) }
{
    let branches = word(table, 5);
    let rows = receive_rows(table, index);
    let mut q = h;
    let mut a = Start { name: 0, row: 0 };
    let mut z = Start { name: 0, row: 0 };
    for s in 0..branches {
        let set = word(pairs, SETS + s) as u64;
        if set != 0 {
            let side = side_of(table, index, s as u32);
            a = row_on(table, index, a, side.channel as usize);
            z = row_on(table, index, z, side.name as usize);
            let own = Starts {
                channel: a.row as u32,
                name: z.row as u32,
            };
            q = partners(table, index, out, q, Sender { side, own, set }, pairs, rows);
        }
    }
    q
}
