// Writing the header, and with two heads the record and the arcs of a transition.
ghost use Rattle.std.specs.Prelude.{◌≡◌, [], ◌∷◌, map, ◌+◌, ◌*◌, ◌<◌, ◌≤◌, length, take};
ghost use Rattle.std.proofs.Math.Seq.{slice};
ghost use Rattle.lists.specs.Lists.{word, range};
ghost use Rattle.builder.specs.Inner.Writing.{writes, put_one_transition, put_all, Inside, mask_of, sums, Steady};
ghost use Rattle.places.specs.Plan.{places_at, tokens_at};
ghost use Rattle.places.specs.Answers.{sums_of};
ghost use Rattle.places.specs.Inner.Counting.{Few};
ghost use Rattle.builder.specs.Inner.Parts.{state, arrow, risen, Short};
ghost use Rattle.places.specs.Inner.Plan.{header_of};

use lists::store;
use places::count::Totals;
use places::lookup::{place_count, token_count};

// Where the next record and the next arc go.
#[derive(Clone, Copy)]
pub struct Heads {
    pub place: usize,
    pub arc: usize,
}

// What a transition does: its kind and the two numbers that belong to it.
#[derive(Clone, Copy)]
pub struct Label {
    pub kind: u32,
    pub a: usize,
    pub b: usize,
}

// The arcs of a transition: the first `inputs` and the first `outputs` words.
#[derive(Clone, Copy)]
pub struct Arcs {
    pub ins: [u32; 8],
    pub inputs: usize,
    pub outs: [u32; 8],
    pub outputs: usize,
}

pub(crate) fn words(out: &mut [u32], at: usize, list: &[u32], count: usize) -> usize
    requires { (count ≤ length list.now) × (at < 8589934592) }
    ensures { (result ≡ at + count)
        × (out.new ≡ writes out.old at (take count list.now)) }
{
    for i in 0..count {
        store(out, at + i, list[i]);
    }
    at + count
}

// As `words`, where there is room.
fn lay(out: &mut [u32], at: usize, list: &[u32], count: usize) -> usize
    requires { (count ≤ length list.now) × (at + count ≤ length out.old) }
    ensures { (result ≡ at + count)
        × (out.new ≡ writes out.old at (take count list.now)) }
{
    for i in 0..count {
        out[at + i] = list[i];
    }
    at + count
}

// The record of a transition whose arcs start at `arc`.
fn put_record(
    out: &mut [u32],
    place: usize,
    label: Label,
    arc: usize,
    inputs: usize,
    outputs: usize,
)
    requires { (place + 6 ≤ length out.old) × (label.a < 65536) × (label.b < 65536) × (arc < 4294967296)
        × (inputs < 4294967296) × (outputs < 4294967296) }
    ensures { out.new
        ≡ writes out.old place (label.kind ∷ label.a ∷ label.b ∷ arc ∷ inputs ∷ outputs ∷ []) }
{
    out[place] = label.kind;
    out[place + 1] = label.a as u32;
    out[place + 2] = label.b as u32;
    out[place + 3] = arc as u32;
    out[place + 4] = inputs as u32;
    out[place + 5] = outputs as u32;
}

// A transition: its record and its arcs.
pub(crate) fn transition(
    out: &mut [u32],
    h: Heads,
    label: Label,
    ins: &[u32],
    inputs: usize,
    outs: &[u32],
    outputs: usize,
) -> Heads
    requires { (label.a < 65536) × (label.b < 65536) × (inputs ≤ length ins.now) × (outputs ≤ length outs.now)
        × Inside (put_one_transition (state out.old h)
        (arrow label.kind label.a label.b (take inputs ins.now) (take outputs outs.now))) }
    ensures { state out.new result
        ≡ put_one_transition (state out.old h)
        (arrow label.kind label.a label.b
        (take inputs ins.now) (take outputs outs.now)) }
{
    let place = h.place;
    let arc = h.arc;
    put_record(out, place, label, arc, inputs, outputs);
    let middle = lay(out, arc, ins, inputs);
    let end = lay(out, middle, outs, outputs);
    Heads {
        place: place + 6,
        arc: end,
    }
}

pub(crate) fn go(out: &mut [u32], h: Heads, kind: u32, a: usize, from: u32, to: u32) -> Heads
    requires { (a < 65536) × Inside (put_one_transition (state out.old h) (arrow kind a 0 (from ∷ []) (to ∷ []))) }
    ensures { state out.new result
        ≡ put_one_transition (state out.old h) (arrow kind a 0 (from ∷ []) (to ∷ [])) }
{
    let ins = [from; 1];
    let outs = [to; 1];
    transition(out, h, Label { kind, a, b: 0 }, &ins, 1, &outs, 1)
}

// All bits for a number that rises, none for another.
fn mask(x: u32, rise: &[u32; 5]) -> u32
    ensures { result ≡ mask_of rise.now x }
{
    if rise.iter().any(|&r| r == x) {
        u32::MAX
    } else {
        0
    }
}

fn masks_of(list: &[u32; 16], rise: &[u32; 5]) -> [u32; 16]
    requires { length list.now ≡ 16 }
    ensures { result ≡ map (mask_of rise.now) list.now }
{
    let mut masks = [0u32; 16];
    for k in 0..16 {
        masks[k] = mask(list[k], rise);
    }
    masks
}

// Writes four numbers of a list from number i on, those with a mask raised by t.
fn four(out: &mut [u32], at: usize, list: &[u32; 16], masks: &[u32; 16], i: usize, t: u32)
    requires { (i + 4 ≤ 16) × (at + i + 4 ≤ length out.old) × Steady list.now masks.now (i + 4)
        × (t < 65536) }
    ensures { out.new
        ≡ writes out.old (at + i) (slice i (i + 4) (sums t list.now masks.now)) }
{
    out[at + i] = list[i] + (masks[i] & t);
    out[at + i + 1] = list[i + 1] + (masks[i + 1] & t);
    out[at + i + 2] = list[i + 2] + (masks[i + 2] & t);
    out[at + i + 3] = list[i + 3] + (masks[i + 3] & t);
}

// Writes those from number `first` on up to `count`.
fn rest(
    out: &mut [u32],
    at: usize,
    list: &[u32; 16],
    masks: &[u32; 16],
    first: usize,
    count: usize,
    t: u32,
) -> usize
    requires { (count ≤ 16) × (first ≤ count) × (at + count ≤ length out.old)
        × Steady list.now masks.now count × (t < 65536) }
    ensures { (result ≡ at + count)
        × (out.new ≡ writes out.old (at + first)
        (slice first count (sums t list.now masks.now))) }
{
    for i in first..count {
        out[at + i] = list[i] + (masks[i] & t);
    }
    at + count
}

// Writes the first `count` numbers of a list, those with a mask raised by t, four at a time.
fn raised(
    out: &mut [u32],
    at: usize,
    list: &[u32; 16],
    masks: &[u32; 16],
    count: usize,
    t: u32,
) -> usize
    requires { (count ≤ 16) × (at + count ≤ length out.old) × Steady list.now masks.now count × (t < 65536) }
    ensures { (result ≡ at + count)
        × (out.new ≡ writes out.old at
        (take count (sums t list.now masks.now))) }
{
    let mut i = 0;
    while i + 4 <= count {
        four(out, at, list, masks, i, t);
        i += 4;
    }
    rest(out, at, list, masks, i, count, t)
}

// Transitions of one label that follow one another: the first has the given arcs, and from one to the next those of
// given numbers rise by 1; 2³² − 1 is the number of none.
pub(crate) fn series(
    out: &mut [u32],
    h: Heads,
    label: Label,
    arcs: Arcs,
    rise: [u32; 5],
    count: usize,
) -> Heads
    requires { (label.a < 65536) × (label.b < 65536) × (count < 65536) × Short arcs
        × Inside (put_all (risen label.kind label.a label.b arcs rise)
        (state out.old h) (range count)) }
    ensures { state out.new result
        ≡ put_all (risen label.kind label.a label.b arcs rise)
        (state out.old h) (range count) }
{
    let ins = arcs.ins;
    let outs = arcs.outs;
    let mut list = [0u32; 16];
    let middle = words(&mut list, 0, &ins, arcs.inputs);
    let size = words(&mut list, middle, &outs, arcs.outputs);
    let masks = masks_of(&list, &rise);
    let mut place = h.place;
    let mut arc = h.arc;
    for t in 0..count {
        put_record(out, place, label, arc, arcs.inputs, arcs.outputs);
        arc = raised(out, arc, &list, &masks, size, t as u32);
        place += 6;
    }
    Heads { place, arc }
}

pub(crate) fn header(out: &mut [u32], index: &[u32], t: Totals)
    requires { (word index.now places_at < 65536) × (word index.now tokens_at < 65536) × Few (sums_of t)
        × (8 + word index.now tokens_at + 6 * t.transitions < 4294967296) }
    ensures { out.new
        ≡ writes out.old 0
        (header_of (word index.now places_at) t.transitions t.inputs t.outputs
        (word index.now tokens_at)) }
{
    let places = place_count(index);
    let tokens = token_count(index);
    let list = [
        places as u32,
        t.transitions as u32,
        t.inputs as u32,
        t.outputs as u32,
        tokens as u32,
        8,
        (8 + tokens) as u32,
        (8 + tokens + 6 * t.transitions) as u32,
    ];
    words(out, 0, &list, 8);
}
