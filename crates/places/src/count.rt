// How many transitions and arcs a net has, by multiplication.
ghost use Rattle.std.specs.Prelude.{◌≡◌, ◌+◌, ◌-◌, ◌*◌, ◌^◌, ◌<◌, ◌≤◌, not, map, length, nat_lt};
ghost use Rattle.std.proofs.lemmas.List.Edits.{sets};
ghost use Rattle.lists.specs.Lists.{pick, bit, same, word, from, range, keep, flat};
ghost use Rattle.scheme.specs.Words.{publics, names, nodes, branches, channel, argument};
ghost use Rattle.places.specs.Plan.{Laid, privates_at, reach_in};
ghost use Rattle.places.specs.Reaches.{common_reach};
ghost use Rattle.places.specs.Sides.{side_in, side_at, receive_words, receives_of};
ghost use Rattle.places.specs.Answers.{sums_of};
ghost use Rattle.places.specs.Sets.{bit_at};
ghost use Rattle.places.specs.Inner.Plan.{read_names_word};
ghost use Rattle.places.specs.Inner.Counting.{Few, add_times, add_both, over};
ghost use Rattle.places.specs.Inner.Counting.{value_sums, release_sums, copy_sums, silent_sums, node_sums};
ghost use Rattle.places.specs.Inner.Counting.{pair_sums, set_sums, send_sums, all_sums, Sends, Pairs};

use crate::layout::reading_names;
use crate::lookup::{node_start, privates};
use crate::pairs::SETS;
use crate::reach::{Reach, common, has_privates, public_word, rank, reach_of, restricted_word};
use crate::sets::Bits;
use lists::{store, word};
use scheme::fields::{field1, field3, field4};
use scheme::lookup::{branch_thread, held_names, home};

// The transitions of a net, their inputs and their outputs.
#[derive(Clone, Copy)]
pub struct Totals {
    pub transitions: usize,
    pub inputs: usize,
    pub outputs: usize,
}

// `times` transitions with the same numbers of arcs more.
fn more(t: Totals, times: usize, inputs: usize, outputs: usize) -> Totals
    requires { Few (add_times (sums_of t) times inputs outputs) }
    ensures { sums_of result ≡ add_times (sums_of t) times inputs outputs }
{
    Totals {
        transitions: t.transitions + times,
        inputs: t.inputs + times * inputs,
        outputs: t.outputs + times * outputs,
    }
}

// `publics` transitions more, and `privates` more with `arcs` inputs and as many outputs.
fn more_of_both(
    t: Totals,
    publics: usize,
    inputs: usize,
    outputs: usize,
    privates: usize,
    arcs: usize,
) -> Totals
    requires { Few (add_both (sums_of t) publics inputs outputs privates arcs) }
    ensures { sums_of result ≡ add_both (sums_of t) publics inputs outputs privates arcs }
{
    more(more(t, publics, inputs, outputs), privates, arcs, arcs)
}

// How many public values a name has whose reach is given.
pub fn publics_of(table: &[u16], values: Reach) -> usize
    ensures { (result ≡ length (keep (bit_at values.publics) (range (publics table.now)))) × (result ≤ 64) }
{
    rank(values.publics, word(table, 0))
}

// How many private ones.
pub fn privates_of(index: &[u32], values: Reach) -> usize
    ensures { result ≡ pick (not (same values.restricted 0)) (word index.now privates_at) 0 }
{
    if has_privates(values) {
        privates(index)
    } else {
        0
    }
}

// A transition more for each value of a name.
fn for_values(
    table: &[u16],
    index: &[u32],
    t: Totals,
    name: usize,
    inputs: usize,
    outputs: usize,
    arcs: usize,
) -> Totals
    requires { Laid table.now index.now × Few (value_sums table.now (sums_of t) name inputs outputs arcs) }
    ensures { sums_of result ≡ value_sums table.now (sums_of t) name inputs outputs arcs }
{
    let values = reach_of(index, name);
    let publics = publics_of(table, values);
    let privates = privates_of(index, values);
    more_of_both(t, publics, inputs, outputs, privates, arcs)
}

// The releases of names.
fn releases(table: &[u16], index: &[u32], t: Totals, names: &[u32]) -> Totals
    requires { Laid table.now index.now × Few (over (release_sums table.now) (sums_of t) names.now) }
    ensures { sums_of result ≡ over (release_sums table.now) (sums_of t) names.now }
{
    let mut r = t;
    for &name in names {
        r = for_values(table, index, r, name as usize, 2, 1, 2);
    }
    r
}

// The copies of arguments.
fn copies(table: &[u16], index: &[u32], t: Totals, first: usize, end: usize) -> Totals
    requires { Laid table.now index.now
        × Few (over (copy_sums table.now) (sums_of t) (map (argument table.now) (from first (end - first)))) }
    ensures { sums_of result
        ≡ over (copy_sums table.now) (sums_of t)
        (map (argument table.now) (from first (end - first))) }
{
    let mut r = t;
    for i in first..end {
        let name = field1(table, 12, i);
        let read = bound(table, name);
        r = for_values(table, index, r, name, read + 1, read + 2, read + 2);
    }
    r
}

fn silents(table: &[u16], t: Totals, first: usize, end: usize) -> Totals
    requires { (end < 131072)
        × Few (over (silent_sums table.now) (sums_of t) (from first (end - first))) }
    ensures { sums_of result ≡ over (silent_sums table.now) (sums_of t) (from first (end - first)) }
{
    let mut r = t;
    for b in first..end {
        if field4(table, 11, b, 0) == 0 {
            r = more(r, 1, 1, 1);
        }
    }
    r
}

fn node(table: &[u16], index: &[u32], read: usize, t: Totals, n: usize) -> Totals
    requires { Laid table.now index.now × (read ≡ read_names_word table.now) × (n < nodes table.now)
        × Few (node_sums table.now (sums_of t) n) }
    ensures { sums_of result ≡ node_sums table.now (sums_of t) n }
{
    let kind = field3(table, 10, n, 0);
    let first = field3(table, 10, n, 1);
    let second = field3(table, 10, n, 2);
    if kind == 1 {
        return silents(table, t, first, first + second);
    }
    if kind == 2 {
        return more(t, privates(index), read + 2, read + 2);
    }
    let mut names = [0u32; 64];
    let held = held_names(table, index, n as u8, &mut names);
    let mut r = t;
    if kind != 0 {
        let end = second + field4(table, 8, first, 3);
        r = copies(table, index, more(t, 1, 1, 1), second, end);
    }
    releases(table, index, r, &names[..held])
}

// 1 for a bound name, 0 for a public one.
fn bound(table: &[u16], name: usize) -> usize
    ensures { result ≡ bit (not (nat_lt name (publics table.now))) }
{
    usize::from(word(table, 0) <= name)
}

// One side of a communication: the branch, its thread, its channel, the name that it sends or binds, and the places
// before and after it.
#[derive(Clone, Copy)]
pub struct Side {
    pub branch: u32,
    pub thread: u32,
    pub channel: u32,
    pub name: u32,
    pub place: u32,
    pub on: u32,
}

// What a plan tells of a branch.
pub fn side_of(table: &[u16], index: &[u32], branch: u32) -> Side
    ensures { result ≡ side_in table.now index.now branch }
{
    let b = branch as usize;
    Side {
        branch,
        thread: branch_thread(table, index, b) as u32,
        channel: field4(table, 11, b, 1) as u32,
        name: field4(table, 11, b, 2) as u32,
        place: node_start(index, home(index, b)) as u32,
        on: node_start(index, field4(table, 11, b, 3)) as u32,
    }
}

// Enters a receive: what is told of it, and the reach of its channel.
fn enter(table: &[u16], index: &[u32], list: &mut [u32], at: usize, receive: u32)
    requires { at < 4294967296 }
    ensures { list.new
        ≡ sets list.old at (receive_words table.now index.now receive) }
{
    let s = side_of(table, index, receive);
    let e = s.channel as usize;
    store(list, at, receive);
    store(list, at + 1, s.thread);
    store(list, at + 2, public_word(index, e) as u32);
    store(list, at + 3, restricted_word(index, e) as u32);
    store(list, at + 4, s.channel);
    store(list, at + 5, s.name);
    store(list, at + 6, s.place);
    store(list, at + 7, s.on);
}

// The receives of a table in eight words each, as far as the list reaches, and how many there are.
pub(crate) fn receives(table: &[u16], index: &[u32], list: &mut [u32]) -> usize
    ensures { (result ≡ length (receives_of table.now))
        × (list.new ≡ sets list.old 0
        (flat (receive_words table.now index.now) (receives_of table.now))) }
{
    let branches = word(table, 5);
    let mut count = 0;
    for b in 0..branches {
        if field4(table, 11, b, 0) == 2 {
            enter(table, index, list, 8 * count, b as u32);
            count += 1;
        }
    }
    count
}

// Receive k of such a list.
pub fn receive_at(receives: &[u32], k: u16) -> Side
    ensures { result ≡ side_at receives.now k }
{
    let at = 8 * (k as usize);
    Side {
        branch: word(receives, at) as u32,
        thread: word(receives, at + 1) as u32,
        channel: word(receives, at + 4) as u32,
        name: word(receives, at + 5) as u32,
        place: word(receives, at + 6) as u32,
        on: word(receives, at + 7) as u32,
    }
}

// What the communications of a send share: the branch, its thread, its channel, the sent name, the reach of the
// channel, 1 for a bound channel, 1 for a bound sent name, and how many public and private values are sent.
#[derive(Clone, Copy)]
pub struct Sending {
    pub branch: u32,
    pub thread: u32,
    pub channel: usize,
    pub name: usize,
    pub values: Reach,
    pub channels: usize,
    pub names: usize,
    pub publics: usize,
    pub privates: usize,
}

fn sender(table: &[u16], index: &[u32], send: u32) -> Sending
    requires { Laid table.now index.now }
    ensures { Sends table.now index.now send result }
{
    let b = send as usize;
    let channel = field4(table, 11, b, 1);
    let name = field4(table, 11, b, 2);
    let sent = reach_of(index, name);
    Sending {
        branch: send,
        thread: branch_thread(table, index, b) as u32,
        channel,
        name,
        values: reach_of(index, channel),
        channels: bound(table, channel),
        names: bound(table, name),
        publics: publics_of(table, sent),
        privates: privates_of(index, sent),
    }
}

// The communications of a send and a receive, whose channels have a common reach.
fn pair(table: &[u16], index: &[u32], t: Totals, s: Sending, r: Side, i: Reach) -> Totals
    requires { Laid table.now index.now × Sends table.now index.now s.branch s
        × (r.channel ≡ channel table.now r.branch)
        × (i ≡ common_reach (reach_in index.now (channel table.now s.branch))
        (reach_in index.now (channel table.now r.branch)))
        × Few (pair_sums table.now s.branch (sums_of t) r.branch) }
    ensures { sums_of result ≡ pair_sums table.now s.branch (sums_of t) r.branch }
{
    let channels = s.channels + bound(table, r.channel as usize);
    let publics = publics_of(table, i);
    let privates = privates_of(index, i);
    if s.name == s.channel {
        return more_of_both(
            t,
            publics,
            channels + 2,
            channels + 3,
            privates,
            channels + 3,
        );
    }
    let arcs = channels + s.names;
    let all = publics + privates;
    more_of_both(
        t,
        all * s.publics,
        arcs + 2,
        arcs + 3,
        all * s.privates,
        arcs + 3,
    )
}

// The communications of a send with the receives of a set.
fn partners(table: &[u16], index: &[u32], t: Totals, send: u32, set: u64, pairs: &[u32]) -> Totals
    requires { Laid table.now index.now × Pairs table.now index.now pairs.now
        × (set < 2 ^ length (receives_of table.now)) × Few (set_sums table.now send (sums_of t) set) }
    ensures { sums_of result ≡ set_sums table.now send (sums_of t) set }
{
    let s = sender(table, index, send);
    let mut q = t;
    for k in Bits(set) {
        let r = receive_at(pairs, k as u16);
        let i = common(s.values, reach_of(index, r.channel as usize));
        q = pair(table, index, q, s, r, i);
    }
    q
}

// The transitions of nodes.
fn of_nodes(table: &[u16], index: &[u32], t: Totals) -> Totals
    requires { Laid table.now index.now
        × Few (over (node_sums table.now) (sums_of t) (range (nodes table.now))) }
    ensures { sums_of result
        ≡ over (node_sums table.now) (sums_of t) (range (nodes table.now)) }
{
    let nodes = word(table, 4);
    let read = reading_names(table, index);
    let mut q = t;
    for n in 0..nodes {
        q = node(table, index, read, q, n);
    }
    q
}

// The communications.
fn of_sends(table: &[u16], index: &[u32], t: Totals, pairs: &[u32]) -> Totals
    requires { Laid table.now index.now × Pairs table.now index.now pairs.now
        × Few (over (send_sums table.now) (sums_of t) (range (branches table.now))) }
    ensures { sums_of result
        ≡ over (send_sums table.now) (sums_of t) (range (branches table.now)) }
{
    let branches = word(table, 5);
    let mut q = t;
    for s in 0..branches {
        let set = word(pairs, SETS + s) as u64;
        if set != 0 {
            q = partners(table, index, q, s as u32, set, pairs);
        }
    }
    q
}

pub(crate) fn totals_of(table: &[u16], index: &[u32], pairs: &[u32]) -> Totals
    requires { Laid table.now index.now × Pairs table.now index.now pairs.now
        × Few (all_sums table.now) }
    ensures { sums_of result ≡ all_sums table.now }
{
    let none = Totals {
        transitions: 0,
        inputs: 0,
        outputs: 0,
    };
    let t = of_nodes(table, index, none);
    of_sends(table, index, t, pairs)
}
