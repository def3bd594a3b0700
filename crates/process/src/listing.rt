// The open steps of a state, listed as labels of three words.
//
// The sends and receives of the nodes where threads stand are gathered once, and only they are tried against each
// other.
ghost use Rattle.std.specs.Prelude.{◌≡◌, ◌+◌, ◌≤◌, ◌<◌, length};
ghost use Rattle.lists.specs.Lists.{from, range, flat};
ghost use Rattle.scheme.specs.Words.{nodes, branches};
ghost use Rattle.scheme.specs.Scheme.{scheme};
ghost use Rattle.process.specs.Labels.{label_of, open_labels};
ghost use Rattle.process.specs.StateWords.{state_of};
ghost use Rattle.process.specs.Inner.Codes.{meant, Labelled};
ghost use Rattle.process.specs.Inner.Listed.{Listed, far, near, silent_words, step_words, node_words, pair_words};
ghost use Rattle.process.specs.Inner.Listed.{pairs_words, meeting_words, list_words, standing};
ghost use Rattle.process.specs.Inner.Listed.{Fitted};

use crate::labels::{Pair, Step, can_meet, label_of, stands};
use crate::threads::{branch_is, node_is};
use lists::{store, word};
use scheme::fields::field3;
use table::known::Known;

// Writes the label of a step; where the next one goes.
fn write_label(table: &[u16], step: Step, at: usize, out: &mut [u32]) -> usize
    requires { Labelled (scheme table.now) (meant step) × (at < far) }
    ensures { Listed 3 (label_of (scheme table.now) (meant step)) out.old at
        out.new result }
{
    let label = label_of(table, step);
    store(out, at, label.kind);
    store(out, at + 1, label.a);
    store(out, at + 2, label.b);
    at + 3
}

fn list_branch(table: &[u16], branch: usize, at: usize, out: &mut [u32]) -> usize
    requires { (branch < 4294967296) × (at < far) }
    ensures { Listed 3 (silent_words (scheme table.now) branch) out.old at out.new
        result }
{
    if branch_is(table, branch, 0) {
        return write_label(table, Step::Silent(branch), at, out);
    }
    at
}

fn list_branches(table: &[u16], first: usize, count: usize, at: usize, out: &mut [u32]) -> usize
    requires { (first < 65536) × (count < 65536) × (at < near) }
    ensures { Listed 196608 (flat (silent_words (scheme table.now)) (from first count))
        out.old at out.new result }
{
    let end = first + count;
    let mut next = at;
    for b in first..end {
        next = list_branch(table, b, next, out);
    }
    next
}

// The steps of a node: those of a New or a Call, or the silent branches of a Choice.
fn list_steps(table: &[u16], node: usize, at: usize, out: &mut [u32]) -> usize
    requires { (node < 65536) × (at < near) }
    ensures { Listed 196608 (step_words (scheme table.now) node) out.old at
        out.new result }
{
    if node_is(table, node, 1) {
        return list_branches(
            table,
            field3(table, 10, node, 1),
            field3(table, 10, node, 2),
            at,
            out,
        );
    }
    if node_is(table, node, 2) {
        return write_label(table, Step::New(node), at, out);
    }
    if node_is(table, node, 3) {
        return write_label(table, Step::Call(node), at, out);
    }
    at
}

fn list_node(known: &Known, state: &[u16], node: usize, at: usize, out: &mut [u32]) -> usize
    requires { (node < 65536) × (at < near) }
    ensures { Listed 196608
        (node_words (scheme known.now.table.now) (state_of (scheme known.now.table.now) state.now) node)
        out.old at out.new result }
{
    if stands(known, state, node) {
        return list_steps(known.table, node, at, out);
    }
    at
}

fn list_nodes(known: &Known, state: &[u16], out: &mut [u32]) -> usize
    ensures { Listed 12884901888
        (flat (node_words (scheme known.now.table.now) (state_of (scheme known.now.table.now) state.now))
        (range (nodes known.now.table.now))) out.old 0 out.new result }
{
    let nodes = word(known.table, 4);
    let mut next = 0;
    for n in 0..nodes {
        next = list_node(known, state, n, next, out);
    }
    next
}

fn gather_branch(
    known: &Known,
    state: &[u16],
    kind: usize,
    branch: usize,
    at: usize,
    out: &mut [u32],
) -> usize
    requires { (branch < 65536) × (at < far) }
    ensures { Listed 1
        (standing known.now.table.now (state_of (scheme known.now.table.now) state.now) kind branch)
        out.old at out.new result }
{
    if branch_is(known.table, branch, kind) && stands(known, state, known.home(branch)) {
        store(out, at, branch as u32);
        return at + 1;
    }
    at
}

// The branches of a kind at nodes where threads stand.
fn gather(known: &Known, state: &[u16], kind: usize, out: &mut [u32]) -> usize
    ensures { Listed (branches known.now.table.now)
        (flat (standing known.now.table.now (state_of (scheme known.now.table.now) state.now) kind)
        (range (branches known.now.table.now))) out.old 0 out.new result }
{
    let branches = word(known.table, 5);
    let mut next = 0;
    for b in 0..branches {
        next = gather_branch(known, state, kind, b, next, out);
    }
    next
}

fn list_pair(
    known: &Known,
    state: &[u16],
    send: usize,
    receive: usize,
    at: usize,
    out: &mut [u32],
) -> usize
    requires { (send < 4294967296) × (receive < 4294967296)
        × (at < far) }
    ensures { Listed 3
        (pair_words (scheme known.now.table.now) (state_of (scheme known.now.table.now) state.now) send
        receive) out.old at out.new result }
{
    if can_meet(known, state, send, receive) {
        let pair = Pair { send, receive };
        return write_label(known.table, Step::Communicate(pair), at, out);
    }
    at
}

fn list_pairs(
    known: &Known,
    state: &[u16],
    send: usize,
    receives: &[u32],
    at: usize,
    out: &mut [u32],
) -> usize
    requires { (length receives.now ≤ 256) × (at < near) × (send < 4294967296) }
    ensures { Listed 768
        (pairs_words (scheme known.now.table.now) (state_of (scheme known.now.table.now) state.now)
        receives.now send) out.old at out.new result }
{
    let mut next = at;
    for &receive in receives {
        next = list_pair(known, state, send, receive as usize, next, out);
    }
    next
}

fn list_meetings(
    known: &Known,
    state: &[u16],
    sends: &[u32],
    receives: &[u32],
    at: usize,
    out: &mut [u32],
) -> usize
    requires { (length sends.now ≤ 256) × (length receives.now ≤ 256) × (at ≤ 12884901888) }
    ensures { Listed 196608
        (meeting_words (scheme known.now.table.now) (state_of (scheme known.now.table.now) state.now)
        sends.now receives.now) out.old at out.new result }
{
    let mut next = at;
    for &send in sends {
        next = list_pairs(known, state, send as usize, receives, next, out);
    }
    next
}

// The labels of all open steps, by node, then by send and receive; how many words they have.
fn list(known: &Known, state: &[u16], sends: &[u32], receives: &[u32], out: &mut [u32]) -> usize
    requires { (length sends.now ≤ 256) × (length receives.now ≤ 256) }
    ensures { Listed 12885098496
        (list_words (scheme known.now.table.now) (state_of (scheme known.now.table.now) state.now)
        sends.now receives.now) out.old 0 out.new result }
{
    let at = list_nodes(known, state, out);
    list_meetings(known, state, sends, receives, at, out)
}

// How many words the labels of all open steps have.
fn count(known: &Known, state: &[u16], sends: &[u32], receives: &[u32]) -> usize
    requires { (length sends.now ≤ 256) × (length receives.now ≤ 256) }
    ensures { result ≡ length
        (list_words (scheme known.now.table.now) (state_of (scheme known.now.table.now) state.now)
        sends.now receives.now) }
{
    let mut none = [0u32; 1];
    list(known, state, sends, receives, &mut none)
}

// Writes the labels of all open steps if there is room for them; how many words they have.
pub(crate) fn list_open(known: &Known, state: &[u16], labels: &mut [u32]) -> usize
    ensures { Fitted
        (open_labels (scheme known.now.table.now) (state_of (scheme known.now.table.now) state.now))
        labels.old labels.new result }
{
    let mut sent = [0u32; 256];
    let mut received = [0u32; 256];
    let s = gather(known, state, 1, &mut sent);
    let r = gather(known, state, 2, &mut received);
    let sends = &sent[..s];
    let receives = &received[..r];
    let size = count(known, state, sends, receives);
    if labels.len() < size {
        return size;
    }
    list(known, state, sends, receives, labels)
}
