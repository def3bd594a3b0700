// The words of the rewritten table: a node, the copies of each section, the words that stay, and the header.
ghost use Rattle.std.specs.Prelude.{◌≡◌, [], ◌∷◌, map, ◌+◌, ◌≤◌, ◌<◌, length};
ghost use Rattle.std.specs.List.{AllByRecursion};
ghost use Rattle.std.proofs.lemmas.List.Edits.{sets};
ghost use Rattle.lists.specs.Lists.{word, from, range, flat};
ghost use Rattle.scheme.specs.Words.{Number, nodes};
ghost use Rattle.scheme.specs.Index.{IsIndex, definitions_in};
ghost use Rattle.process.specs.Inner.Listed.{Listed, far, near};
ghost use Rattle.rewriting.specs.Rewriting.{node_words, definition_copy, node_copy, branch_copy, node_part};
ghost use Rattle.rewriting.specs.Rewriting.{rewritten};
ghost use Rattle.rewriting.specs.Inner.Copying.{Rows, originals_in};
ghost use Rattle.rewriting.specs.Inner.Counting.{Small, header_with, size_with};
ghost use Rattle.rewriting.specs.Inner.Placing.{Placing};
ghost use Rattle.rewriting.specs.Inner.Writing.{target_in, copied_formal_of, copied_first_of, copied_second_of, copied_use_of};
ghost use Rattle.rewriting.specs.Inner.Writing.{copy_words, Writable, Counted, Front, Back};
ghost use Rattle.rewriting.specs.Inner.Writing.{front_words, back_words};

use crate::copies::{Counts, Part, calls_itself, originals};
use crate::numbering::{copied, copy_name, number_copies};
use lists::{store, word};
use scheme::fields::{field1, field3, field4, name_kind};
use scheme::spans::{Source, span_count};

// Writes a few words; where the next one goes.
fn write_all<const N: usize>(out: &mut [u16], at: usize, words: [usize; N]) -> usize
    requires { (at < far) × (N ≤ 4) × AllByRecursion (λ w. w < 65536) words }
    ensures { Listed 4 words.entry out.old at out.new result }
{
    let mut next = at;
    for word in words {
        store(out, next, word as u16);
        next += 1;
    }
    next
}

// The second word of a node, or of its copy: a self-call of the original goes to the copy, one of the copy to the
// original.
fn target_of(table: &[u16], index: &[u32], places: &[u32], node: usize, copy: bool) -> usize
    requires { Placing table.now places.now }
    ensures { Number (target_in table.now (definitions_in index.now) copy node) result }
{
    let first = field3(table, 10, node, 1);
    if copy {
        return first;
    }
    if calls_itself(table, index, node) {
        return copied(table, places, Part::Definitions, first);
    }
    first
}

fn write_node(
    table: &[u16],
    index: &[u32],
    places: &[u32],
    node: usize,
    at: usize,
    out: &mut [u16],
) -> usize
    requires { Writable table.now index.now places.now × (node < nodes table.now) × (at < far) }
    ensures { Listed 4 (node_words table.now node) out.old at out.new result }
{
    let kind = field3(table, 10, node, 0);
    let first = target_of(table, index, places, node, false);
    write_all(out, at, [kind, first, field3(table, 10, node, 2)])
}

// Writes the nodes that were there.
fn write_nodes(table: &[u16], index: &[u32], places: &[u32], at: usize, out: &mut [u16]) -> usize
    requires { Writable table.now index.now places.now × (at < near) }
    ensures { Listed 262144 (flat (node_words table.now) (range (nodes table.now)))
        out.old at out.new result }
{
    let nodes = word(table, 4);
    let mut next = at;
    for n in 0..nodes {
        next = write_node(table, index, places, n, next, out);
    }
    next
}

// The first formal of a definition's copy, 0 where there are none.
fn copied_formal(table: &[u16], places: &[u32], definition: usize) -> usize
    requires { Placing table.now places.now }
    ensures { Number (copied_formal_of table.now definition) result }
{
    if field4(table, 8, definition, 3) == 0 {
        return 0;
    }
    copy_name(table, places, field4(table, 8, definition, 2))
}

// The second word of a node's copy: a branch of a Choice, a name of a New, the definition called.
fn copied_first(table: &[u16], index: &[u32], places: &[u32], node: usize) -> usize
    requires { Placing table.now places.now }
    ensures { Number (copied_first_of table.now node) result }
{
    let kind = field3(table, 10, node, 0);
    if kind == 1 {
        return copied(table, places, Part::Branches, field3(table, 10, node, 1));
    }
    if kind == 2 {
        return copy_name(table, places, field3(table, 10, node, 1));
    }
    target_of(table, index, places, node, true)
}

// The third word of a node's copy: a child of a New, the first argument of a Call that has any.
fn copied_second(table: &[u16], places: &[u32], node: usize) -> usize
    requires { Placing table.now places.now }
    ensures { Number (copied_second_of table.now node) result }
{
    let second = field3(table, 10, node, 2);
    if field3(table, 10, node, 0) == 2 {
        return copied(table, places, Part::Nodes, second);
    }
    if span_count(table, Source::Arguments, node) == 0 {
        return second;
    }
    copied(table, places, Part::Arguments, second)
}

// A name that a branch's copy uses; a silent one uses none.
#[tactic(auto, unfolding(crate::specs::Inner::Writing::copied_use_of, lists::specs::Lists::same))]
fn copied_use(table: &[u16], places: &[u32], branch: usize, name: usize) -> usize
    requires { Placing table.now places.now × (name < 65536) }
    ensures { Number (copied_use_of table.now branch name) result }
{
    if field4(table, 11, branch, 0) == 0 {
        return name;
    }
    copy_name(table, places, name)
}

fn write_definition(table: &[u16], places: &[u32], i: usize, at: usize, out: &mut [u16]) -> usize
    requires { Placing table.now places.now × (at < far) }
    ensures { Listed 4 (definition_copy table.now i) out.old at out.new result }
{
    let thread = field4(table, 8, i, 0);
    let root = copied(table, places, Part::Nodes, field4(table, 8, i, 1));
    let formal = copied_formal(table, places, i);
    write_all(out, at, [thread, root, formal, field4(table, 8, i, 3)])
}

fn write_copied_node(
    table: &[u16],
    index: &[u32],
    places: &[u32],
    i: usize,
    at: usize,
    out: &mut [u16],
) -> usize
    requires { Placing table.now places.now × (at < far) }
    ensures { Listed 4 (node_copy table.now i) out.old at out.new result }
{
    let first = copied_first(table, index, places, i);
    let second = copied_second(table, places, i);
    write_all(out, at, [field3(table, 10, i, 0), first, second])
}

fn write_branch(table: &[u16], places: &[u32], i: usize, at: usize, out: &mut [u16]) -> usize
    requires { Placing table.now places.now × (at < far) }
    ensures { Listed 4 (branch_copy table.now i) out.old at out.new result }
{
    let channel = copied_use(table, places, i, field4(table, 11, i, 1));
    let name = copied_use(table, places, i, field4(table, 11, i, 2));
    let next = copied(table, places, Part::Nodes, field4(table, 11, i, 3));
    write_all(out, at, [field4(table, 11, i, 0), channel, name, next])
}

// Writes the copy of entry i of a section.
fn write_copy(
    table: &[u16],
    part: Part,
    index: &[u32],
    places: &[u32],
    i: usize,
    at: usize,
    out: &mut [u16],
) -> usize
    requires { Placing table.now places.now × (at < far) }
    ensures { Listed 4 (copy_words table.now part i) out.old at out.new result }
{
    match part {
        Part::Names => write_all(out, at, [name_kind(table, i)]),
        Part::Definitions => write_definition(table, places, i, at, out),
        Part::Nodes => write_copied_node(table, index, places, i, at, out),
        Part::Branches => write_branch(table, places, i, at, out),
        Part::Arguments => write_all(out, at, [copy_name(table, places, field1(table, 12, i))]),
    }
}

// Writes the copies of a section.
fn write_copies(
    table: &[u16],
    part: Part,
    list: &[u32],
    copies: Counts,
    index: &[u32],
    places: &[u32],
    at: usize,
    out: &mut [u16],
) -> usize
    requires { Placing table.now places.now × Rows table.now list.now copies × (at < near) }
    ensures { Listed 1024 (flat (copy_words table.now part) (originals_in list.now copies part))
        out.old at out.new result }
{
    let originals = originals(list, copies, part);
    let mut next = at;
    for &i in originals {
        next = write_copy(table, part, index, places, i as usize, next, out);
    }
    next
}

// Writes `count` words of the table from `first` on.
fn write_words(table: &[u16], first: usize, count: usize, at: usize, out: &mut [u16]) -> usize
    requires { (first < 65536) × (count ≤ 262144) × (at < near) }
    ensures { Listed 262144 (map (word table.now) (from first count)) out.old at
        out.new result }
{
    for i in 0..count {
        store(out, at + i, word(table, first + i) as u16);
    }
    at + count
}

// Writes the header: the counts, then the offsets that they give.
fn write_header(table: &[u16], counts: Counts, out: &mut [u16]) -> usize
    requires { Small table.now counts }
    ensures { Listed 13 (header_with table.now counts) out.old 0 out.new result }
{
    let threads = word(table, 3);
    let definitions_at = 13 + counts.names;
    let threads_at = definitions_at + 4 * counts.definitions;
    let nodes_at = threads_at + threads;
    let branches_at = nodes_at + 3 * counts.nodes;
    let arguments_at = branches_at + 4 * counts.branches;
    let publics = word(table, 0);
    let mut at = write_all(out, 0, [publics, counts.names, counts.definitions, threads]);
    at = write_all(out, at, [counts.nodes, counts.branches, counts.arguments]);
    at = write_all(out, at, [13, definitions_at, threads_at]);
    write_all(out, at, [nodes_at, branches_at, arguments_at])
}

// How many words the header's counts give.
pub(crate) fn size(table: &[u16], counts: Counts) -> usize
    requires { Small table.now counts }
    ensures { result ≡ size_with table.now counts }
{
    let names = 13 + counts.names;
    let threads = names + 4 * counts.definitions + word(table, 3);
    threads + 3 * counts.nodes + 4 * counts.branches + counts.arguments
}

// Writes the header, the names, the definitions and the threads.
fn write_front(
    table: &[u16],
    index: &[u32],
    list: &[u32],
    copies: Counts,
    counts: Counts,
    places: &[u32],
    out: &mut [u16],
) -> usize
    requires { Front table.now list.now copies counts places.now }
    ensures { Listed 1048576 (front_words table.now) out.old 0 out.new result }
{
    let mut at = write_header(table, counts, out);
    at = write_words(table, word(table, 7), word(table, 1), at, out);
    at = write_copies(table, Part::Names, list, copies, index, places, at, out);
    at = write_words(table, word(table, 8), 4 * word(table, 2), at, out);
    at = write_copies(
        table,
        Part::Definitions,
        list,
        copies,
        index,
        places,
        at,
        out,
    );
    write_words(table, word(table, 9), word(table, 3), at, out)
}

// Writes the nodes.
fn write_bodies(
    table: &[u16],
    index: &[u32],
    list: &[u32],
    copies: Counts,
    places: &[u32],
    start: usize,
    out: &mut [u16],
) -> usize
    requires { Back table.now index.now list.now copies places.now × (start ≤ 1048576) }
    ensures { Listed 263168 (node_part table.now) out.old start out.new result }
{
    let at = write_nodes(table, index, places, start, out);
    write_copies(table, Part::Nodes, list, copies, index, places, at, out)
}

// Writes the branches and the arguments.
fn write_back(
    table: &[u16],
    index: &[u32],
    list: &[u32],
    copies: Counts,
    places: &[u32],
    start: usize,
    out: &mut [u16],
) -> usize
    requires { Back table.now index.now list.now copies places.now × (start ≤ 1311744) }
    ensures { Listed 1048576 (back_words table.now) out.old start out.new result }
{
    let mut at = write_words(table, word(table, 11), 4 * word(table, 5), start, out);
    at = write_copies(table, Part::Branches, list, copies, index, places, at, out);
    at = write_words(table, word(table, 12), word(table, 6), at, out);
    write_copies(table, Part::Arguments, list, copies, index, places, at, out)
}

// Writes the rewritten table.
pub(crate) fn write_table(
    table: &[u16],
    index: &[u32],
    list: &[u32],
    copies: Counts,
    counts: Counts,
    out: &mut [u16],
)
    requires { IsIndex table.now index.now × Counted table.now list.now copies counts }
    ensures { out.new ≡ sets out.old 0 (rewritten table.now) }
{
    let mut places = [0u32; 1285];
    number_copies(list, copies, &mut places);
    let mut at = write_front(table, index, list, copies, counts, &places, out);
    at = write_bodies(table, index, list, copies, &places, at, out);
    write_back(table, index, list, copies, &places, at, out);
}
