// The least reaches of names, as sets in 64-bit words that are changed in place, by rounds until one brings nothing.
ghost use Rattle.std.specs.Prelude.{◌≡◌, ◌+◌, ◌/◌, ◌%◌, ◌^◌, ◌<◌, ◌≤◌, ◌&&◌, map, length, replicate};
ghost use Rattle.std.proofs.lemmas.List.Edits.{sets};
ghost use Rattle.lists.specs.Lists.{same, word, from, range};
ghost use Rattle.scheme.specs.Words.{names, nodes, branches};
ghost use Rattle.scheme.specs.Scheme.{scheme};
ghost use Rattle.table.specs.Causes.{cause};
ghost use Rattle.table.specs.Known.{Known};
ghost use Rattle.places.specs.Plan.{publics_at, restricted_at, plan_end, public_words, restricted_words};
ghost use Rattle.places.specs.Reach.{is_source_name, passes, passes_at, is_passed};
ghost use Rattle.places.specs.Sets.{bit_at};
ghost use Rattle.places.specs.Inner.Sets.{in_set, Gathers, EmptyFrom, Adds, Joined, Grown};
ghost use Rattle.places.specs.Inner.Sets.{hears_at, said_at, is_said};
ghost use Rattle.places.specs.Inner.Sets.{Start, Found, Ears, Heard, Round};
ghost use Rattle.places.specs.Inner.Plan.{argument_name};

use crate::lookup::{PUBLICS, RESTRICTED};
use crate::sets::Bits;
use lists::{store, word};
use scheme::fields::{field1, field3, field4, name_kind};
use scheme::lookup::branch_thread;

// Word i of a list of 64-bit words, 0 past its end.
pub(crate) fn word64(words: &[u64], i: usize) -> u64
    ensures { result ≡ word words.now i }
{
    words.get(i).copied().unwrap_or(0)
}

// Joins a set to set x, and returns whether that brings something.
pub(crate) fn join(words: &mut [u64], x: usize, a: u64) -> bool
    ensures { Joined words.old words.new result (λ y o. same x y && bit_at a o) }
{
    if words.len() <= x {
        return false;
    }
    let b = words[x];
    let c = b | a;
    words[x] = c;
    c != b
}

// The sets whose numbers are in a set, joined.
pub(crate) fn gather(words: &[u64], set: u64) -> u64
    ensures { Gathers words.now set result }
{
    let mut all = 0u64;
    for x in Bits(set) {
        all |= word64(words, x);
    }
    all
}

// Joins a set to the sets whose numbers are in a set, and returns whether that brings something.
pub(crate) fn spread(words: &mut [u64], set: u64, a: u64) -> bool
    ensures { Joined words.old words.new result (λ y o. bit_at set y && bit_at a o) }
{
    let mut grew = false;
    for x in Bits(set) {
        grew |= join(words, x, a);
    }
    grew
}

// Whether a name is public or restricted.
fn is_source(table: &[u16], name: usize) -> bool
    requires { name < names table.now }
    ensures { result ≡ is_source_name (scheme table.now) name }
{
    name < word(table, 0) || name_kind(table, name) == 0
}

// Every public and restricted name comes to itself.
fn own(table: &[u16], words: &mut [u64])
    requires { (cause table.now ≡ 0) × (words.old ≡ replicate 64 0) }
    ensures { Start (scheme table.now) words.new }
{
    let end = word(table, 0) + word(table, 1);
    for x in 0..end {
        if is_source(table, x) {
            words[x] = 1u64 << x;
        }
    }
}

// Notes the name that a receive binds at each value of its channel, and at its thread.
fn listen(table: &[u16], index: &[u32], words: &[u64], ears: &mut [u64], r: usize)
    requires { Known table.now index.now × (r < branches table.now) }
    ensures { Adds ears.old ears.new (λ k y.
        hears_at (scheme table.now) (in_set words.now) k y r
        ((scheme table.now).branch r)) }
{
    if field4(table, 11, r, 0) != 2 {
        return;
    }
    let e = word64(words, field4(table, 11, r, 1));
    let y = 1u64 << field4(table, 11, r, 2);
    spread(ears, e, y);
    join(ears, 64 + branch_thread(table, index, r), y);
}

// Notes what all receives hear.
fn listen_all(table: &[u16], index: &[u32], words: &[u64], ears: &mut [u64])
    requires { Known table.now index.now × Ears (scheme table.now) words.now ears.old }
    ensures { Heard (scheme table.now) words.now ears.new }
{
    let branches = word(table, 5);
    for r in 0..branches {
        listen(table, index, words, ears, r);
    }
}

// What a send brings: its name's reach, to the names of other threads that hear a value of its channel.
fn say(table: &[u16], index: &[u32], ears: &[u64], words: &mut [u64], s: usize) -> bool
    requires { Known table.now index.now × (s < branches table.now) }
    ensures { Grown words.old words.new result (λ R x o.
        said_at (scheme table.now) ears.now R x o s ((scheme table.now).branch s)) }
{
    if field4(table, 11, s, 0) != 1 {
        return false;
    }
    let a = word64(words, field4(table, 11, s, 1));
    let z = word64(words, field4(table, 11, s, 2));
    let all = gather(ears, a);
    let own = word64(ears, 64 + branch_thread(table, index, s));
    spread(words, all ^ (all & own), z)
}

// What all sends bring.
fn say_all(table: &[u16], index: &[u32], ears: &[u64], words: &mut [u64]) -> bool
    requires { Known table.now index.now }
    ensures { Grown words.old words.new result
        (is_said (scheme table.now) ears.now) }
{
    let branches = word(table, 5);
    let mut grew = false;
    for s in 0..branches {
        grew |= say(table, index, ears, words, s);
    }
    grew
}

// What `count` formals take in from their arguments.
fn pass(table: &[u16], words: &mut [u64], formal: usize, argument: usize, count: usize) -> bool
    requires { (formal < 65536) × (argument < 65536) × (count < 65536) }
    ensures { Grown words.old words.new result (λ R x o.
        passes (scheme table.now) R x o (from formal count)
        (map (argument_name table.now) (from argument count))) }
{
    let mut grew = false;
    for j in 0..count {
        let a = word64(words, field1(table, 12, argument + j));
        grew |= join(words, formal + j, a);
    }
    grew
}

// What the formals take in from a call.
fn call(table: &[u16], words: &mut [u64], n: usize) -> bool
    requires { (cause table.now ≡ 0) × (n < nodes table.now) }
    ensures { Grown words.old words.new result (λ R x o.
        passes_at (scheme table.now) R x o n ((scheme table.now).node n)) }
{
    if field3(table, 10, n, 0) != 3 {
        return false;
    }
    let d = field3(table, 10, n, 1);
    let formal = field4(table, 8, d, 2);
    let count = field4(table, 8, d, 3);
    let argument = field3(table, 10, n, 2);
    pass(table, words, formal, argument, count)
}

// What all calls bring.
fn call_all(table: &[u16], words: &mut [u64]) -> bool
    requires { cause table.now ≡ 0 }
    ensures { Grown words.old words.new result (is_passed (scheme table.now)) }
{
    if word(table, 6) == 0 {
        return false;
    }
    let nodes = word(table, 4);
    let mut grew = false;
    for n in 0..nodes {
        grew |= call(table, words, n);
    }
    grew
}

// One round: what comes to each name, given the sets so far, and whether that brings something.
fn round(table: &[u16], index: &[u32], words: &mut [u64], ears: &mut [u64]) -> bool
    requires { Known table.now index.now × Ears (scheme table.now) words.old ears.old
        × (length words.old ≡ 64) }
    ensures { Round (scheme table.now) words.old words.new result
        × Ears (scheme table.now) words.new ears.new }
{
    listen_all(table, index, words, ears);
    let said = say_all(table, index, ears, words);
    said | call_all(table, words)
}

// Makes the sets of public and restricted names the least reaches. `ears` is for work.
fn settle(table: &[u16], index: &[u32], words: &mut [u64], ears: &mut [u64])
    requires { Known table.now index.now × Start (scheme table.now) words.old
        × (ears.old ≡ replicate 72 0) }
    ensures { Found (scheme table.now) words.new }
{
    while round(table, index, words, ears) {}
}

// Writes `size` digits of each set, from digit `first` on, as 64 words from `at` on; the sets from n on are empty.
fn put_digits(words: &[u64], n: usize, first: usize, size: usize, at: usize, index: &mut [u32])
    requires { (n ≤ 64) × EmptyFrom n words.now × (first ≤ 32) × (size ≤ 32) × (at < 65536)
        × (at + 64 ≤ length index.old) }
    ensures { index.new
        ≡ sets index.old at (map (λ x. word words.now x / 2 ^ first % 2 ^ size) (range 64)) }
{
    let limit = 1u64 << size;
    for x in 0..n {
        store(index, at + x, ((word64(words, x) >> first) % limit) as u32);
    }
    index[at + n..at + 64].fill(0);
}

// Fills in the reaches of names behind the index.
pub(crate) fn fill_reaches(table: &[u16], index: &mut [u32])
    requires { Known table.now index.old × (plan_end ≤ length index.old) }
    ensures { index.new
        ≡ sets (sets index.old publics_at (public_words table.now))
        restricted_at (restricted_words table.now) }
{
    let publics = word(table, 0);
    let bounds = word(table, 1);
    let mut words = [0u64; 64];
    let mut ears = [0u64; 72];
    own(table, &mut words);
    settle(table, index, &mut words, &mut ears);
    put_digits(&words, publics + bounds, 0, publics, PUBLICS, index);
    put_digits(&words, publics + bounds, publics, bounds, RESTRICTED, index);
}
