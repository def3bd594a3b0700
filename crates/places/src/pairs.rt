// Which receives each send can meet.
ghost use Rattle.std.specs.Prelude.{◌≡◌, ◌+◌, ◌*◌, ◌^◌, ◌<◌, ◌≤◌, ◌&&◌, length, replicate};
ghost use Rattle.lists.specs.Lists.{same, word};
ghost use Rattle.scheme.specs.Index.{branch_thread_at};
ghost use Rattle.scheme.specs.Words.{channel};
ghost use Rattle.places.specs.Plan.{Laid, reach_in};
ghost use Rattle.places.specs.Sides.{heard_at, receives_of, partner_set, pairs_end, pair_words};
ghost use Rattle.places.specs.Inner.Sets.{Adds};
ghost use Rattle.places.specs.Inner.Meeting.{is_noted, Noted};

use crate::count::receives;
use crate::reach::{public_word, restricted_word};
use crate::rounds::{gather, join, spread, word64};
use lists::{store, word};
use scheme::fields::field4;
use scheme::lookup::branch_thread;

// Where the sets of branches begin in the list of pairs, and its size; the receives begin at 0.
pub const SETS: usize = 256;

pub const PAIRS: usize = 512;

// The values of a channel as one set: the public names, and from 32 on the restricted ones.
fn values_of(publics: u32, restricted: u32) -> u64
    ensures { result ≡ restricted * 2 ^ 32 + publics }
{
    publics as u64 | ((restricted as u64) << 32)
}

// Notes receive k of the list at each value of its channel, and at its thread.
fn note(list: &[u32], words: &mut [u64], k: usize)
    requires { k < 64 }
    ensures { Adds words.old words.new (λ x o.
        is_noted (heard_at list.now k) (word list.now (8 * k + 1)) x && same k o) }
{
    let at = 8 * k;
    let e = values_of(word(list, at + 2) as u32, word(list, at + 3) as u32);
    let bit = 1u64 << k;
    spread(words, e, bit);
    join(words, 64 + word(list, at + 1), bit);
}

// Notes all receives of the list.
fn note_all(list: &[u32], count: usize, words: &mut [u64])
    requires { (count ≤ 32) × (words.old ≡ replicate 72 0) }
    ensures { Noted (heard_at list.now) (λ k. word list.now (8 * k + 1)) count
        words.new }
{
    for k in 0..count {
        note(list, words, k);
    }
}

// The receives that a branch can meet: those noted at a value of its channel, save those of its thread; none for a
// branch that does not send.
fn set_of(table: &[u16], index: &[u32], words: &[u64], b: usize) -> u64
    requires { Laid table.now index.now
        × Noted (λ k. reach_in index.now (channel table.now (word (receives_of table.now) k)))
        (λ k. branch_thread_at table.now index.now (word (receives_of table.now) k))
        (length (receives_of table.now)) words.now }
    ensures { result ≡ partner_set table.now index.now b }
{
    if field4(table, 11, b, 0) != 1 {
        return 0;
    }
    let a = field4(table, 11, b, 1);
    let values = values_of(
        public_word(index, a) as u32,
        restricted_word(index, a) as u32,
    );
    let all = gather(words, values);
    let own = word64(words, 64 + branch_thread(table, index, b));
    all ^ (all & own)
}

// Fills in the receives, and the receives that each branch can meet.
pub(crate) fn fill_pairs(table: &[u16], index: &[u32], pairs: &mut [u32])
    requires { Laid table.now index.now × (pairs_end ≤ length pairs.old) }
    ensures { pairs.new ≡ pair_words table.now index.now pairs.old }
{
    let count = receives(table, index, pairs);
    let mut words = [0u64; 72];
    note_all(pairs, count, &mut words);
    let branches = word(table, 5);
    for b in 0..branches {
        let set = set_of(table, index, &words, b);
        store(pairs, SETS + b, set as u32);
    }
}
