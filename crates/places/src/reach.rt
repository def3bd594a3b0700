// The reach of a name: the public names in it, and the restricted ones, which stand for all private values.
ghost use Rattle.std.specs.Prelude.{◌≡◌, ◌<◌, ◌≤◌, not, length};
ghost use Rattle.lists.specs.Lists.{Word, word, same, range, keep};
ghost use Rattle.places.specs.Sets.{bit_at};
ghost use Rattle.places.specs.Plan.{publics_in, restricted_in, reach_in};
ghost use Rattle.places.specs.Reaches.{common_reach};

use crate::lookup::{NODES, PUBLICS, RESTRICTED, part};

// A set has number k at bit k: public names by their numbers, restricted ones counted from the first bound name.
#[derive(Clone, Copy)]
pub struct Reach {
    pub publics: u64,
    pub restricted: u64,
}

// The two sets of the reach of a name, each as a word.
pub(crate) fn public_word(index: &[u32], name: usize) -> usize
    ensures { Word 4294967296 (publics_in index.now) name result }
{
    part(index, PUBLICS, RESTRICTED, name)
}

pub(crate) fn restricted_word(index: &[u32], name: usize) -> usize
    ensures { Word 4294967296 (restricted_in index.now) name result }
{
    part(index, RESTRICTED, NODES, name)
}

// The reach of a name; nothing past the names.
pub fn reach_of(index: &[u32], name: usize) -> Reach
    ensures { result ≡ reach_in index.now name }
{
    Reach {
        publics: public_word(index, name) as u64,
        restricted: restricted_word(index, name) as u64,
    }
}

// The names that are in both reaches.
pub fn common(a: Reach, b: Reach) -> Reach
    ensures { result ≡ common_reach a b }
{
    Reach {
        publics: a.publics & b.publics,
        restricted: a.restricted & b.restricted,
    }
}

// Whether a restricted name is in a reach.
pub fn has_privates(values: Reach) -> bool
    ensures { result ≡ not (same values.restricted 0) }
{
    values.restricted != 0
}

// Whether number v is in a set.
pub fn has(set: u64, v: usize) -> bool
    ensures { result ≡ bit_at set v }
{
    v < 64 && (set >> v) % 2 == 1
}

// How many numbers of a set are below v.
pub fn rank(set: u64, v: usize) -> usize
    ensures { (result ≡ length (keep (bit_at set) (range v))) × (result ≤ 64) }
{
    let below = if v < 64 { set % (1u64 << v) } else { set };
    below.count_ones() as usize
}

// Number k of a set, counted from 0 upward; 0 where the set has no more than k.
pub fn nth(set: u64, k: usize) -> usize
    ensures { (result ≡ word (keep (bit_at set) (range 64)) k) × (result < 64) }
{
    (0..64).filter(|&v| has(set, v)).nth(k).unwrap_or(0)
}
