// What the plan of a table tells: where a node's control places and [*≠n] start, N, and how many places and initial
// tokens the net has. Exact on any words: what the plan has no word for reads 0.
ghost use Rattle.std.specs.Prelude.{◌≤◌};
ghost use Rattle.std.proofs.Math.Seq.{slice};
ghost use Rattle.lists.specs.Lists.{Word};
ghost use Rattle.places.specs.Plan.{nodes_in, privates_at, free_at, places_at, tokens_at};

use lists::word;

// Where the two sets of reaches, the starts of control places and each count stand in a plan, and its size; the index
// of the table stands at 0.
pub const PUBLICS: usize = 832;

pub const RESTRICTED: usize = 896;

pub const NODES: usize = 960;

pub const PRIVATES: usize = 1217;

pub const FREE: usize = 1218;

pub const PLACES: usize = 1219;

pub const TOKENS: usize = 1220;

pub const SIZE: usize = 1221;

// Word i of the part of a list from `first` on and below `end`, 0 past the part.
pub(crate) fn part(words: &[u32], first: usize, end: usize, i: usize) -> usize
    requires { first ≤ end }
    ensures { Word 4294967296 (slice first end words.now) i result }
{
    if i < end - first {
        word(words, first + i)
    } else {
        0
    }
}

// Where the control places of a node start; past the nodes where they end.
pub fn node_start(index: &[u32], node: usize) -> usize
    ensures { Word 4294967296 (nodes_in index.now) node result }
{
    part(index, NODES, PRIVATES, node)
}

// N: how many private values there are.
pub fn privates(index: &[u32]) -> usize
    ensures { Word 4294967296 index.now privates_at result }
{
    word(index, PRIVATES)
}

// Where [*≠n] starts.
pub fn free_start(index: &[u32]) -> usize
    ensures { Word 4294967296 index.now free_at result }
{
    word(index, FREE)
}

// How many places the net has.
pub fn place_count(index: &[u32]) -> usize
    ensures { Word 4294967296 index.now places_at result }
{
    word(index, PLACES)
}

// How many tokens there are at first.
pub fn token_count(index: &[u32]) -> usize
    ensures { Word 4294967296 index.now tokens_at result }
{
    word(index, TOKENS)
}
