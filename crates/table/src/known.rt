// An accepted table with its index, and what the index tells of its scheme.
ghost use Rattle.std.specs.Prelude.{◌≡◌, true, MatchResult};
ghost use Rattle.scheme.specs.Words.{Number};
ghost use Rattle.scheme.specs.Index.{Filled};
ghost use Rattle.scheme.specs.Scheme.{scheme};
ghost use Rattle.table.specs.Answer.{cause_number};
ghost use Rattle.table.specs.Causes.{cause};
ghost use Rattle.table.specs.Known.{Known};

use crate::{Cause, check};
use scheme::index::{SIZE, fill};
use scheme::lookup;

// The words that are lent for an index.
#[derive(Drop)]
pub struct Index {
    pub words: [u32; SIZE],
}

// A table that `check` accepts, with its index.
#[derive(Clone, Copy)]
pub struct Known<'a> {
    pub table: &'a [u16],
    pub index: &'a [u32],
    pub ghost known: { Known table.now index.now },
}

// Fills in the index of a table that `check` accepts; the words of another stay as they are.
fn fill_accepted(table: &[u16], index: &mut Index) -> Result<(), Cause>
    ensures { MatchResult result
        (λ _. (cause table.now ≡ 0) × Filled table.now index.old.words true index.new.words)
        (λ refused. (cause_number refused ≡ cause table.now) × (index.new ≡ index.old)) }
{
    check(table)?;
    fill(table, &mut index.words);
    Ok(())
}

impl<'a> Known<'a> {
    ghost use Rattle.std.specs.Borrow.{sem};
    ghost use Rattle.std.specs.Io.BufRead.{Rests};
    ghost use Rattle.table.specs.contracts.known.Index.{the_row};

    // The table with its index, which fills the words lent; else the first cause that applies to the table.
    pub fn of(table: &'a [u16], index: &'a mut [u32; SIZE]) -> Result<Known<'a>, Cause>
        ensures { MatchResult result
            (λ known. (cause table.now ≡ 0) × (known.table.now ≡ table.now) × Filled table.now index.old true known.index.now)
            (λ refused. cause_number refused ≡ cause table.now) }
    {
        crate::check(table)?;
        fill(table, index);
        Ok(Known { table, index })
    }

    // The same with the words in an `Index`, of which it tells how they end, on refusal too.
    pub fn with_index(index: &'a mut Index, table: &'a [u16]) -> Result<Known<'a>, Cause>
        ensures told { MatchResult result
            (λ known. (cause table.now ≡ 0) × (known.table.now ≡ table.now)
            × Filled table.now index.old.words true known.index.now)
            (λ refused. cause_number refused ≡ cause table.now) }
        ensures* rests { sem 𝓛 (Rests the_row index.entry
            (λ last. MatchResult result (λ known. last.words ≡ known.index.now) (λ _. last ≡ index.old))) }
    {
        fill_accepted(table, index)?;
        Ok(Known {
            table,
            index: &index.words,
        })
    }

    // The node of a branch.
    pub fn home(&self, branch: usize) -> usize
        ensures { result ≡ (scheme self.now.table.now).home branch }
    {
        lookup::home(self.index, branch)
    }

    // The thread of a node.
    pub fn node_thread(&self, node: usize) -> usize
        ensures { Number ((scheme self.now.table.now).thread node) result }
    {
        lookup::node_thread(self.table, self.index, node)
    }

    // The thread of a branch.
    pub fn branch_thread(&self, branch: usize) -> usize
        ensures { Number ((scheme self.now.table.now).thread ((scheme self.now.table.now).home branch)) result }
    {
        lookup::branch_thread(self.table, self.index, branch)
    }

    // The thread of what binds a name; the count of threads where nothing does.
    pub fn name_thread(&self, name: usize) -> usize
        ensures { result ≡ (scheme self.now.table.now).thread_of_name name }
    {
        lookup::name_thread(self.table, self.index, name)
    }
}
