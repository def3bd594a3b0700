// The C interface (include/dekohuna.h): each call of the library under a plain name.
//
// A call returns one word, value·256 + code. The code is 0, the number of a cause, or the reason that ended a run.
#![tactic(auto)]

ghost use Rattle.std.specs.Prelude.{◌≡◌, [], ◌<◌, ℕ, length, refl, Result, Ok, Err};
ghost use Rattle.table.specs.Causes.{cause};
ghost use Rattle.builder.specs.Answer.{built_outcome, build_outcome, sized_outcome, size_outcome};
ghost use Rattle.net.specs.Answers.{cause_number, firing_number, firings_made, look_number, bytes_shown, ending};
ghost use Rattle.net.specs.Firing.{fire, replay, run, run_of_lowest};
ghost use Rattle.net.specs.Looking.{look};
ghost use Rattle.process.specs.Answers.{answer_number, answer_value};
ghost use Rattle.process.specs.Outcomes.{start_outcome, open_outcome, step_outcome};
ghost use Rattle.readback.specs.Answers.{read_outcome};
ghost use Rattle.readback.specs.Answers as Read;
ghost use Rattle.rewriting.specs.Answers as Rewriting;
ghost use Rattle.rewriting.specs.Outcomes.{rewrite_outcome, node_origin, branch_origin, name_origin};
ghost use Rattle.summary.specs.Answers.{made_number, transitions_counted, kept_number, firings_kept, lowest_found};
ghost use Rattle.summary.specs.Calls.{make_summary, fire_with, check_cause};
ghost use Rattle.summary.specs.Sets.{lowest_in, number_in};
ghost use Rattle.summary.specs.Summary.{summary};
ghost use Rattle.capi.specs.Returned.{packed, value_or0, ending_code, from_size};
ghost use Rattle.capi.specs.Returned.{summary_returned, of_make, keep_returned, of_keep, of_lowest};
ghost use Rattle.capi.specs.Returned.{returned, from_build, of_firings, from_look, of_outcome, RunReturned};

use net::{Cause, Ran, Reason};

// value·256 + code.
fn pack(value: usize, code: usize) -> u64
    requires { code < 256 }
    ensures { result ≡ packed value code }
{
    (value % 72057594037927936 * 256 + code) as u64
}

// The number of a cause that a net is refused for.
fn cause_code(cause: Cause) -> usize
    ensures { (result ≡ cause_number cause) × (result < 256) }
{
    cause.into()
}

// The number of a firing's cause, 0 where it was made.
fn firing_code(firing: Result<(), Cause>) -> usize
    ensures { (result ≡ firing_number firing) × (result < 256) }
{
    match firing {
        Ok(()) => 0,
        Err(cause) => cause_code(cause),
    }
}

// The number of the reason that ended a run, or of its cause.
fn reason_code(reason: Reason) -> usize
    ensures { (result ≡ ending_code (ending reason)) × (result < 256) }
{
    match reason {
        Reason::LimitReached => 200,
        Reason::HistoryFull => 201,
        Reason::NothingEnabled => 202,
        Reason::Stopped(cause) => cause_code(cause),
    }
}

// Why a call refuses.
trait Refused: Copy {
    // The number of an answer, 0 where nothing is refused, and its value, 0 where there is none.
    ghost number_of: { Result ℕ Self → ℕ };

    ghost value_of: { Result ℕ Self → ℕ };

    // The number of a refusal, which has no value.
    fn number(self) -> usize
        ensures { (result ≡ number_of (Err self)) × (result < 256) × (value_of (Err self) ≡ 0) };

    // Of an answer that is no refusal the value is told.
    ghost done: { (n : ℕ) → (number_of (Ok n) ≡ 0) × (value_of (Ok n) ≡ n) };
}

// The word of an answer.
fn word<E: Refused>(answer: Result<usize, E>) -> u64
    ensures { result ≡ packed (E.value_of answer) (E.number_of answer) }
{
    match answer {
        Ok(value) => pack(value, 0),
        Err(refusal) => pack(0, refusal.number()),
    }
}

impl Refused for table::Cause {
    ghost number_of = { λ a. (sized_outcome a).number };

    ghost value_of = { λ a. (sized_outcome a).words };

    fn number(self) -> usize {
        self.into()
    }

    ghost done = { λ n. (refl, refl) };
}

impl Refused for builder::Refusal {
    ghost number_of = { λ a. (built_outcome a []).number };

    ghost value_of = { λ a. (built_outcome a []).words };

    fn number(self) -> usize {
        match self {
            builder::Refusal::Table(cause) => cause.into(),
            builder::Refusal::NoRoom => 10,
        }
    }

    ghost done = { λ n. (refl, refl) };
}

impl Refused for process::Refusal {
    ghost number_of = { answer_number };

    ghost value_of = { λ a. value_or0 (answer_value a) };

    fn number(self) -> usize {
        self.into()
    }

    ghost done = { λ n. (refl, refl) };
}

impl Refused for readback::Refusal {
    ghost number_of = { Read.answer_number };

    ghost value_of = { λ a. value_or0 (Read.answer_value a) };

    fn number(self) -> usize {
        self.into()
    }

    ghost done = { λ n. (refl, refl) };
}

impl Refused for rewriting::Refusal {
    ghost number_of = { Rewriting.answer_number };

    ghost value_of = { λ a. value_or0 (Rewriting.answer_value a) };

    fn number(self) -> usize {
        self.into()
    }

    ghost done = { λ n. (refl, refl) };
}

impl Refused for net::Refusal {
    ghost number_of = { look_number };

    ghost value_of = { bytes_shown };

    fn number(self) -> usize {
        match self {
            net::Refusal::Cause(cause) => cause.into(),
            net::Refusal::NoRoom => 10,
        }
    }

    ghost done = { λ n. (refl, refl) };
}

// The word of a single firing, which makes one or none.
fn fired_word(firing: Result<(), Cause>) -> u64
    ensures { result ≡ packed (firings_made firing) (firing_number firing) }
{
    match firing {
        Ok(()) => pack(1, 0),
        Err(cause) => pack(0, cause_code(cause)),
    }
}

// The word of a run, by either rule.
fn ran_word(ran: Ran) -> u64
    ensures { result ≡ packed ran.firings (ending_code (ending ran.reason)) }
{
    pack(ran.firings, reason_code(ran.reason))
}

// The number of the cause of a firing with a summary or of a check of one, 0 where there is none.
fn kept_code(kept: Result<(), summary::Refusal>) -> usize
    ensures { (result ≡ kept_number kept) × (result < 256) }
{
    match kept {
        Ok(()) => 0,
        Err(summary::Refusal::Cause(cause)) => cause_code(cause),
        Err(summary::Refusal::SummaryWrong) => 20,
    }
}

// The word of a firing with a summary, which makes one or none.
fn kept_word(kept: Result<(), summary::Refusal>) -> u64
    ensures { result ≡ packed (firings_kept kept) (kept_number kept) }
{
    match kept {
        Ok(()) => pack(1, 0),
        Err(summary::Refusal::Cause(cause)) => pack(0, cause_code(cause)),
        Err(summary::Refusal::SummaryWrong) => pack(0, 20),
    }
}

// The word of the lowest of a set. Of a value 56 bits are kept, so of a word's number 50.
fn lowest_word(found: Option<(usize, u32)>) -> u64
    ensures { result ≡ of_lowest (lowest_found found) }
{
    match found {
        Some((word, bit)) => pack(word % 1125899906842624 * 64 + bit as usize, 0),
        None => pack(0, 202),
    }
}

// Checks a table.
#[unsafe(no_mangle)]
pub extern "C" fn dekohuna_check(table: &[u16]) -> u64
    ensures { result ≡ packed 0 (cause table.now) }
{
    let code = match table::check(table) {
        Ok(()) => 0,
        Err(cause) => cause.into(),
    };
    pack(0, code)
}

// Writes the image of a table's net to the start of `out`.
#[unsafe(no_mangle)]
pub extern "C" fn dekohuna_build(table: &[u16], out: &mut [u32]) -> u64
    ensures { returned result out.new ≡ from_build (build_outcome table.now out.old) }
{
    word(builder::build(table, out))
}

// Tells how many words the image of a table's net has.
#[unsafe(no_mangle)]
pub extern "C" fn dekohuna_size(table: &[u16]) -> u64
    ensures { result ≡ from_size (size_outcome table.now) }
{
    word(builder::size(table))
}

// Fires a transition by its number.
#[unsafe(no_mangle)]
pub extern "C" fn dekohuna_fire(image: &[u32], marking: &mut [u8], transition: u32) -> u64
    ensures { returned result marking.new
        ≡ of_firings (fire image.now marking.old transition) }
{
    fired_word(net::fire(image, marking, transition))
}

// Writes what firing a transition by its number would leave to the start of `next`.
#[unsafe(no_mangle)]
pub extern "C" fn dekohuna_look(
    image: &[u32],
    marking: &[u8],
    transition: u32,
    next: &mut [u8],
) -> u64
    ensures { returned result next.new
        ≡ from_look (look image.now marking.now transition next.old) }
{
    word(net::look(image, marking, transition, next))
}

// Fires numbers in turn from the initial marking.
#[unsafe(no_mangle)]
pub extern "C" fn dekohuna_replay(image: &[u32], marking: &mut [u8], numbers: &[u32]) -> u64
    ensures { returned result marking.new
        ≡ of_firings (replay image.now marking.old numbers.now) }
{
    let replayed = net::replay(image, marking, numbers);
    pack(replayed.firings, firing_code(replayed.outcome))
}

// Fires the lowest enabled bookkeeping transition, else the lowest enabled one, over and over, and writes the numbers
// to `history`.
#[unsafe(no_mangle)]
pub extern "C" fn dekohuna_run(
    image: &[u32],
    marking: &mut [u8],
    limit: u64,
    history: &mut [u32],
) -> u64
    ensures { RunReturned
        (run image.now marking.old limit (length history.old))
        result marking.new history.new history.old }
{
    ran_word(net::run(image, marking, limit, history))
}

// Fires the lowest enabled transition over and over, and writes the numbers to `history`.
#[unsafe(no_mangle)]
pub extern "C" fn dekohuna_run_lowest(
    image: &[u32],
    marking: &mut [u8],
    limit: u64,
    history: &mut [u32],
) -> u64
    ensures { RunReturned
        (run_of_lowest image.now marking.old limit (length history.old))
        result marking.new history.new history.old }
{
    ran_word(net::run_lowest(image, marking, limit, history))
}

// Writes the words of the state that a marking stands for.
#[unsafe(no_mangle)]
pub extern "C" fn dekohuna_read(table: &[u16], marking: &[u8], state: &mut [u16]) -> u64
    ensures { returned result state.new
        ≡ of_outcome (read_outcome table.now marking.now state.old) }
{
    word(readback::read(table, marking, state))
}

// Writes the summary of a marking to the start of both lists.
#[unsafe(no_mangle)]
pub extern "C" fn dekohuna_summary_make(
    image: &[u32],
    marking: &[u8],
    counts: &mut [u32],
    enabled: &mut [u64],
) -> u64
    ensures { summary_returned result counts.new enabled.new
        ≡ of_make (make_summary image.now marking.now
        (summary counts.old enabled.old)) }
{
    word(summary::make(image, marking, counts, enabled))
}

// Fires a transition by its number, and keeps the summary.
#[unsafe(no_mangle)]
pub extern "C" fn dekohuna_summary_fire(
    image: &[u32],
    marking: &mut [u8],
    counts: &mut [u32],
    enabled: &mut [u64],
    transition: u32,
) -> u64
    ensures { keep_returned result marking.new counts.new enabled.new
        ≡ of_keep (fire_with image.now marking.old
        (summary counts.old enabled.old) transition) }
{
    kept_word(summary::fire(image, marking, counts, enabled, transition))
}

// Checks that a summary is the marking's.
#[unsafe(no_mangle)]
pub extern "C" fn dekohuna_summary_check(
    image: &[u32],
    marking: &[u8],
    counts: &[u32],
    enabled: &[u64],
) -> u64
    ensures { result
        ≡ packed 0 (check_cause image.now marking.now
        (summary counts.now enabled.now)) }
{
    pack(
        0,
        kept_code(summary::check(image, marking, counts, enabled)),
    )
}

// Tells the lowest transition of a set.
#[unsafe(no_mangle)]
pub extern "C" fn dekohuna_summary_lowest(enabled: &[u64]) -> u64
    ensures { result ≡ of_lowest (lowest_in enabled.now) }
{
    lowest_word(summary::lowest(enabled))
}

// Tells how many transitions a set has.
#[unsafe(no_mangle)]
pub extern "C" fn dekohuna_summary_number(enabled: &[u64]) -> u64
    ensures { result ≡ packed (number_in enabled.now) 0 }
{
    pack(summary::number(enabled) as usize, 0)
}

// Writes the words of the starting state.
#[unsafe(no_mangle)]
pub extern "C" fn dekohuna_start(table: &[u16], state: &mut [u16]) -> u64
    ensures { returned result state.new
        ≡ of_outcome (start_outcome table.now state.old) }
{
    word(process::start(table, state))
}

// Lists the labels of the open steps, three words each.
#[unsafe(no_mangle)]
pub extern "C" fn dekohuna_open_steps(table: &[u16], state: &[u16], labels: &mut [u32]) -> u64
    ensures { returned result labels.new
        ≡ of_outcome (open_outcome table.now state.now labels.old) }
{
    word(process::open_steps(table, state, labels))
}

// Writes the words of the state after the step that a label names.
#[unsafe(no_mangle)]
pub extern "C" fn dekohuna_step(
    table: &[u16],
    state: &[u16],
    kind: u32,
    a: u32,
    b: u32,
    next: &mut [u16],
) -> u64
    ensures { returned result next.new
        ≡ of_outcome (step_outcome table.now state.now kind a b next.old) }
{
    word(process::step(table, state, kind, a, b, next))
}

// Writes the rewritten table, in which no definition calls itself, to the start of `out`.
#[unsafe(no_mangle)]
pub extern "C" fn dekohuna_rewrite(table: &[u16], out: &mut [u16]) -> u64
    ensures { returned result out.new
        ≡ of_outcome (rewrite_outcome table.now out.old) }
{
    word(rewriting::rewrite(table, out))
}

// Tells the node of the table that a node of the rewritten table is, or is a copy of.
#[unsafe(no_mangle)]
pub extern "C" fn dekohuna_original_node(table: &[u16], number: u32) -> u64
    ensures { result ≡ (of_outcome (node_origin table.now number)).word }
{
    word(rewriting::original_node(table, number))
}

// Tells the branch of the table that a branch of the rewritten table is, or is a copy of.
#[unsafe(no_mangle)]
pub extern "C" fn dekohuna_original_branch(table: &[u16], number: u32) -> u64
    ensures { result ≡ (of_outcome (branch_origin table.now number)).word }
{
    word(rewriting::original_branch(table, number))
}

// Tells the name of the table that a name of the rewritten table is, or is a copy of.
#[unsafe(no_mangle)]
pub extern "C" fn dekohuna_original_name(table: &[u16], number: u32) -> u64
    ensures { result ≡ (of_outcome (name_origin table.now number)).word }
{
    word(rewriting::original_name(table, number))
}
