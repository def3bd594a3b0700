// Net images: firing by number, looking at what a firing would leave, replay and run on any image, also a foreign one.
// The tests of an image and of a marking are for the crates above too.
#![tactic(auto)]

ghost use Rattle.std.specs.Prelude.{ℕ, true, ◌&&◌, ◌≡◌, [], ◌∷◌, ◌<◌, length, MatchResult};
ghost use Rattle.net.specs.declared.Refusal.TheVariants as refusals;
ghost use Rattle.net.specs.declared.Reason.TheVariants as reasons;
ghost use Rattle.net.specs.Image.{place_count_of, transition_count, is_header_right, inputs_at, record_right};
ghost use Rattle.net.specs.Image.{are_records_right};
ghost use Rattle.net.specs.Firing.{is_marking, is_enabled, initial_marking, moved, made, refused};
ghost use Rattle.net.specs.Firing.{step, in_turn, fire, replay, run_by, run_of, run, run_of_lowest};
ghost use Rattle.net.specs.Looking.{shown, look};
ghost use Rattle.net.specs.Answers.{cause_number, firing_number, firing_outcome, look_outcome, replay_outcome, Leaves};
ghost use Rattle.net.specs.Inner.Arcs.{Header, ArcsOf};
ghost use Rattle.net.specs.Lent.{lent_cause};
ghost use Rattle.net.specs.Inner.Passes.{rule_of, is_end_at, Finds, Turned};

mod arcs;

pub use arcs::Arcs;
use arcs::{
    all_marked, arcs_at, arcs_of, arcs_start, contact, length_given, move_tokens, put_all,
    record_at, record_right, rising,
};

// Why a call refuses: causes 11, 12, 13, 14, 15 and 16.
#[derive(Clone, Copy, Debug, PartialEq, Eq)]
pub enum Cause {
    ImageWrong,
    RecordWrong,
    MarkingWrong,
    NoTransition,
    NotEnabled,
    Contact,
}

impl From<Cause> for usize {
    ghost from_gives = { λ c n. n ≡ cause_number c };

    fn from(cause: Cause) -> usize {
        match cause {
            Cause::ImageWrong => 11,
            Cause::RecordWrong => 12,
            Cause::MarkingWrong => 13,
            Cause::NoTransition => 14,
            Cause::NotEnabled => 15,
            Cause::Contact => 16,
        }
    }
}

// Why a call that writes a list refuses: a cause, or 10.
#[derive(Clone, Copy, Debug, PartialEq, Eq)]
pub enum Refusal {
    Cause(Cause),
    NoRoom,
}

impl From<Cause> for Refusal {
    ghost from_gives = { λ c r. r ≡ refusals.Cause c };

    fn from(cause: Cause) -> Refusal {
        Refusal::Cause(cause)
    }
}

// What a replay answers: its last firing's answer, and its count of firings.
#[derive(Clone, Copy, Debug, PartialEq, Eq)]
pub struct Replayed {
    pub outcome: Result<(), Cause>,
    pub firings: usize,
}

// Why a run ended.
#[derive(Clone, Copy, Debug, PartialEq, Eq)]
pub enum Reason {
    LimitReached,
    HistoryFull,
    NothingEnabled,
    Stopped(Cause),
}

impl From<Cause> for Reason {
    ghost from_gives = { λ c r. r ≡ reasons.Stopped c };

    fn from(cause: Cause) -> Reason {
        Reason::Stopped(cause)
    }
}

// What a run answers: the reason and its count of firings.
#[derive(Clone, Copy, Debug, PartialEq, Eq)]
pub struct Ran {
    pub reason: Reason,
    pub firings: usize,
}

// Whether header, length and initial list are right. The sums are of 32-bit words, so 64 bits hold them; counts that
// the length does not bear out are refused before any list is walked.
pub fn header_right(image: &[u32]) -> bool
    ensures { result ≡ is_header_right image.now }
{
    if image.len() < 8 {
        return false;
    }
    let records = 8 + image[4] as usize;
    let arcs = arcs_start(image);
    if image[5] != 8 {
        return false;
    }
    if image[6] as usize != records {
        return false;
    }
    if image[7] as usize != arcs {
        return false;
    }
    if image.len() != length_given(image, arcs) {
        return false;
    }
    let places = image[0] as usize;
    rising(&image[8..records], places)
}

// Whether the header and every record are right.
pub fn records_right(image: &[u32]) -> bool
    ensures { result ≡ (is_header_right image.now && are_records_right image.now) }
{
    if !header_right(image) {
        return false;
    }
    let count = image[1] as usize;
    for transition in 0..count {
        if !record_right(image, transition) {
            return false;
        }
    }
    true
}

// Whether the list has a byte for each place, none above 1: the highest byte tells.
pub fn marking_right(marking: &[u8], places: usize) -> bool
    ensures { result ≡ is_marking places marking.now }
{
    if marking.len() != places {
        return false;
    }
    let mut highest = 0;
    for byte in marking {
        highest = u8::max(highest, *byte);
    }
    highest <= 1
}

// Checks the header of an image, and a marking: 11, 13.
pub fn check(image: &[u32], marking: &[u8]) -> Result<(), Cause>
    ensures { firing_number result ≡ lent_cause image.now marking.now }
{
    if !header_right(image) {
        return Err(Cause::ImageWrong);
    }
    let places = image[0] as usize;
    if !marking_right(marking, places) {
        return Err(Cause::MarkingWrong);
    }
    Ok(())
}

// The arcs of a transition that a marking lets fire: 14, 12, 15, 16. The header is right, and the marking has its length.
#[inline(always)]
fn fireable<'a>(image: &'a [u32], marking: &[u8], transition: usize) -> Result<Arcs<'a>, Cause>
    requires { Header image.now × (length marking.now ≡ place_count_of image.now) }
    ensures { MatchResult result
        (λ arcs. ArcsOf image.now transition arcs.inputs.now arcs.outputs.now
        × (step image.now marking.now transition
        ≡ made (moved marking.now arcs.inputs.now arcs.outputs.now)))
        (λ cause. step image.now marking.now transition ≡ refused (cause_number cause)) }
{
    let count = image[1] as usize;
    if count <= transition {
        return Err(Cause::NoTransition);
    }
    let Some(arcs) = arcs_at(image, transition) else {
        return Err(Cause::RecordWrong);
    };
    if !all_marked(arcs.inputs, marking) {
        return Err(Cause::NotEnabled);
    }
    if contact(arcs.inputs, arcs.outputs, marking) {
        return Err(Cause::Contact);
    }
    Ok(arcs)
}

// One firing on an image whose header is right, at a marking of its length. It costs its arcs.
fn fire_one(image: &[u32], marking: &mut [u8], transition: usize) -> Result<(), Cause>
    requires { Header image.now × (length marking.old ≡ place_count_of image.now) }
    ensures { firing_outcome result marking.new
        ≡ in_turn image.now marking.old (transition ∷ []) }
{
    let arcs = fireable(image, marking, transition)?;
    move_tokens(arcs, marking);
    Ok(())
}

// Fires a transition whose record is right and whose inputs have their tokens. At a contact it leaves the marking.
fn fire_enabled(image: &[u32], marking: &mut [u8], transition: usize) -> Result<(), Cause>
    requires { Header image.now
        × (length marking.old ≡ place_count_of image.now)
        × (transition < transition_count image.now)
        × (record_right image.now transition ≡ true)
        × (is_enabled marking.old (inputs_at image.now transition) ≡ true) }
    ensures { MatchResult result
        (λ fired. step image.now marking.old transition ≡ made marking.new)
        (λ cause. (step image.now marking.old transition ≡ refused (cause_number cause))
        × (marking.new ≡ marking.old)) }
{
    let arcs = arcs_of(image, transition);
    if contact(arcs.inputs, arcs.outputs, marking) {
        return Err(Cause::Contact);
    }
    move_tokens(arcs, marking);
    Ok(())
}

// Fires one transition by number: 11, 13, 14, 12, 15, 16. A refusal leaves the marking.
pub fn fire(image: &[u32], marking: &mut [u8], transition: u32) -> Result<(), Cause>
    ensures { firing_outcome result marking.new
        ≡ fire image.now marking.old transition }
{
    check(image, marking)?;
    fire_one(image, marking, transition as usize)
}

// Copies bytes over as many others. It is a loop, for std's `copy_from_slice` needs `memmove` of the C library, which the
// C interface does without.
fn copy(from: &[u8], to: &mut [u8])
    requires { length from.now ≡ length to.old }
    ensures { to.new ≡ from.now }
{
    for i in 0..from.len() {
        to[i] = from[i];
    }
}

// One look on an image whose header is right, at a marking of its length: 14, 12, 15 and 16 as of a firing, then 10.
// It costs a copy of the marking and the arcs.
fn look_one(image: &[u32], marking: &[u8], number: usize, next: &mut [u8]) -> Result<usize, Refusal>
    requires { Header image.now × (length marking.now ≡ place_count_of image.now) }
    ensures { look_outcome result next.new
        ≡ shown (place_count_of image.now)
        (in_turn image.now marking.now (number ∷ [])) next.old }
{
    let arcs = fireable(image, marking, number)?;
    let places = marking.len();
    if next.len() < places {
        return Err(Refusal::NoRoom);
    }
    copy(marking, &mut next[..places]);
    move_tokens(arcs, &mut next[..places]);
    Ok(places)
}

// Writes to the front of `next` what firing a transition by number would leave. It is refused as the firing is, by 11,
// 13, 14, 12, 15 or 16, then by 10. A refusal writes nothing, and the marking is only read.
pub fn look(
    image: &[u32],
    marking: &[u8],
    transition: u32,
    next: &mut [u8],
) -> Result<usize, Refusal>
    ensures { look_outcome result next.new
        ≡ look image.now marking.now transition next.old }
{
    check(image, marking)?;
    look_one(image, marking, transition as usize, next)
}

// Fires numbers in turn, until one is refused, on an image whose header is right and at a marking of its length.
fn fire_all(image: &[u32], marking: &mut [u8], numbers: &[u32]) -> Replayed
    requires { Header image.now × (length marking.old ≡ place_count_of image.now) }
    ensures { replay_outcome result marking.new
        ≡ in_turn image.now marking.old numbers.now }
{
    for (i, number) in numbers.iter().enumerate() {
        if let Err(cause) = fire_one(image, marking, *number as usize) {
            return Replayed {
                outcome: Err(cause),
                firings: i,
            };
        }
    }
    Replayed {
        outcome: Ok(()),
        firings: numbers.len(),
    }
}

// Sets the initial marking, of whatever was there.
fn begin(image: &[u32], marking: &mut [u8])
    requires { (is_header_right image.now ≡ true) × (length marking.old ≡ place_count_of image.now) }
    ensures { marking.new ≡ initial_marking image.now }
{
    let records = 8 + image[4] as usize;
    marking.fill(0);
    put_all(&image[8..records], marking, 1);
}

// Fires the numbers in turn from the initial marking, until one is refused: 11, 13 (length alone), then 14, 12, 15, 16
// for each.
pub fn replay(image: &[u32], marking: &mut [u8], numbers: &[u32]) -> Replayed
    ensures { replay_outcome result marking.new
        ≡ replay image.now marking.old numbers.now }
{
    if !header_right(image) {
        return Replayed {
            outcome: Err(Cause::ImageWrong),
            firings: 0,
        };
    }
    let places = image[0] as usize;
    if marking.len() != places {
        return Replayed {
            outcome: Err(Cause::MarkingWrong),
            firings: 0,
        };
    }
    begin(image, marking);
    fire_all(image, marking, numbers)
}

// Whether an enabled transition ends the search: by the old rule each does, else one that is bookkeeping.
fn ends_at(image: &[u32], settle: bool, transition: usize) -> bool
    requires { transition < transition_count image.now }
    ensures { result ≡ is_end_at image.now settle transition }
{
    if !settle {
        return true;
    }
    lists::word(image, 8 + lists::word(image, 4) + 6 * transition) <= 1
}

// The transition that the rule finds, or none; 12 at a malformed record. A search that settles first keeps the lowest
// enabled transition while it looks for bookkeeping. The records below `seen` were met in an earlier search and found
// right, and are not looked over again.
#[inline(always)]
fn search(
    image: &[u32],
    marking: &[u8],
    settle: bool,
    seen: &mut usize,
) -> Result<Option<usize>, Cause>
    requires { Header image.now
        × (length marking.now ≡ place_count_of image.now)
        × ((k : ℕ) → k < seen.old → record_right image.now k ≡ true) }
    ensures found { Finds image.now marking.now settle result }
    ensures seen { (k : ℕ) → k < seen.new → record_right image.now k ≡ true }
{
    let count = image[1] as usize;
    let mut kept = None;
    let mut met = count;
    'scan: for transition in 0..count {
        let Some(span) = record_at(image, transition, transition < *seen) else {
            return Err(Cause::RecordWrong);
        };
        for i in span.inputs..span.outputs {
            if marking[image[i] as usize] != 1 {
                continue 'scan;
            }
        }
        if ends_at(image, settle, transition) {
            kept = Some(transition);
            met = transition + 1;
            break 'scan;
        }
        kept = kept.or(Some(transition));
    }
    *seen = usize::max(*seen, met);
    Ok(kept)
}

// One turn of a run: fires what the rule finds and answers its number, or why the run ends.
#[inline(always)]
fn turn(image: &[u32], marking: &mut [u8], settle: bool, seen: &mut usize) -> Result<u32, Reason>
    requires { Header image.now
        × (length marking.old ≡ place_count_of image.now)
        × ((k : ℕ) → k < seen.old → record_right image.now k ≡ true) }
    ensures turned { Turned image.now settle marking.old marking.new result }
    ensures seen { (k : ℕ) → k < seen.new → record_right image.now k ≡ true }
{
    let Some(transition) = search(image, marking, settle, seen)? else {
        return Err(Reason::NothingEnabled);
    };
    fire_enabled(image, marking, transition)?;
    Ok(transition as u32)
}

// Fires what the rule finds, on an image and at a marking that are right, and writes each number to the history.
fn run_on(image: &[u32], marking: &mut [u8], settle: bool, limit: usize, history: &mut [u32]) -> Ran
    requires { Header image.now × (length marking.old ≡ place_count_of image.now) }
    ensures { Leaves
        (run_by image.now (rule_of settle image.now) limit (length history.old)
        marking.old)
        result
        marking.new history.new history.old }
{
    let turns = usize::min(limit, history.len());
    let mut seen = 0;
    for made in 0..turns {
        match turn(image, marking, settle, &mut seen) {
            Ok(transition) => history[made] = transition,
            Err(reason) => {
                return Ran {
                    reason,
                    firings: made,
                };
            }
        }
    }
    let reason = if limit <= history.len() {
        Reason::LimitReached
    } else {
        Reason::HistoryFull
    };
    Ran {
        reason,
        firings: turns,
    }
}

// Runs by a rule: 11, 13, then the turns.
fn run_checked(
    image: &[u32],
    marking: &mut [u8],
    settle: bool,
    limit: u64,
    history: &mut [u32],
) -> Ran
    ensures { Leaves
        (run_of image.now (rule_of settle image.now) marking.old limit
        (length history.old))
        result
        marking.new history.new history.old }
{
    if let Err(cause) = check(image, marking) {
        return Ran {
            reason: Reason::Stopped(cause),
            firings: 0,
        };
    }
    run_on(image, marking, settle, limit as usize, history)
}

// Runs, and settles first: fires the lowest enabled bookkeeping transition, else the lowest enabled one. 11, 13, then
// before each firing limit reached, history full, nothing enabled; 12 at a malformed record met in the search, 16 at a
// contact. Of the history only the words written change, and nothing of it is read.
pub fn run(image: &[u32], marking: &mut [u8], limit: u64, history: &mut [u32]) -> Ran
    ensures { Leaves (run image.now marking.old limit (length history.old)) result
        marking.new history.new history.old }
{
    run_checked(image, marking, true, limit, history)
}

// Runs by the old rule: fires the lowest enabled transition. All else is as in a run that settles first.
pub fn run_lowest(image: &[u32], marking: &mut [u8], limit: u64, history: &mut [u32]) -> Ran
    ensures { Leaves
        (run_of_lowest image.now marking.old limit (length history.old))
        result
        marking.new history.new history.old }
{
    run_checked(image, marking, false, limit, history)
}
