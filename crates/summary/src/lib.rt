// The list of what can be done next: beside a marking, the number of unmarked inputs of each transition and the set of
// the enabled ones, on any image, also a foreign one.
#![tactic(auto)]

ghost use Rattle.std.specs.Prelude.{◌≡◌, ◌+◌, ◌-◌, ◌*◌, ◌/◌, ◌%◌, ◌^◌, ◌<◌, true, not, ◌&&◌, ◌||◌, length};
ghost use Rattle.lists.specs.Lists.{pick, same, word, from, every, ascends};
ghost use Rattle.net.specs.Image.{place_count_of, transition_count, record_right, inputs_at, outputs_at};
ghost use Rattle.net.specs.Inner.Arcs.{Header, Offsets, ArcsOf};
ghost use Rattle.net.specs.Firing.{is_marking, is_enabled, has_contact, put, moved};
ghost use Rattle.summary.specs.declared.Refusal.TheVariants as refusals;
ghost use Rattle.summary.specs.Sets.{is_in_set, lowest_in, number_in};
ghost use Rattle.summary.specs.Summary.{summary, summary_of, worked_out, shares, same_summary};
ghost use Rattle.summary.specs.Calls.{make_summary, fire_with, check_cause};
ghost use Rattle.summary.specs.Answers.{make_outcome, keep_outcome, kept_number, lowest_found};
ghost use Rattle.summary.specs.Inner.Marks.{missing_in, is_touched, is_any_marked, is_worked_afresh, is_entry_right, put_entry};
ghost use Rattle.summary.specs.Inner.Marks.{refreshed, Sound, Fits};

mod bits;

use net::{Arcs, Cause};

// Why a firing with a summary, and a check of one, refuse: a cause, or 20 where the summary is wrong.
#[derive(Clone, Copy, Debug, PartialEq, Eq)]
pub enum Refusal {
    Cause(Cause),
    SummaryWrong,
}

impl From<Cause> for Refusal {
    ghost from_gives = { λ c r. r ≡ refusals.Cause c };

    fn from(cause: Cause) -> Refusal {
        Refusal::Cause(cause)
    }
}

// The lowest transition of the set as lent, by counting trailing zeros: bit b of word w is 64·w + b.
pub fn lowest(enabled: &[u64]) -> Option<(usize, u32)>
    ensures { lowest_found result ≡ lowest_in enabled.now }
{
    for (i, word) in enabled.iter().enumerate() {
        let zeros = word.trailing_zeros();
        if zeros < 64 {
            return Some((i, zeros));
        }
    }
    None
}

// How many transitions the set has as lent, by counting ones, modulo 2⁶⁴.
pub fn number(enabled: &[u64]) -> u64
    ensures { result ≡ number_in enabled.now % 2 ^ 64 }
{
    let mut total: u64 = 0;
    for word in enabled {
        total = total.wrapping_add(word.count_ones() as u64);
    }
    total
}

// Where the inputs of a transition start, where its outputs start and where they end.
#[derive(Clone, Copy)]
struct Span {
    inputs: usize,
    outputs: usize,
    end: usize,
}

// The offsets in a transition's record.
#[inline(always)]
fn span_of(image: &[u32], transition: usize) -> Span
    requires { Header image.now × (transition < transition_count image.now) }
    ensures { Offsets image.now transition result.inputs result.outputs result.end }
{
    let tokens = image[4] as usize;
    let record = 8 + tokens + 6 * transition;
    let inputs = image[record + 3] as usize;
    let outputs = inputs + image[record + 4] as usize;
    let end = outputs + image[record + 5] as usize;
    Span {
        inputs,
        outputs,
        end,
    }
}

// The arcs of a transition whose record is right, as net's own function reads them: that asks for a right record, so it
// is not `pub`, and one that looks at each offset made a firing that keeps a summary slower by a third.
#[inline(always)]
fn arcs_of(image: &[u32], transition: usize) -> Arcs
    requires { Header image.now
        × (transition < transition_count image.now)
        × (record_right image.now transition ≡ true) }
    ensures { ArcsOf image.now transition result.inputs.now result.outputs.now }
{
    let span = span_of(image, transition);
    let inputs = span.inputs;
    let outputs = span.outputs;
    let end = span.end;
    Arcs {
        inputs: &image[inputs..outputs],
        outputs: &image[outputs..end],
    }
}

// Writes a byte at every place of a list.
fn put_all(places: &[u32], marking: &mut [u8], byte: u8)
    requires { ascends (length marking.old) 0 places.now ≡ true }
    ensures { marking.new ≡ put byte marking.old places.now }
{
    for place in places {
        marking[*place as usize] = byte;
    }
}

// How many of the places have no token.
#[inline(always)]
fn missing(places: &[u32], bytes: &[u8]) -> u32
    requires { (ascends (length bytes.now) 0 places.now ≡ true) × (length places.now < 2 ^ 32) }
    ensures { result ≡ missing_in bytes.now places.now }
{
    places
        .iter()
        .filter(|place| bytes[**place as usize] % 2 != 1)
        .count() as u32
}

// Whether one of the places is the firing's. Two are looked at in a turn: one in a turn is slower by a third.
#[inline(always)]
fn touched(places: &[u32], bytes: &[u8]) -> bool
    requires { ascends (length bytes.now) 0 places.now ≡ true }
    ensures { result ≡ is_touched bytes.now places.now }
{
    let mut i = 0;
    while i + 1 < places.len() {
        if 2 <= bytes[places[i] as usize] {
            return true;
        }
        if 2 <= bytes[places[i + 1] as usize] {
            return true;
        }
        i += 2;
    }
    if i < places.len() {
        return 2 <= bytes[places[i] as usize];
    }
    false
}

// Whether one of the places has the byte of a token alone.
fn any_marked(places: &[u32], bytes: &[u8]) -> bool
    requires { ascends (length bytes.now) 0 places.now ≡ true }
    ensures { result ≡ is_any_marked bytes.now places.now }
{
    places.iter().any(|place| bytes[*place as usize] == 1)
}

// How many inputs of a transition have no token.
fn missing_at(image: &[u32], bytes: &[u8], transition: usize) -> u32
    requires { Sound image.now bytes.now × (transition < transition_count image.now) }
    ensures { result ≡ missing_in bytes.now (inputs_at image.now transition) }
{
    missing(arcs_of(image, transition).inputs, bytes)
}

// Whether a transition is to be worked out afresh: all are, or one of its places is the firing's.
#[inline(always)]
fn is_afresh(arcs: Arcs, bytes: &[u8], all: bool) -> bool
    requires { (ascends (length bytes.now) 0 arcs.inputs.now ≡ true)
        × (ascends (length bytes.now) 0 arcs.outputs.now ≡ true) }
    ensures { result
        ≡ (all || (is_touched bytes.now arcs.entry.inputs.now
        || is_touched bytes.now arcs.entry.outputs.now)) }
{
    all || touched(arcs.inputs, bytes) || touched(arcs.outputs, bytes)
}

// Works a transition's count and bit out afresh, if it is to be.
fn renew(
    image: &[u32],
    bytes: &[u8],
    counts: &mut [u32],
    enabled: &mut [u64],
    transition: usize,
    all: bool,
)
    requires { Sound image.now bytes.now
        × Fits image.now counts.old enabled.old
        × (transition < transition_count image.now) }
    ensures { summary counts.new enabled.new
        ≡ pick (is_worked_afresh image.now bytes.now all transition)
        (put_entry transition (missing_in bytes.now (inputs_at image.now transition))
        (summary counts.old enabled.old))
        (summary counts.old enabled.old) }
{
    let arcs = arcs_of(image, transition);
    if !is_afresh(arcs, bytes, all) {
        return;
    }
    let count = missing(arcs.inputs, bytes);
    counts[transition] = count;
    bits::put_bit(enabled, transition, count == 0);
}

// Works out all transitions, or those that have a place of the firing's. The others stay as they are.
fn refresh(image: &[u32], bytes: &[u8], counts: &mut [u32], enabled: &mut [u64], all: bool)
    requires { Sound image.now bytes.now × Fits image.now counts.old enabled.old }
    ensures { summary counts.new enabled.new
        ≡ refreshed (transition_count image.now)
        (is_worked_afresh image.now bytes.now all)
        (λ u. missing_in bytes.now (inputs_at image.now u))
        (summary counts.old enabled.old) }
{
    let count = counts.len();
    for transition in 0..count {
        renew(image, bytes, counts, enabled, transition, all);
    }
}

// The summary of a marking, in lists of its length.
fn make_all(image: &[u32], marking: &[u8], counts: &mut [u32], enabled: &mut [u64])
    requires { Sound image.now marking.now
        × Fits image.now counts.old enabled.old
        × (is_marking (place_count_of image.now) marking.now ≡ true) }
    ensures { summary counts.new enabled.new
        ≡ summary_of image.now marking.now }
{
    enabled.fill(0);
    refresh(image, marking, counts, enabled, true);
}

// Makes the summary of a marking at the start of both lists: 11, 13, 12 (every record), then 10. A refusal writes
// nothing.
pub fn make(
    image: &[u32],
    marking: &[u8],
    counts: &mut [u32],
    enabled: &mut [u64],
) -> Result<usize, net::Refusal>
    ensures { make_outcome result counts.new enabled.new
        ≡ make_summary image.now marking.now
        (summary counts.old enabled.old) }
{
    net::check(image, marking)?;
    if !net::records_right(image) {
        return Err(net::Refusal::Cause(Cause::RecordWrong));
    }
    let count = image[1] as usize;
    let words = (count + 63) / 64;
    if counts.len() < count || enabled.len() < words {
        return Err(net::Refusal::NoRoom);
    }
    make_all(image, marking, &mut counts[..count], &mut enabled[..words]);
    Ok(count)
}

// Whether a summary has a count for each of so many transitions, and a bit.
fn lengths_right(transitions: usize, counts: usize, words: usize) -> bool
    requires { transitions < 2 ^ 32 }
    ensures { result ≡ (same counts transitions && same words ((transitions + 63) / 64)) }
{
    counts == transitions && words == (transitions + 63) / 64
}

// Whether a firing whose inputs have their tokens has a contact: in the meantime its inputs have a byte of their own.
fn contact(arcs: Arcs, marking: &mut [u8]) -> bool
    requires { (ascends (length marking.old) 0 arcs.inputs.now ≡ true)
        × (ascends (length marking.old) 0 arcs.outputs.now ≡ true)
        × (is_enabled marking.old arcs.inputs.now ≡ true) }
    ensures { (marking.new ≡ marking.old)
        × (result ≡ has_contact marking.old arcs.entry.inputs.now arcs.entry.outputs.now) }
{
    put_all(arcs.inputs, marking, 2);
    let found = any_marked(arcs.outputs, marking);
    put_all(arcs.inputs, marking, 1);
    found
}

// Makes a firing, and works out the transitions that share a place with it. Its places are told from the others by
// their bytes in the meantime, so that each transition's arcs are passed over once.
fn keep(
    image: &[u32],
    marking: &mut [u8],
    counts: &mut [u32],
    enabled: &mut [u64],
    transition: usize,
)
    requires { Sound image.now marking.old
        × Fits image.now counts.old enabled.old
        × (transition < transition_count image.now)
        × (is_marking (place_count_of image.now) marking.old ≡ true) }
    ensures { (marking.new
        ≡ moved marking.old (inputs_at image.now transition)
        (outputs_at image.now transition))
        × (summary counts.new enabled.new
        ≡ worked_out image.now (shares image.now transition)
        (moved marking.old (inputs_at image.now transition)
        (outputs_at image.now transition))
        (summary counts.old enabled.old)) }
{
    let arcs = arcs_of(image, transition);
    put_all(arcs.inputs, marking, 2);
    put_all(arcs.outputs, marking, 3);
    refresh(image, marking, counts, enabled, false);
    put_all(arcs.inputs, marking, 0);
    put_all(arcs.outputs, marking, 1);
}

// Fires where every record is right: 15, 16.
fn fire_known(
    image: &[u32],
    marking: &mut [u8],
    counts: &mut [u32],
    enabled: &mut [u64],
    transition: usize,
) -> Result<(), Refusal>
    requires { Sound image.now marking.old
        × Fits image.now counts.old enabled.old
        × (transition < transition_count image.now)
        × (is_marking (place_count_of image.now) marking.old ≡ true) }
    ensures { keep_outcome result marking.new counts.new enabled.new
        ≡ fire_with image.now marking.old
        (summary counts.old enabled.old) transition }
{
    let arcs = arcs_of(image, transition);
    if missing(arcs.inputs, marking) != 0 {
        return Err(Refusal::Cause(Cause::NotEnabled));
    }
    if contact(arcs, marking) {
        return Err(Refusal::Cause(Cause::Contact));
    }
    keep(image, marking, counts, enabled, transition);
    Ok(())
}

// Fires by number and keeps the summary: 11, 13, 20 (a length not exact), 14, 12 (every record), 15, 16. It decides by
// the marking. A refusal changes nothing.
pub fn fire(
    image: &[u32],
    marking: &mut [u8],
    counts: &mut [u32],
    enabled: &mut [u64],
    transition: u32,
) -> Result<(), Refusal>
    ensures { keep_outcome result marking.new counts.new enabled.new
        ≡ fire_with image.now marking.old
        (summary counts.old enabled.old) transition }
{
    net::check(image, marking)?;
    let count = image[1];
    if !lengths_right(count as usize, counts.len(), enabled.len()) {
        return Err(Refusal::SummaryWrong);
    }
    if count <= transition {
        return Err(Refusal::Cause(Cause::NoTransition));
    }
    if !net::records_right(image) {
        return Err(Refusal::Cause(Cause::RecordWrong));
    }
    fire_known(image, marking, counts, enabled, transition as usize)
}

// Whether a transition's count and bit are the marking's.
fn entry_right(
    image: &[u32],
    marking: &[u8],
    counts: &[u32],
    enabled: &[u64],
    transition: usize,
) -> bool
    requires { Sound image.now marking.now
        × Fits image.now counts.now enabled.now
        × (transition < transition_count image.now) }
    ensures { result
        ≡ is_entry_right (missing_in marking.now (inputs_at image.now transition))
        (word counts.now transition) (is_in_set enabled.now transition) }
{
    let count = missing_at(image, marking, transition);
    counts[transition] == count && bits::is_in(enabled, transition) == (count == 0)
}

// Whether no transition from `first` on is in the set.
fn none_from(enabled: &[u64], first: usize) -> bool
    requires { 64 * length enabled.now < 2 ^ 40 }
    ensures { result
        ≡ every (λ k. not (is_in_set enabled.now k))
        (from first (64 * length enabled.now - first)) }
{
    let end = 64 * enabled.len();
    (first..end).all(|k| !bits::is_in(enabled, k))
}

// Whether every count and bit is the marking's, and the spare bits are 0.
fn entries_right(image: &[u32], marking: &[u8], counts: &[u32], enabled: &[u64]) -> bool
    requires { Sound image.now marking.now
        × Fits image.now counts.now enabled.now
        × (is_marking (place_count_of image.now) marking.now ≡ true) }
    ensures { result
        ≡ same_summary (summary counts.now enabled.now)
        (summary_of image.now marking.now) }
{
    let count = counts.len();
    for transition in 0..count {
        if !entry_right(image, marking, counts, enabled, transition) {
            return false;
        }
    }
    none_from(enabled, count)
}

// Checks a summary: 11, 13, 20 (lengths), 12 (every record), 20 (contents, spare bits too).
pub fn check(image: &[u32], marking: &[u8], counts: &[u32], enabled: &[u64]) -> Result<(), Refusal>
    ensures { kept_number result
        ≡ check_cause image.now marking.now
        (summary counts.now enabled.now) }
{
    net::check(image, marking)?;
    let count = image[1] as usize;
    if !lengths_right(count, counts.len(), enabled.len()) {
        return Err(Refusal::SummaryWrong);
    }
    if !net::records_right(image) {
        return Err(Refusal::Cause(Cause::RecordWrong));
    }
    if !entries_right(image, marking, counts, enabled) {
        return Err(Refusal::SummaryWrong);
    }
    Ok(())
}
