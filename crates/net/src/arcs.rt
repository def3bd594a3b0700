// Records and arcs of an image, and the tokens of the places that a list of arcs has.
ghost use Rattle.std.specs.Prelude.{true, false, ◌≡◌, ◌<◌, ◌≤◌, length, MatchOption};
ghost use Rattle.lists.specs.Lists.{ascends};
ghost use Rattle.net.specs.Image.{transition_count, given_length, record_right};
ghost use Rattle.net.specs.Firing.{is_enabled, has_contact, put, moved};
ghost use Rattle.net.specs.Inner.Arcs.{Header, Start, Offsets, ArcsOf};

// The inputs and the outputs of a transition: places, ascending.
#[derive(Clone, Copy)]
pub struct Arcs<'a> {
    pub inputs: &'a [u32],
    pub outputs: &'a [u32],
}

// Where the inputs of a transition start, where its outputs start and where they end.
#[derive(Clone, Copy)]
pub(crate) struct Span {
    pub inputs: usize,
    pub outputs: usize,
    pub end: usize,
}

// Whether the words ascend strictly and lie below `places`: each pair of neighbours is looked at, and the last word.
pub(crate) fn rising(words: &[u32], places: usize) -> bool
    ensures { result ≡ ascends places 0 words.now }
{
    if words.is_empty() {
        return true;
    }
    let last = words.len() - 1;
    let mut right = true;
    for i in 0..last {
        if words[i + 1] <= words[i] {
            right = false;
        }
    }
    right && (words[last] as usize) < places
}

// The same, of a list that is short, as a transition's are: it is left at the first word that does not rise. A long one
// is looked over faster by wide steps, which `rising` allows.
#[inline(always)]
fn rising_short(words: &[u32], places: usize) -> bool
    ensures { result ≡ ascends places 0 words.now }
{
    if words.is_empty() {
        return true;
    }
    let last = words.len() - 1;
    for i in 0..last {
        if words[i + 1] <= words[i] {
            return false;
        }
    }
    (words[last] as usize) < places
}

// Where the arcs start: 8+m+6t.
pub(crate) fn arcs_start(image: &[u32]) -> usize
    requires { 8 ≤ length image.now }
    ensures { Start image.now result }
{
    let tokens = image[4] as usize;
    let transitions = image[1] as usize;
    8 + tokens + 6 * transitions
}

// The length that the header's counts give.
pub(crate) fn length_given(image: &[u32], arcs: usize) -> usize
    requires { (8 ≤ length image.now) × Start image.now arcs }
    ensures { result ≡ given_length image.now }
{
    let inputs = image[2] as usize;
    let outputs = image[3] as usize;
    arcs + inputs + outputs
}

// The offsets in a transition's record, unchecked.
#[inline(always)]
fn span_of(image: &[u32], transition: usize) -> Span
    requires { Header image.now × (transition < transition_count image.now) }
    ensures { Offsets image.now transition result.inputs result.outputs result.end }
{
    let tokens = image[4] as usize;
    let record = 8 + tokens + 6 * transition;
    let inputs = image[record + 3] as usize;
    let outputs = inputs + image[record + 4] as usize;
    let end = outputs + image[record + 5] as usize;
    Span {
        inputs,
        outputs,
        end,
    }
}

// Whether a transition's record and its arcs are right.
#[inline(always)]
pub(crate) fn record_right(image: &[u32], transition: usize) -> bool
    requires { Header image.now × (transition < transition_count image.now) }
    ensures { result ≡ record_right image.now transition }
{
    let span = span_of(image, transition);
    let inputs = span.inputs;
    let outputs = span.outputs;
    let end = span.end;
    if inputs < arcs_start(image) {
        return false;
    }
    if image.len() < end {
        return false;
    }
    let places = image[0] as usize;
    rising_short(&image[inputs..outputs], places) && rising_short(&image[outputs..end], places)
}

// The arcs of a transition whose record is right.
#[inline(always)]
pub(crate) fn arcs_of(image: &[u32], transition: usize) -> Arcs
    requires { Header image.now
        × (transition < transition_count image.now)
        × (record_right image.now transition ≡ true) }
    ensures { ArcsOf image.now transition result.inputs.now result.outputs.now }
{
    let span = span_of(image, transition);
    let inputs = span.inputs;
    let outputs = span.outputs;
    let end = span.end;
    Arcs {
        inputs: &image[inputs..outputs],
        outputs: &image[outputs..end],
    }
}

// The arcs of a transition, if its record is right.
#[inline(always)]
pub(crate) fn arcs_at(image: &[u32], transition: usize) -> Option<Arcs>
    requires { Header image.now × (transition < transition_count image.now) }
    ensures { MatchOption result (record_right image.now transition ≡ false)
        (λ arcs. ArcsOf image.now transition arcs.inputs.now arcs.outputs.now) }
{
    if record_right(image, transition) {
        Some(arcs_of(image, transition))
    } else {
        None
    }
}

// Whether a record that a search meets for the first time is right. It is compiled by itself: within the scan it takes
// the registers that the scan's own loop needs.
#[cold]
#[inline(never)]
fn met_right(image: &[u32], transition: usize) -> bool
    requires { Header image.now × (transition < transition_count image.now) }
    ensures { result ≡ record_right image.now transition }
{
    record_right(image, transition)
}

// Where the arcs of a transition are, if its record is right. One that is known to be right is not looked over again.
#[inline(always)]
pub(crate) fn record_at(image: &[u32], transition: usize, known: bool) -> Option<Span>
    requires { Header image.now
        × (transition < transition_count image.now)
        × (known ≡ true → record_right image.now transition ≡ true) }
    ensures { MatchOption result (record_right image.now transition ≡ false)
        (λ span. (record_right image.now transition ≡ true)
        × Offsets image.now transition span.inputs span.outputs span.end) }
{
    if known || met_right(image, transition) {
        Some(span_of(image, transition))
    } else {
        None
    }
}

// Whether every place of a list has its token.
#[inline(always)]
pub(crate) fn all_marked(places: &[u32], marking: &[u8]) -> bool
    requires { ascends (length marking.now) 0 places.now ≡ true }
    ensures { result ≡ is_enabled marking.now places.now }
{
    for place in places {
        if marking[*place as usize] != 1 {
            return false;
        }
    }
    true
}

// Whether an output has its token that is not also an input: the two ascending lists are merged.
pub(crate) fn contact(inputs: &[u32], outputs: &[u32], marking: &[u8]) -> bool
    requires { (ascends (length marking.now) 0 inputs.now ≡ true)
        × (ascends (length marking.now) 0 outputs.now ≡ true) }
    ensures { result ≡ has_contact marking.now inputs.now outputs.now }
{
    let mut next_input = 0;
    let mut next_output = 0;
    while next_output < outputs.len() {
        let output = outputs[next_output] as usize;
        if next_input < inputs.len() {
            let input = inputs[next_input] as usize;
            if input < output {
                next_input += 1;
                continue;
            }
            if input == output {
                next_input += 1;
                next_output += 1;
                continue;
            }
        }
        if marking[output] == 1 {
            return true;
        }
        next_output += 1;
    }
    false
}

// Writes a byte at every place of a list.
#[inline(always)]
pub(crate) fn put_all(places: &[u32], marking: &mut [u8], byte: u8)
    requires { ascends (length marking.old) 0 places.now ≡ true }
    ensures { marking.new ≡ put byte marking.old places.now }
{
    for place in places {
        marking[*place as usize] = byte;
    }
}

// Takes the inputs' tokens and gives the outputs'.
pub(crate) fn move_tokens(arcs: Arcs, marking: &mut [u8])
    requires { (ascends (length marking.old) 0 arcs.inputs.now ≡ true)
        × (ascends (length marking.old) 0 arcs.outputs.now ≡ true) }
    ensures { marking.new ≡ moved marking.old arcs.entry.inputs.now arcs.entry.outputs.now }
{
    put_all(arcs.inputs, marking, 0);
    put_all(arcs.outputs, marking, 1);
}
