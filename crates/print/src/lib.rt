// The text of a listing, written into lent bytes, and the words that bytes make.
//
// A call answers how many bytes or words it wrote, or nothing where the output is too short for them (10). Text is counted
// before it is written, by the same functions, so that output too short for it is left as it was. A
// foreign image may describe a text longer than any buffer: counting stops one byte past the end of the output.
#![tactic(auto)]

ghost use Rattle.std.specs.Prelude.{[], ◌∷◌, ◌≡◌, ◌+◌, ◌<◌, length};
ghost use Rattle.std.proofs.lemmas.List.Edits.{sets};
ghost use Rattle.std.proofs.Math.Seq.{slice};
ghost use Rattle.lists.specs.Lists.{word, flat, range};
ghost use Rattle.table.specs.Answer.{cause_of};
ghost use Rattle.net.specs.Image.{transition_count};
ghost use Rattle.print.specs.Answers.{outcome_of, done, answered, written};
ghost use Rattle.print.specs.Text.{decimal, numbers, spaced, refusal};
ghost use Rattle.print.specs.Listing.{header_line, transition_line, listing};
ghost use Rattle.print.specs.Words.{words_of};
ghost use Rattle.print.specs.Inner.Cursors.{cursor_at, write};
ghost use Rattle.print.specs.Inner.Parts.{label_text, arcs_text, net_text, RecordAt};
ghost use Rattle.print.specs.Program.{odd_cause, program_text};

use builder::Refusal;
use lists::{store, word};
use table::Cause;

// Where the next byte goes, and where writing stops.
#[derive(Clone, Copy)]
struct Pen {
    place: usize,
    stop: usize,
}

// Writes the 16-bit words of the bytes, low byte first, as far as `out` reaches; the answer is the number of words,
// also of those that found no room.
fn fill_words(bytes: &[u8], out: &mut [u16]) -> usize
    ensures out_after { out.new ≡ sets out.old 0 (words_of bytes.now) }
    ensures value { result ≡ length (words_of bytes.now) }
{
    let count = bytes.len() / 2;
    for i in 0..count {
        let low = word(bytes, 2 * i);
        let high = word(bytes, 2 * i + 1);
        store(out, i, (low + 256 * high) as u16);
    }
    count
}

// The 16-bit words of the bytes, low byte first.
pub fn words(bytes: &[u8], out: &mut [u16]) -> Option<usize>
    ensures { outcome_of result out.new ≡ answered (words_of bytes.now) out.old }
{
    if out.len() < bytes.len() / 2 {
        return None;
    }
    Some(fill_words(bytes, out))
}

// Writes a byte; past the buffer's end it is only counted, and from the stop on it is not. Every function that writes
// answers with the pen after it.
fn put(out: &mut [u8], at: Pen, byte: u8) -> Pen
    ensures { cursor_at out.new result ≡ write (cursor_at out.old at) (byte ∷ []) }
{
    if at.place < at.stop {
        store(out, at.place, byte);
        let place = at.place + 1;
        return Pen { place, ..at };
    }
    at
}

// Writes the bytes of a text.
fn copy(out: &mut [u8], at: Pen, text: &[u8]) -> Pen
    ensures { cursor_at out.new result ≡ write (cursor_at out.old at) text.now }
{
    let mut p = at;
    for &byte in text {
        p = put(out, p, byte);
    }
    p
}

// The digit of a number below 10.
fn digit(n: usize) -> u8
    requires { n < 10 }
    ensures { result ≡ 48 + n }
{
    48 + n as u8
}

// Writes a number: all its digits but the last, then the last.
fn put_decimal(out: &mut [u8], at: Pen, n: usize) -> Pen
    ensures { cursor_at out.new result ≡ write (cursor_at out.old at) (decimal n) }
{
    if n < 10 {
        return put(out, at, digit(n));
    }
    let p = put_decimal(out, at, n / 10);
    put(out, p, digit(n % 10))
}

// Writes a number that does not begin a line.
fn put_next(out: &mut [u8], at: Pen, n: usize) -> Pen
    ensures { cursor_at out.new result ≡ write (cursor_at out.old at) (spaced (decimal n)) }
{
    let p = put(out, at, b' ');
    put_decimal(out, p, n)
}

// Writes a mark that does not begin a line.
fn put_mark(out: &mut [u8], at: Pen, mark: u8) -> Pen
    ensures { cursor_at out.new result ≡ write (cursor_at out.old at) (spaced (mark ∷ [])) }
{
    let p = put(out, at, b' ');
    put(out, p, mark)
}

// Writes word i of the image; it does not begin a line.
fn put_word(image: &[u32], i: usize, out: &mut [u8], at: Pen) -> Pen
    ensures { cursor_at out.new result
        ≡ write (cursor_at out.old at) (spaced (decimal (word image.now i))) }
{
    let n = word(image, i);
    put_next(out, at, n)
}

// Writes the words from `start` to `end`, those that the image has. The work ends where the pen stops.
fn put_span(image: &[u32], start: usize, end: usize, out: &mut [u8], at: Pen) -> Pen
    ensures { cursor_at out.new result
        ≡ write (cursor_at out.old at) (flat spaced (numbers (slice start end image.now))) }
{
    let last = end.min(image.len());
    let mut p = at;
    for i in start..last {
        if p.place >= p.stop {
            return p;
        }
        p = put_word(image, i, out, p);
    }
    p
}

// Writes the first five header words as a line.
fn put_header(image: &[u32], out: &mut [u8], at: Pen) -> Pen
    ensures { cursor_at out.new result
        ≡ write (cursor_at out.old at) (header_line image.now) }
{
    let mut p = put_decimal(out, at, word(image, 0));
    for i in 1..5 {
        p = put_word(image, i, out, p);
    }
    put(out, p, b'\n')
}

// Where the record of a transition starts. The sum is of 32-bit words, so 64 bits hold it.
fn record_start(image: &[u32], transition: usize) -> usize
    requires { transition < 4294967296 }
    ensures { RecordAt image.now transition result }
{
    let tokens = word(image, 4);
    8 + tokens + 6 * transition
}

// Writes the label of a transition.
fn put_label(image: &[u32], transition: usize, out: &mut [u8], at: Pen) -> Pen
    requires { transition < 4294967296 }
    ensures { cursor_at out.new result
        ≡ write (cursor_at out.old at) (label_text image.now transition) }
{
    let record = record_start(image, transition);
    let p = put_word(image, record, out, at);
    let q = put_word(image, record + 1, out, p);
    put_word(image, record + 2, out, q)
}

// Writes the inputs and the outputs of a transition, each after its mark.
fn put_arcs(image: &[u32], transition: usize, out: &mut [u8], at: Pen) -> Pen
    requires { transition < 4294967296 }
    ensures { cursor_at out.new result
        ≡ write (cursor_at out.old at) (arcs_text image.now transition) }
{
    let record = record_start(image, transition);
    let inputs = word(image, record + 3);
    let outputs = inputs + word(image, record + 4);
    let end = outputs + word(image, record + 5);
    let a = put_mark(out, at, b':');
    let b = put_span(image, inputs, outputs, out, a);
    let c = put_mark(out, b, b'>');
    put_span(image, outputs, end, out, c)
}

// Writes the line of a transition.
fn put_transition(image: &[u32], transition: usize, out: &mut [u8], at: Pen) -> Pen
    requires { transition < 4294967296 }
    ensures { cursor_at out.new result
        ≡ write (cursor_at out.old at) (transition_line image.now transition) }
{
    let a = put_decimal(out, at, transition);
    let b = put_label(image, transition, out, a);
    let c = put_arcs(image, transition, out, b);
    put(out, c, b'\n')
}

// Writes the lines of all transitions. The work ends where the pen stops.
fn put_transitions(image: &[u32], out: &mut [u8], at: Pen) -> Pen
    ensures { cursor_at out.new result
        ≡ write (cursor_at out.old at)
        (flat (transition_line image.now) (range (transition_count image.now))) }
{
    let count = word(image, 1);
    let mut p = at;
    for transition in 0..count {
        if p.place >= p.stop {
            return p;
        }
        p = put_transition(image, transition, out, p);
    }
    p
}

// Writes the listing of an image.
fn put_listing(image: &[u32], out: &mut [u8], at: Pen) -> Pen
    ensures { cursor_at out.new result
        ≡ write (cursor_at out.old at) (listing image.now) }
{
    let p = put_header(image, out, at);
    put_transitions(image, out, p)
}

// Writes `refused`, the number and a line feed.
fn put_refusal(number: usize, out: &mut [u8], at: Pen) -> Pen
    ensures { cursor_at out.new result ≡ write (cursor_at out.old at) (refusal number) }
{
    let a = copy(out, at, b"refused");
    let b = put_next(out, a, number);
    put(out, b, b'\n')
}

// The pen before a text that is to stand in `out`.
fn begin(out: &[u8]) -> Pen
    ensures { (result.place ≡ 0) × (result.stop ≡ length out.now + 1) }
{
    Pen {
        place: 0,
        stop: out.len() + 1,
    }
}

// The listing of an image. It is first counted on a byte of its own.
pub fn listing(image: &[u32], out: &mut [u8]) -> Option<usize>
    ensures { outcome_of result out.new ≡ answered (listing image.now) out.old }
{
    let start = begin(out);
    let lines = put_listing(image, &mut [0u8; 1], start);
    if lines.place > out.len() {
        return None;
    }
    let end = put_listing(image, out, start);
    Some(end.place)
}

// `refused`, the number and a line feed, first counted on a byte of their own.
pub fn refusal(number: usize, out: &mut [u8]) -> Option<usize>
    ensures { outcome_of result out.new ≡ answered (refusal number) out.old }
{
    let start = begin(out);
    let line = put_refusal(number, &mut [0u8; 1], start);
    if line.place > out.len() {
        return None;
    }
    let end = put_refusal(number, out, start);
    Some(end.place)
}

// What is printed of a table as it stands: its net, or the table's refusal.
fn list_net(table: &[u16], out: &mut [u8]) -> Option<usize>
    ensures { outcome_of result out.new ≡ answered (net_text table.now) out.old }
{
    let mut image = [0u32; 16384];
    match builder::build(table, &mut image) {
        Ok(size) => listing(&image[..size], out),
        Err(Refusal::Table(cause)) => refusal(usize::from(cause), out),
        Err(Refusal::NoRoom) => refusal(10, out),
    }
}

// The number with an odd last byte: 3 after 1 and 2.
#[tactic(auto, unfolding(lists::specs::Lists::same))]
fn odd_number(checked: Result<(), Cause>) -> usize
    ensures { result ≡ odd_cause (cause_of checked) }
{
    match checked {
        Err(Cause::Short) => 1,
        Err(Cause::Counts) => 2,
        _ => 3,
    }
}

// What the listing program prints of its input. Input longer than any table is told by its first words; a rewritten
// table within the bounds has at most 2,229.
pub fn list(bytes: &[u8], out: &mut [u8]) -> Option<usize>
    ensures { outcome_of result out.new ≡ answered (program_text bytes.now) out.old }
{
    let mut table = [0u16; 4096];
    let count = fill_words(bytes, &mut table).min(4096);
    if bytes.len() % 2 == 1 {
        return refusal(odd_number(table::check_sparing(&table[..count], true)), out);
    }
    let mut rewritten = [0u16; 2229];
    match rewriting::rewrite(&table[..count], &mut rewritten) {
        Ok(size) => list_net(&rewritten[..size], out),
        Err(refused) => refusal(usize::from(refused), out),
    }
}

// The same into bytes that hold every text that the program prints (`program-fits`), so there is always room; the
// answer is the text's length.
pub fn list_all(bytes: &[u8], out: &mut [u8; 262144]) -> usize
    ensures { done result out.new ≡ written (program_text bytes.now) out.old }
{
    list(bytes, out).unwrap()
}
