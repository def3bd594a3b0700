// Answers requests with the library. Another implementation of the rules wrote the answers that are expected.
//
// Standard input has a request on each line: a letter, then decimal numbers, a space before each; its first 1,048,576
// bytes are read, and each line that ends there is answered. The answer is a line: the request's letter, then numbers
// and lists, a space before each. What requests make is kept for those after them: a table, an image, a marking, the
// counts and the set of a summary, state words and the history of the latest run, all empty at first.
//
//   request           what is done                                            answer
//   t word..          the table is these words, and is checked                cause
//   b room            builds the table's image into room words                cause, words written, the room words
//   z                 tells the size of the table's image                     cause, words
//   w word..          the image is these words                                its length
//   j length          the image is cut, or lengthened by 0                    its length
//   i index word      a word of the image is set; nothing past its end        its length
//   p byte..          the marking is these bytes                              its length
//   l length          the marking is cut, or lengthened by 0                  its length
//   m index byte      a byte of the marking is set; nothing past its end      its length
//   f number          fires                                                   cause, marking
//   e number room     looks at a firing into room bytes                       cause, bytes written, the room bytes
//   c counts set      makes the marking's summary in so many words of each    cause, transitions, counts, set
//   d index word      a count is set; nothing past the end                    how many counts there are
//   n index word      a word of the set is set; nothing past its end          its length
//   F number          fires with counts and set                               cause, marking, counts, set
//   K                 checks counts and set                                   cause
//   L                 finds the lowest and the number of the set as it is     1 or 0, lowest, number
//   r number..        replays these numbers                                   cause, firings, marking
//   h count           replays the first words of the history                  cause, firings, marking
//   u limit room      runs (settle first), with a history of room words       cause, reason, firings, history, marking
//   U limit room      runs by the lowest enabled, with such a history         cause, reason, firings, history, marking
//   g room            reads the marking back into room words                  cause, words written, the room words
//   s room            writes the starting state into room words               cause, words written, the room words
//   x word..          the state is these words                                its length
//   y index word      a word of the state is set; nothing past its end        its length
//   o room            lists the open steps of the state in room words         cause, labels written, the room words
//   k kind a b room   takes a step of the state into room words               cause, words written, the room words
//   v room            rewrites the table into room words                      cause, words written, the room words
//   a kind number     reads a number of the rewritten table back              cause, number
//
// A cause is its number, or 0. A reason is 1 for limit reached, 2 for history full, 3 for nothing enabled, 0 with a
// cause. A kind of the request a, taken modulo 3, is 0 for a node, 1 for a branch, 2 for a name. What a refusal does
// not count or read back is 0. After b the image is the words written, none if it was refused; after g, s and k the
// state is the words written, and stays as it was if they were refused; after c the counts and the set are the words
// lent, also if it was refused; after e, v and a nothing is changed. What is lent to be written is first filled with
// 170 (bytes), 43690 (16-bit words), 2863311530 (32-bit words) or 12297829382473034410 (64-bit words).
//
// There is room for 4,096 words of a table, 131,072 of an image, 32,768 bytes of a marking and of a look, 32,768
// counts and 512 words of a set, 64 words of a state, 4,096 of a history and of labels, and 4,095 numbers of a
// request: more than that is not kept or lent. Numbers of a request have 64 bits, and are taken modulo 2^32, 2^16 or
// 2^8 where they become words or bytes. A missing number is 0, and another letter is answered by itself alone.
//
// A list is its length, then, if that is at most 128, `:` and its items with a space between, else `#` and the 64-bit
// FNV-1a digest of its bytes, the low byte of each item first, in 16 hexadecimal digits.
#![tactic(auto)]

mod causes;
mod changes;
mod digest;
mod items;
mod line;
mod nets;
mod states;
mod summaries;
mod tables;
mod text;

use crate::items::Store;
use crate::line::Request;
use std::io;
use std::io::Write;

// Answers a request.
fn answer(out: &mut impl Write, request: Request, store: &mut Store) -> io::Result<()> {
    match request.letter {
        b't' => changes::table(out, request, &mut store.table),
        b'w' | b'j' | b'i' => changes::list(out, request, &mut store.image),
        b'p' | b'l' | b'm' => changes::list(out, request, &mut store.marking),
        b'x' | b'y' => changes::list(out, request, &mut store.state),
        b'd' => changes::list(out, request, &mut store.counts),
        b'n' => changes::list(out, request, &mut store.enabled),
        b'b' => nets::build(out, request, store),
        b'z' => nets::size(out, store.table.items()),
        b'f' | b'r' | b'h' => nets::play(out, request, store),
        b'e' => nets::look(out, request, store),
        b'u' | b'U' => nets::run(out, request, store),
        b'c' => summaries::make(out, request, store),
        b'F' => summaries::fire(out, request, store),
        b'K' => summaries::check(out, store),
        b'L' => summaries::find(out, store.enabled.items()),
        b'g' | b's' | b'k' => states::next(out, request, store),
        b'o' => states::open_steps(out, request, store),
        b'v' => tables::rewrite(out, request, store.table.items()),
        b'a' => tables::original(out, request, store.table.items()),
        _ => Ok(()),
    }
}

// Answers a line.
fn answer_line(out: &mut impl Write, line: &[u8], store: &mut Store) -> io::Result<()> {
    let mut fields = [0usize; 4096];
    let request = line::request_of(line, &mut fields);
    out.write_all(&[request.letter])?;
    answer(out, request, store)?;
    writeln!(out)
}

// Answers each whole line.
fn answer_lines(out: &mut impl Write, input: &[u8], store: &mut Store) -> io::Result<()> {
    let mut rest = input;
    while let Some(end) = rest.iter().position(|byte| *byte == b'\n') {
        answer_line(out, &rest[..end], store)?;
        rest = &rest[end + 1..];
    }
    Ok(())
}

fn main(rt: HostRuntime) -> io::Result<()> {
    let mut store = items::nothing();
    let mut input = [0u8; 1048576];
    let count = line::read(&mut rt.stdin(), &mut input)?;
    answer_lines(&mut rt.stdout(), &input[..count], &mut store)
}
