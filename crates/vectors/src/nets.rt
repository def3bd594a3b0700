// Requests that build and fire.
use crate::items::{Item, Kept, Store, first, lend};
use crate::line::Request;
use crate::text;
use net::{Ran, Replayed};
use std::io;
use std::io::Write;

// b: builds the table's image.
pub fn build(out: &mut impl Write, request: Request, store: &mut Store) -> io::Result<()> {
    let image = store.image.lend(request.a);
    let built = builder::build(store.table.items(), image);
    text::answer(out, built)?;
    text::list(out, image)?;
    store.image.length = built.unwrap_or(0);
    Ok(())
}

// z: tells the size of the table's image.
pub fn size(out: &mut impl Write, table: &[u16]) -> io::Result<()> {
    text::answer(out, builder::size(table))
}

// Replays the numbers of the request.
fn replay_given(numbers: &[usize], image: &[u32], marking: &mut [u8]) -> Replayed {
    let mut given: Kept<u32, 4096> = Kept::none();
    given.assign(numbers);
    net::replay(image, marking, given.items())
}

// Answers a replay.
fn tell(out: &mut impl Write, replayed: Replayed) -> io::Result<()> {
    text::cause(out, replayed.outcome)?;
    text::number(out, replayed.firings)
}

// f, r, h: fires by number, replays the numbers given or the first words of the history.
pub fn play(out: &mut impl Write, request: Request, store: &mut Store) -> io::Result<()> {
    let image = store.image.items();
    let marking = store.marking.items_mut();
    match request.letter {
        b'f' => text::cause(out, net::fire(image, marking, u32::of(request.a)))?,
        b'r' => tell(out, replay_given(request.numbers, image, marking))?,
        _ => tell(
            out,
            net::replay(image, marking, first(store.history.items(), request.a)),
        )?,
    }
    text::list(out, marking)
}

// e: looks at a firing.
pub fn look(out: &mut impl Write, request: Request, store: &Store) -> io::Result<()> {
    let mut space = [0u8; 32768];
    let next = lend(&mut space, request.b);
    let looked = net::look(
        store.image.items(),
        store.marking.items(),
        u32::of(request.a),
        next,
    );
    text::answer(out, looked)?;
    text::list(out, next)
}

// Runs by the rule of the request's letter.
fn run_by(letter: u8, image: &[u32], marking: &mut [u8], limit: u64, history: &mut [u32]) -> Ran {
    if letter == b'U' {
        return net::run_lowest(image, marking, limit, history);
    }
    net::run(image, marking, limit, history)
}

// u, U: runs.
pub fn run(out: &mut impl Write, request: Request, store: &mut Store) -> io::Result<()> {
    let marking = store.marking.items_mut();
    let history = store.history.lend(request.b);
    let ran = run_by(
        request.letter,
        store.image.items(),
        marking,
        request.a as u64,
        history,
    );
    text::answer(out, ran.reason)?;
    text::number(out, ran.firings)?;
    text::list(out, history)?;
    text::list(out, marking)
}
