// Requests for states and their open steps.
use crate::causes::Number;
use crate::items::{Item, Kept, Store, lend};
use crate::line::Request;
use crate::text;
use std::io;
use std::io::Write;

// Makes a state: of a marking, the first one, or after a step.
fn make(request: Request, store: &Store, next: &mut [u16]) -> Result<usize, Number> {
    let table = store.table.items();
    let length = match request.letter {
        b'g' => readback::read(table, store.marking.items(), next)?,
        b's' => process::start(table, next)?,
        _ => process::step(
            table,
            store.state.items(),
            u32::of(request.a),
            u32::of(request.b),
            u32::of(request.c),
            next,
        )?,
    };
    Ok(length)
}

// How many words a request for a state lends: a step has that after its label.
fn room_of(request: Request) -> usize {
    if request.letter == b'k' {
        request.d
    } else {
        request.a
    }
}

// g, s, k: reads the marking back, starts, or takes a step. The state is kept if it was not refused.
pub fn next(out: &mut impl Write, request: Request, store: &mut Store) -> io::Result<()> {
    let mut next: Kept<u16, 64> = Kept::none();
    let words = next.lend(room_of(request));
    let made = make(request, store, words);
    text::answer(out, made)?;
    text::list(out, words)?;
    if let Ok(length) = made {
        next.length = length;
        store.state = next;
    }
    Ok(())
}

// o: the open steps.
pub fn open_steps(out: &mut impl Write, request: Request, store: &Store) -> io::Result<()> {
    let mut space = [0u32; 4096];
    let labels = lend(&mut space, request.a);
    let listed = process::open_steps(store.table.items(), store.state.items(), labels);
    text::answer(out, listed)?;
    text::list(out, labels)
}
