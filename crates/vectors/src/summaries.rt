// Requests on summaries.
use crate::items::{Item, Store};
use crate::line::Request;
use crate::text;
use std::io;
use std::io::Write;

// c: makes the marking's summary.
pub fn make(out: &mut impl Write, request: Request, store: &mut Store) -> io::Result<()> {
    let counts = store.counts.lend(request.a);
    let enabled = store.enabled.lend(request.b);
    let made = summary::make(store.image.items(), store.marking.items(), counts, enabled);
    text::answer(out, made)?;
    text::list(out, counts)?;
    text::list(out, enabled)
}

// F: fires with the summary.
pub fn fire(out: &mut impl Write, request: Request, store: &mut Store) -> io::Result<()> {
    let marking = store.marking.items_mut();
    let counts = store.counts.items_mut();
    let enabled = store.enabled.items_mut();
    let kept = summary::fire(
        store.image.items(),
        marking,
        counts,
        enabled,
        u32::of(request.a),
    );
    text::cause(out, kept)?;
    text::list(out, marking)?;
    text::list(out, counts)?;
    text::list(out, enabled)
}

// K: checks the summary.
pub fn check(out: &mut impl Write, store: &Store) -> io::Result<()> {
    let kept = summary::check(
        store.image.items(),
        store.marking.items(),
        store.counts.items(),
        store.enabled.items(),
    );
    text::cause(out, kept)
}

// L: finds the lowest and the number of the set.
pub fn find(out: &mut impl Write, enabled: &[u64]) -> io::Result<()> {
    text::answer(out, summary::lowest(enabled))?;
    text::number(out, summary::number(enabled) as usize)
}
