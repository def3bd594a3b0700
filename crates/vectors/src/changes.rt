// Requests that set the table, the image, the marking, the state or a summary.
use crate::items::{Item, Kept};
use crate::line::Request;
use crate::text;
use std::io;
use std::io::Write;

// j, l: a list's length. i, m, y, d, n: one of its items. w, p, x: all of them.
pub fn list<T: Item, const N: usize>(
    out: &mut impl Write,
    request: Request,
    kept: &mut Kept<T, N>,
) -> io::Result<()> {
    match request.letter {
        b'j' | b'l' => kept.resize(request.a),
        b'i' | b'm' | b'y' | b'd' | b'n' => kept.set(request.a, request.b),
        _ => kept.assign(request.numbers),
    }
    text::number(out, kept.items().len())
}

// t: the table's words, which are checked.
pub fn table(out: &mut impl Write, request: Request, kept: &mut Kept<u16, 4096>) -> io::Result<()> {
    kept.assign(request.numbers);
    text::cause(out, table::check(kept.items()))
}
