// Requests for the rewritten table.
use crate::items::{Item, lend};
use crate::line::Request;
use crate::text;
use std::io;
use std::io::Write;

// v: rewrites the table.
pub fn rewrite(out: &mut impl Write, request: Request, table: &[u16]) -> io::Result<()> {
    let mut space = [0u16; 4096];
    let words = lend(&mut space, request.a);
    text::answer(out, rewriting::rewrite(table, words))?;
    text::list(out, words)
}

// a: reads the original of a node, a branch or a name of the rewritten table back, by the kind modulo 3.
pub fn original(out: &mut impl Write, request: Request, table: &[u16]) -> io::Result<()> {
    let number = u32::of(request.b);
    let answer = match request.a % 3 {
        0 => rewriting::original_node(table, number),
        1 => rewriting::original_branch(table, number),
        _ => rewriting::original_name(table, number),
    };
    text::answer(out, answer)
}
