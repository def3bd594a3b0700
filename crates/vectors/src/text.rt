// The text of answers, to a writer.
use crate::causes::{Number, Outcome};
use crate::digest::digest;
use crate::items::Item;
use std::io;
use std::io::Write;

// A space and a number.
pub fn number(out: &mut impl Write, value: usize) -> io::Result<()> {
    write!(out, " {value}")
}

// What a call answered: a cause or 0, and a count.
pub fn answer(out: &mut impl Write, answer: impl Into<Outcome>) -> io::Result<()> {
    let outcome: Outcome = answer.into();
    write!(out, " {} {}", outcome.0, outcome.1)
}

// What a call that counts nothing answered: a cause or 0.
pub fn cause<E: Into<Number>>(out: &mut impl Write, answer: Result<(), E>) -> io::Result<()> {
    match answer {
        Ok(()) => number(out, 0),
        Err(refusal) => number(out, refusal.into().0),
    }
}

// A space and a list.
pub fn list<T: Item>(out: &mut impl Write, items: &[T]) -> io::Result<()> {
    number(out, items.len())?;
    if items.len() > 128 {
        return write!(out, "#{:016x}", digest(items));
    }
    write!(out, ":")?;
    for (i, item) in items.iter().enumerate() {
        if i > 0 {
            write!(out, " ")?;
        }
        write!(out, "{item}")?;
    }
    Ok(())
}
