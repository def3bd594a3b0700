// A line of input taken apart: field 0 is its letter, the fields after it are its numbers.
ghost use Rattle.std.specs.Prelude.{◌≤◌, IfOk};

use crate::items::Item;
use std::io;
use std::io::Read;

// A request: its letter, its numbers, and the first four of them, 0 past the last.
#[derive(Clone, Copy)]
pub struct Request<'a> {
    pub letter: u8,
    pub numbers: &'a [usize],
    pub a: usize,
    pub b: usize,
    pub c: usize,
    pub d: usize,
}

// Reads the input until it ends or `input` is full, and answers how many bytes it has.
pub fn read(from: &mut impl Read, input: &mut [u8; 1048576]) -> io::Result<usize>
    ensures { IfOk result (λ n. n ≤ 1048576) }
{
    let mut count = 0;
    while count < 1048576 {
        let more = from.read(&mut input[count..])?;
        if more == 0 {
            return Ok(count);
        }
        count += more;
    }
    Ok(count)
}

// A field with a byte more: a digit goes on with its number, unless that is too large, and another byte replaces it.
fn with_byte(number: usize, byte: u8) -> usize {
    if !byte.is_ascii_digit() {
        return byte as usize;
    }
    let Some(tens) = number.checked_mul(10) else {
        return number;
    };
    tens.wrapping_add((byte - b'0') as usize)
}

// Takes a byte of a line: a space ends the field, another byte is added to it. Answers the field that goes on.
fn take_byte(fields: &mut [usize], field: usize, byte: u8) -> usize {
    if field >= fields.len() {
        return field;
    }
    if byte == b' ' {
        return field + 1;
    }
    fields[field] = with_byte(fields[field], byte);
    field
}

// Fills in the fields, which are 0, of a line, and answers how many numbers there are.
fn fill_fields(line: &[u8], fields: &mut [usize; 4096]) -> usize
    ensures { result ≤ 4095 }
{
    let mut field = 0;
    for &byte in line {
        field = take_byte(fields, field, byte);
    }
    field.min(4095)
}

// Number i, 0 past the last.
fn number_at(numbers: &[usize], i: usize) -> usize {
    numbers.get(i).copied().unwrap_or(0)
}

// The request of a line, whose fields are filled in.
pub fn request_of<'a>(line: &[u8], fields: &'a mut [usize; 4096]) -> Request<'a> {
    let count = fill_fields(line, fields);
    let numbers = &fields[1..=count];
    Request {
        letter: u8::of(fields[0]),
        numbers,
        a: number_at(numbers, 0),
        b: number_at(numbers, 1),
        c: number_at(numbers, 2),
        d: number_at(numbers, 3),
    }
}
