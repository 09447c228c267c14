// The text of the cases: decimal numbers one blank apart, a slice as its length and then its elements. What is read and
// printed is not promised; it is held to the independent program's text.
#![tactic(auto)]

ghost use Rattle.std.specs.Prelude.{◌≤◌, length};

use ground::{Refusal, TableRefusal};
use std::fmt::Display;
use std::io;

// A number as it stands in a slice of a case.
pub trait Element: Copy + Display + PartialEq {
    // The number as an element; the largest one where it is too large.
    fn narrowed(number: u64) -> Self;
}

impl Element for u64 {
    fn narrowed(number: u64) -> u64 {
        number
    }
}

impl Element for u32 {
    fn narrowed(number: u64) -> u32 {
        u32::try_from(number).unwrap_or(u32::MAX)
    }
}

impl Element for u8 {
    fn narrowed(number: u64) -> u8 {
        u8::try_from(number).unwrap_or(u8::MAX)
    }
}

// The value with one digit more. A value that has no room for another digit stays.
fn with_digit(value: u64, digit: u8) -> u64 {
    if value <= u64::MAX / 10 {
        (value * 10).wrapping_add(u64::from(digit))
    } else {
        value
    }
}

// The arguments of the cases that are not read yet.
#[derive(Clone, Copy)]
pub struct Arguments<'a> {
    text: &'a [u8],
}

impl<'a> Arguments<'a> {
    pub fn new(text: &'a [u8]) -> Arguments<'a> {
        Arguments { text }
    }

    // Whether nothing is left to read.
    pub fn is_empty(&self) -> bool {
        self.text.is_empty()
    }

    // The next number, which the first byte that is no digit ends.
    pub fn number(&mut self) -> u64 {
        let text = self.text;
        let mut value = 0;
        for (i, byte) in text.iter().enumerate() {
            if !byte.is_ascii_digit() {
                self.text = &text[i + 1..];
                return value;
            }
            value = with_digit(value, byte - b'0');
        }
        self.text = &[];
        value
    }

    // The next number, as a size.
    pub fn size(&mut self) -> usize {
        self.number() as usize
    }

    // The next slice, put at the front of the lent places, as far as there are places.
    pub fn take<'b, T: Element>(&mut self, places: &'b mut [T]) -> &'b mut [T]
        ensures within { length result.now ≤ length places.old }
    {
        let count = self.size().min(places.len());
        let taken = &mut places[..count];
        for place in taken.iter_mut() {
            *place = T::narrowed(self.number());
        }
        taken
    }
}

// Prints a slice behind other numbers: its length, and then its elements.
pub fn show<T: Element>(rt: &impl Print, list: &[T]) -> io::Result<()> {
    print!(rt; " {}", list.len())?;
    for element in list {
        print!(rt; " {element}")?;
    }
    Ok(())
}

// Prints a refusal.
pub fn show_refusal(rt: &impl Print, r: Refusal) -> io::Result<()> {
    print!(rt; "{} {} {} {} {}", r.number, r.a, r.b, r.c, r.d)
}

// Prints a refusal of a call over several tables, with the table's number behind that of the refusal.
pub fn show_table_refusal(rt: &impl Print, r: TableRefusal) -> io::Result<()> {
    let Refusal { number, a, b, c, d } = r.refusal;
    print!(rt; "{number} {} {a} {b} {c} {d}", r.table)
}

// Prints the answer of a call that gives one number.
pub fn show_answer<T: Display + Drop>(
    rt: &impl Print,
    answer: Result<T, Refusal>,
) -> io::Result<()> {
    match answer {
        Ok(number) => print!(rt; "0 {number}"),
        Err(r) => show_refusal(rt, r),
    }
}

// Prints the answer of a call over several tables that gives one number.
pub fn show_table_answer(rt: &impl Print, answer: Result<usize, TableRefusal>) -> io::Result<()> {
    match answer {
        Ok(number) => print!(rt; "0 {number}"),
        Err(r) => show_table_refusal(rt, r),
    }
}
