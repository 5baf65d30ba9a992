// Printing for the programs that show a table: numbers, rows, holdings and the lines of answers, on standard output.
#![tactic(auto)]

use rules::{Answer, Entry, Handle};
use std::io;

pub fn text(rt: &impl Print, w: &[u8]) -> io::Result<()> {
    rt.write_all(w)
}

// A number after a space.
pub fn number(rt: &impl Print, n: u16) -> io::Result<()> {
    print!(rt; " {n}")
}

// The entries that knower k's handles from 1 name, up to the first handle that names none.
pub fn holdings(rt: &impl Print, t: &[u16], k: u16) -> io::Result<()> {
    print!(rt; "knower {k}:")?;
    for h in 1..1000u16 {
        let Some(e) = handles::entry_of(t, k, Handle(h)) else {
            break;
        };
        number(rt, e.0)?;
    }
    println!(rt)
}

// The numbers of row e.
pub fn row(rt: &impl Print, t: &[u16], e: u16) -> io::Result<()> {
    let width = 8 + rows::most(t);
    for k in 0..width {
        number(rt, rows::word(t, Entry(e), k))?;
    }
    println!(rt)
}

// The first rows of a table, so many of them.
pub fn table(rt: &impl Print, t: &[u16], count: u16) -> io::Result<()> {
    for e in 0..count {
        row(rt, t, e)?;
    }
    Ok(())
}

// A word, a number and the end of the line.
pub fn numbered(rt: &impl Print, w: &[u8], n: u16) -> io::Result<()> {
    text(rt, w)?;
    println!(rt; " {n}")
}

// The player's line of an answer to the record at a place. It fits for the places that a file has; a longer one is left out.
pub fn line(rt: &impl Print, place: usize, a: Answer) -> io::Result<()> {
    let mut out = [0u8; 31];
    let end = text::line(&mut out, 0, place, a);
    match out.get(..end) {
        Some(fits) => text(rt, fits),
        None => Ok(()),
    }
}
