// Plays the paper's cases. Each is a session file: its records are performed one after another, and printed are the player's line of each,
// then the used entries and what every knower holds. A file of another version has no records, so the player plays it.
#![tactic(auto)]

use session::Step;
use std::io;

// The cases by their numbers, each with its files.
static CASES: [(u16, &[&[u8]]); 11] = [
    // The holdings after set-up: set-up 3 3 64.
    (
        1,
        &[
            b"\x01\
            \x00\x07\x00\x00\x03\x00\x03\x00\x40",
        ],
    ),
    // A start: set-up 3 3 64, start 1 2, parse 5.
    (
        2,
        &[
            b"\x01\
            \x00\x07\x00\x00\x03\x00\x03\x00\x40\
            \x00\x05\x01\x00\x01\x00\x02\
            \x00\x03\x09\x00\x05",
        ],
    ),
    // Who may start: set-up 3 3 64, start 1 1, start 3 1, start 2 3.
    (
        3,
        &[
            b"\x01\
            \x00\x07\x00\x00\x03\x00\x03\x00\x40\
            \x00\x05\x01\x00\x01\x00\x01\
            \x00\x05\x01\x00\x03\x00\x01\
            \x00\x05\x01\x00\x02\x00\x03",
        ],
    ),
    // Room for a start, one entry too few and just enough: set-up 8 1 20, start 1 2; then set-up 8 1 21, start 1 2.
    (
        4,
        &[
            b"\x01\
            \x00\x07\x00\x00\x08\x00\x01\x00\x14\
            \x00\x05\x01\x00\x01\x00\x02",
            b"\x01\
            \x00\x07\x00\x00\x08\x00\x01\x00\x15\
            \x00\x05\x01\x00\x01\x00\x02",
        ],
    ),
    // The wrong key: set-up 3 3 64, start 1 2, project 5 1, decrypt 3 6.
    (
        5,
        &[
            b"\x01\
            \x00\x07\x00\x00\x03\x00\x03\x00\x40\
            \x00\x05\x01\x00\x01\x00\x02\
            \x00\x05\x06\x00\x05\x00\x01\
            \x00\x05\x08\x00\x03\x00\x06",
        ],
    ),
    // A datum is stored once: set-up 3 3 64, store 7, store 7.
    (
        6,
        &[
            b"\x01\
            \x00\x07\x00\x00\x03\x00\x03\x00\x40\
            \x00\x03\x03\x00\x07\
            \x00\x03\x03\x00\x07",
        ],
    ),
    // Places: set-up 3 3 64, start 1 2, project 5 2, project 5 0, project 9 0.
    (
        7,
        &[
            b"\x01\
            \x00\x07\x00\x00\x03\x00\x03\x00\x40\
            \x00\x05\x01\x00\x01\x00\x02\
            \x00\x05\x06\x00\x05\x00\x02\
            \x00\x05\x06\x00\x05\x00\x00\
            \x00\x05\x06\x00\x09\x00\x00",
        ],
    ),
    // Lowe's exchange: set-up 3 3 64, start 1 3, project 5 1, decrypt 3 6, encrypt 2 7, list 8, deliver 1 2 9, deliver 3 1 10, deliver 2 1
    // 10.
    (
        8,
        &[
            b"\x01\
            \x00\x07\x00\x00\x03\x00\x03\x00\x40\
            \x00\x05\x01\x00\x01\x00\x03\
            \x00\x05\x06\x00\x05\x00\x01\
            \x00\x05\x08\x00\x03\x00\x06\
            \x00\x05\x07\x00\x02\x00\x07\
            \x00\x03\x05\x00\x08\
            \x00\x07\x02\x00\x01\x00\x02\x00\x09\
            \x00\x07\x02\x00\x03\x00\x01\x00\x0a\
            \x00\x07\x02\x00\x02\x00\x01\x00\x0a",
        ],
    ),
    // The last participant: set-up 8 255 64, start 1 8, deliver 1 8 9.
    (
        9,
        &[
            b"\x01\
            \x00\x07\x00\x00\x08\x00\xff\x00\x40\
            \x00\x05\x01\x00\x01\x00\x08\
            \x00\x07\x02\x00\x01\x00\x08\x00\x09",
        ],
    ),
    // Another version: a file of one byte, 2.
    (10, &[b"\x02"]),
    // The honest run: set-up 3 3 64, start 1 2, deliver 1 2 5, deliver 2 1 6, deliver 1 2 7.
    (
        11,
        &[
            b"\x01\
            \x00\x07\x00\x00\x03\x00\x03\x00\x40\
            \x00\x05\x01\x00\x01\x00\x02\
            \x00\x07\x02\x00\x01\x00\x02\x00\x05\
            \x00\x07\x02\x00\x02\x00\x01\x00\x06\
            \x00\x07\x02\x00\x01\x00\x02\x00\x07",
        ],
    ),
];

// The lines of a file's records, which follow its version byte. A record has at least 3 bytes, so there are fewer of them than of bytes.
fn lines(rt: &impl Print, t: &mut [u16], file: &[u8]) -> io::Result<()> {
    let mut at: usize = 1;
    for place in 1..file.len() {
        let Step::Record(c, next) = session::read_record(file, at) else {
            break;
        };
        show::line(rt, place, machine::perform(t, c))?;
        at = next;
    }
    Ok(())
}

// What knower 0 and each participant hold.
fn all_holdings(rt: &impl Print, t: &[u16]) -> io::Result<()> {
    for k in 0..=rows::participants(t) {
        show::holdings(rt, t, k)?;
    }
    Ok(())
}

// A run of nines, as long as any of the cases needs: set-up has to write every word of its table.
fn performed(rt: &impl Print, file: &[u8]) -> io::Result<()> {
    let mut t = [9u16; 1040];
    lines(rt, &mut t, file)?;
    show::numbered(rt, b"used", rows::used(&t))?;
    all_holdings(rt, &t)
}

// A whole file through the player; its lines fit, or are left out.
fn played(rt: &impl Print, file: &[u8]) -> io::Result<()> {
    let mut out = [0u8; 100];
    let end = player::play(file, &mut out);
    match out.get(..end) {
        Some(fits) => show::text(rt, fits),
        None => Ok(()),
    }
}

fn main(rt: HostRuntime) -> io::Result<()> {
    for &(number, files) in &CASES {
        show::numbered(&rt, b"case", number)?;
        for &file in files {
            match file {
                [1, ..] => performed(&rt, file)?,
                _ => played(&rt, file)?,
            }
        }
    }
    Ok(())
}
