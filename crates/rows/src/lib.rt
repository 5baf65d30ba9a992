// The lent run as rows of numbers: row 0 is the head, row e is entry e (rules T1 to T3). Reads past the end give 0, writes
// there do nothing. A word is widened by `as`, with which a proof computes.
#![tactic(auto)]

ghost use Rattle.std.specs.Prelude.{◌≡◌, ◌++◌, ◌+◌, ◌*◌, ◌<◌, ◌≤◌, eqb, length, get_or, replicate};
ghost use Rattle.rules.specs.Choice.{◌and◌};
ghost use Rattle.rules.specs.Table.{most, row_width, word, put, with_row, participants, mask, capacity, used, type_at, count_at, argument, length_at};
ghost use Rattle.rules.specs.Meaning.{found_at, or_nothing};
ghost use Rattle.rows.specs.Row.{seven, filled};
ghost use Rattle.rows.specs.Search.{has_both, next_with, Passes};

use rules::Entry;

// The highest participant that the table's form has room for.
pub fn most(t: &[u16]) -> u16
    ensures { result ≡ most t.now }
{
    8
}

// The numbers of a row.
pub fn row_width(t: &[u16]) -> usize
    ensures { result ≡ row_width t.now }
{
    8 + most(t) as usize
}

// Word k of row e.
pub fn word(t: &[u16], e: Entry, k: u16) -> u16
    ensures { result ≡ word t.now e.0 k }
{
    let width = row_width(t);
    let row = e.0 as usize;
    let at = width * row + k as usize;
    t.get(at).copied().unwrap_or(0)
}

// Writes v to word k of row e.
pub fn put(t: &mut [u16], e: Entry, k: u16, v: u16)
    ensures { t.new ≡ put t.old e.0 k v }
{
    let width = row_width(t);
    let row = e.0 as usize;
    let at = width * row + k as usize;
    // A test and a store: after a `get_mut` a proof knows none of the words.
    if at < t.len() {
        t[at] = v;
    }
}

// What an entry keeps of a term: its type, how many of its arguments count, these, and its length.
#[derive(Clone, Copy, PartialEq, Eq)]
pub struct Term {
    pub kind: u16,
    pub count: u16,
    pub args: [u16; 4],
    pub len: u16,
}

// Writes a term's seven numbers to a row that has room for them, and zeros after them.
fn write_row(row: &mut [u16], term: Term)
    ensures { row.new ≡ filled (seven term.kind term.count term.args term.len) row.old }
{
    if row.len() < 7 {
        return;
    }
    row.fill(0);
    let [first, second, third, fourth] = term.args;
    row[..7].copy_from_slice(&[
        term.kind, term.count, first, second, third, fourth, term.len,
    ]);
}

// Writes a term to entry e, held by nobody: the entry's numbers are lent on as a part of the run.
pub fn write_entry(t: &mut [u16], e: Entry, term: Term)
    ensures { t.new ≡ with_row t.old e.0 (seven term.kind term.count term.args term.len ++ replicate (1 + most t.old) 0) }
{
    let width = row_width(t);
    let row = e.0 as usize;
    let from = width * row;
    let to = from + width;
    if to <= t.len() {
        write_row(&mut t[from..to], term);
    }
}

// The fields of the head (rule T2). One function for each: its clause is the rule's definition of that name.
pub fn participants(t: &[u16]) -> u16
    ensures { result ≡ participants t.now }
{
    word(t, Entry(0), 1)
}

pub fn mask(t: &[u16]) -> u16
    ensures { result ≡ mask t.now }
{
    word(t, Entry(0), 2)
}

pub fn capacity(t: &[u16]) -> u16
    ensures { result ≡ capacity t.now }
{
    word(t, Entry(0), 3)
}

pub fn used(t: &[u16]) -> u16
    ensures { result ≡ used t.now }
{
    word(t, Entry(0), 4)
}

// The fields of an entry (rule T3). One function for each, as for the head.
pub fn kind(t: &[u16], e: Entry) -> u16
    ensures { result ≡ type_at t.now e.0 }
{
    word(t, e, 0)
}

pub fn count(t: &[u16], e: Entry) -> u16
    ensures { result ≡ count_at t.now e.0 }
{
    word(t, e, 1)
}

// The arguments by place.
pub fn first(t: &[u16], e: Entry) -> u16
    ensures { result ≡ argument t.now e.0 1 }
{
    word(t, e, 2)
}

pub fn second(t: &[u16], e: Entry) -> u16
    ensures { result ≡ argument t.now e.0 2 }
{
    word(t, e, 3)
}

pub fn third(t: &[u16], e: Entry) -> u16
    ensures { result ≡ argument t.now e.0 3 }
{
    word(t, e, 4)
}

pub fn length(t: &[u16], e: Entry) -> u16
    ensures { result ≡ length_at t.now e.0 }
{
    word(t, e, 6)
}

// What a search is for: an entry with v as its word k and w as its word j.
#[derive(Clone, Copy, PartialEq, Eq)]
pub struct Sought {
    pub k: u16,
    pub v: u16,
    pub j: u16,
    pub w: u16,
}

// The row that starts at this place, in the run, is one that is sought. A search asks this at each turn, so the bounds aren't tested again.
fn has_both_at(t: &[u16], at: usize, s: Sought) -> bool
    requires { (at + s.k < length t.now) × (at + s.j < length t.now) }
    ensures { result ≡ eqb (get_or t.now (at + s.k) 0) s.v and eqb (get_or t.now (at + s.j) 0) s.w }
{
    t[at + s.k as usize] == s.v && t[at + s.j as usize] == s.w
}

// Entry e is one that is sought.
fn has_both(t: &[u16], e: Entry, s: Sought) -> bool
    ensures { result ≡ has_both t.now s.k s.v s.j s.w e.0 }
{
    word(t, e, s.k) == s.v && word(t, e, s.j) == s.w
}

// The search in a run that ends before its last used entry: word by word, past the end they are 0.
fn next_by_word(t: &[u16], e: Entry, s: Sought) -> Option<Entry>
    ensures { found_at result ≡ or_nothing (next_with t.now e.0 s.k s.v s.j s.w) }
{
    for below in e.0..used(t) {
        let x = Entry(below + 1);
        if has_both(t, x, s) {
            return Some(x);
        }
    }
    None
}

// The search goes on from a row's place by four rows a turn, not past the place `last`. It stops before a row that has v as its word k, or
// where fewer than four are left. By one row a turn it misses the bar of docs/SPEED.md, and so does an iterator.
fn pass_fours(t: &[u16], from: usize, k: u16, v: u16, last: usize) -> usize
    requires { (from ≤ 20 * 65536 + length t.now) × (last + k < length t.now) }
    ensures further { from ≤ result }
    ensures passes { Passes t.now k v from result }
{
    let width = row_width(t);
    let mut at = from;
    while at + 4 * width <= last {
        let a = at + width;
        let b = a + width;
        let c = b + width;
        let d = c + width;
        if t[a + k as usize] == v {
            return at;
        }
        if t[b + k as usize] == v {
            return a;
        }
        if t[c + k as usize] == v {
            return b;
        }
        if t[d + k as usize] == v {
            return c;
        }
        at = d;
    }
    at
}

// The lowest used entry above e that is sought. Entries are gone through by the places where their rows start, quickly by the first of the
// two words; the place is no count of turns, since `pass_fours` moves it too.
pub fn next_with(t: &[u16], e: Entry, s: Sought) -> Option<Entry>
    ensures { found_at result ≡ or_nothing (next_with t.now e.0 s.k s.v s.j s.w) }
{
    let width = row_width(t);
    let last = width * used(t) as usize;
    if t.len() <= last + s.k.max(s.j) as usize {
        return next_by_word(t, e, s);
    }
    let row = e.0;
    let mut at = pass_fours(t, width * row as usize, s.k, s.v, last);
    while at < last {
        at += width;
        if has_both_at(t, at, s) {
            return Some(Entry((at / width) as u16));
        }
        at = pass_fours(t, at, s.k, s.v, last);
    }
    None
}
