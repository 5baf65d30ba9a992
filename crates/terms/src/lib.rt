// Terms: a new entry, and the lowest entry that is a given datum or list (rules T9 and T10).
#![tactic(auto)]

ghost use Rattle.std.specs.Prelude.{◌≡◌, ◌<◌, min, take};
ghost use Rattle.rules.specs.Terms.{new_entry, add_entry, is_datum_of, find_datum, find_list};
ghost use Rattle.rules.specs.Meaning.{found_at, or_nothing};
ghost use Rattle.rows.specs.Row.{seven};
ghost use Rattle.terms.specs.Elements.{numbers, sure_place, sure_number};

use rows::{Sought, Term};
use rules::{Entry, Kind};

// A new entry for a term, held by nobody; its number.
pub fn create(t: &mut [u16], term: Term) -> Entry
    ensures entry { result.0 ≡ new_entry t.old }
    ensures table { t.new ≡ add_entry t.old (seven term.kind term.count term.args term.len) }
{
    let used = rows::used(t);
    let n = handles::raised(used);
    rows::write_entry(t, Entry(n), term);
    rows::put(t, Entry(0), 4, n);
    Entry(n)
}

// Entry e is data of value d.
pub fn is_datum_of(t: &[u16], d: u16, e: Entry) -> bool
    ensures { result ≡ is_datum_of t.now d e.0 }
{
    rows::kind(t, e) == Kind::Data as u16 && rows::first(t, e) == d
}

// The lowest data entry of value d.
pub fn find_datum(t: &[u16], d: u16) -> Option<Entry>
    ensures { found_at result ≡ or_nothing (find_datum t.now d) }
{
    let sought = Sought {
        k: 2,
        v: d,
        j: 0,
        w: Kind::Data as u16,
    };
    rows::next_with(t, Entry(0), sought)
}

// The place of a word that all lists of `count` elements with x at place i, from 0, have alike: the element's, or the type's.
fn sure_place(count: u16, i: u16) -> u16
    requires { i < 4 }
    ensures { result ≡ sure_place count i }
{
    if i < count { 2 + i } else { 0 }
}

// The number that stands there.
fn sure_number(count: u16, i: u16, x: Entry) -> u16
    ensures { result ≡ sure_number count i x.0 }
{
    if i < count { x.0 } else { Kind::List as u16 }
}

// The lowest list entry with just the first `count` of these elements. Only entries are looked at that the first two of them don't rule
// out.
pub fn find_list(t: &[u16], count: u16, elements: [Entry; 4]) -> Option<Entry>
    ensures { found_at result ≡ or_nothing (find_list t.now (take count (numbers elements))) }
{
    let wanted = count.min(4);
    let sought = Sought {
        k: sure_place(count, 0),
        v: sure_number(count, 0, elements[0]),
        j: sure_place(count, 1),
        w: sure_number(count, 1, elements[1]),
    };
    let mut e = Entry(0);
    // The form that DECISIONS 30 names.
    let found = 'scan: loop {
        let Some(candidate) = rows::next_with(t, e, sought) else {
            break 'scan None;
        };
        e = candidate;
        if rows::kind(t, e) != Kind::List as u16 {
            continue 'scan;
        }
        if rows::count(t, e).min(4) != wanted {
            continue 'scan;
        }
        for k in 0..wanted {
            if Entry(rows::word(t, e, 2 + k)) != elements[k as usize] {
                continue 'scan;
            }
        }
        break 'scan Some(e);
    };
    found
}
