// How a delivered list is read: what an honest participant takes it for (rule N5).
#![tactic(auto)]

ghost use Rattle.std.specs.Prelude.{◌≡◌};
ghost use Rattle.rules.specs.Terms.{is_nonce_of};
ghost use Rattle.rules.specs.Steps.{read_one, read_two, read_more, read_list, is_for, read_message};
ghost use Rattle.messages.specs.Reading.{read_as};

use rules::{Entry, Kind};

// A message that an honest participant takes, with what it answers with.
#[derive(Clone, Copy, PartialEq, Eq)]
pub enum Message {
    First(Entry),
    Second(Entry),
    Third,
}

// Entry e is a nonce that r made for s. Here and below r and s stay arguments, in the rules' order: as fields of one value they would make
// each clause longer.
fn is_nonce_of(t: &[u16], r: u16, s: u16, e: Entry) -> bool
    ensures { result ≡ is_nonce_of t.now r s e.0 }
{
    rows::kind(t, e) == Kind::Nonce as u16 && rows::first(t, e) == r && rows::second(t, e) == s
}

// A list of one element: r's own nonce back ends the exchange.
fn read_one(t: &[u16], r: u16, s: u16, l: Entry) -> Option<Message>
    ensures { read_as result ≡ read_one t.now r s l.0 }
{
    is_nonce_of(t, r, s, Entry(rows::first(t, l))).then_some(Message::Third)
}

// A list of two: anything, with the sender's name.
fn read_two(t: &[u16], r: u16, s: u16, l: Entry) -> Option<Message>
    ensures { read_as result ≡ read_two t.now r s l.0 }
{
    let name = Entry(rows::second(t, l));
    terms::is_datum_of(t, s, name).then_some(Message::First(Entry(rows::first(t, l))))
}

// A list of three or four: r's own nonce, anything, the sender's name.
fn read_more(t: &[u16], r: u16, s: u16, l: Entry) -> Option<Message>
    ensures { read_as result ≡ read_more t.now r s l.0 }
{
    if !is_nonce_of(t, r, s, Entry(rows::first(t, l))) {
        return None;
    }
    let name = Entry(rows::third(t, l));
    terms::is_datum_of(t, s, name).then_some(Message::Second(Entry(rows::second(t, l))))
}

fn read_list(t: &[u16], r: u16, s: u16, l: Entry) -> Option<Message>
    ensures { read_as result ≡ read_list t.now r s l.0 }
{
    match rows::count(t, l) {
        1 => read_one(t, r, s, l),
        2 => read_two(t, r, s, l),
        3 | 4 => read_more(t, r, s, l),
        _ => None,
    }
}

// Entry c is a ciphertext under r's key.
fn is_for(t: &[u16], r: u16, c: Entry) -> bool
    ensures { result ≡ is_for t.now r c.0 }
{
    rows::kind(t, c) == Kind::Ciphertext as u16 && u32::from(rows::first(t, c)) == 2 * u32::from(r)
}

// What r takes the delivered list l for, if s is said to have sent it; nothing where it drops it.
pub fn read_message(t: &[u16], r: u16, s: u16, l: Entry) -> Option<Message>
    ensures { read_as result ≡ read_message t.now r s l.0 }
{
    let c = Entry(rows::first(t, l));
    if !is_for(t, r, c) {
        return None;
    }
    read_list(t, r, s, Entry(rows::second(t, c)))
}
