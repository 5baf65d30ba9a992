// The honest steps, start and deliver: who may act, what is sent, who is granted what (rules N1 to N4, N6 and N7).
#![tactic(auto)]

ghost use Rattle.std.specs.Prelude.{Ok, Err, IfOk, IfErr, true, false, ◌≡◌, [], ◌∷◌, ◌++◌, ◌+◌, ◌-◌, ◌≤◌, ◌<◌, leb, length, take};
ghost use Rattle.rules.specs.Choice.{every};
ghost use Rattle.rules.specs.Table.{capacity, used, arguments};
ghost use Rattle.rules.specs.Terms.{datum, nonce, list, ciphertext, datum_length, nonce_length, ciphertext_length, public_key_of, numbers_of, find_datum};
ghost use Rattle.rules.specs.Handles.{grant_each};
ghost use Rattle.rules.specs.Outcome.{is_short, need_room};
ghost use Rattle.rules.specs.Steps.{may_act, sealed_lengths, send, named_length, named_lengths, send_named, sealed_in, plain_in, answer_second, answer_message, deliver_list, start, deliver};
ghost use Rattle.rules.specs.Meaning.{said, found_at, or_nothing};
ghost use Rattle.rows.specs.Row.{seven};
ghost use Rattle.messages.specs.Reading.{taken_for};
ghost use Rattle.terms.specs.Elements.{numbers};
ghost use Rattle.steps.specs.Sending.{made_at, add_unless, refusal_for};

use messages::Message;
use rows::Term;
use rules::{Answer, Entry, Handle, Kind, Refusal, Reply};

// Who acts, and with whom. The number of the peer's public key, 2 * peer, fits in a word.
#[derive(Clone, Copy)]
struct Pair {
    acting: u16,
    peer: u16,
    ghost fits: { peer < 32768 },
}

impl Pair {
    // Two participants, not the same, of whom the acting one is honest.
    fn new(t: &[u16], acting: u16, peer: u16) -> Result<Self, Refusal>
        ensures pair { IfOk result (λ p. (p.acting ≡ acting) × (p.peer ≡ peer) × (may_act t.now acting peer ≡ true)) }
        ensures refused { IfErr result (λ r. (r.0 ≡ 3) × (may_act t.now acting peer ≡ false)) }
    {
        if people::is_participant(t, acting)
            && people::is_participant(t, peer)
            && acting != peer
            && people::honest(t, acting)
        {
            Ok(Pair { acting, peer })
        } else {
            Err(Refusal::PARTICIPANTS)
        }
    }
}

// The length of a list that can be sealed: the outer list too is short enough.
#[derive(Clone, Copy)]
struct Short {
    len: u16,
    ghost fits: { 2 + (len + 16) ≤ 4095 },
}

impl Short {
    // The list, its ciphertext and the outer list are all short enough.
    #[tactic(auto, unfolding(rules::specs::Choice::every, rules::specs::Outcome::is_short, rules::specs::Steps::sealed_lengths, rules::specs::Terms::list_length, rules::specs::Terms::ciphertext_length, rules::specs::Terms::longest))]
    fn new(len: u32) -> Result<Self, Refusal>
        ensures short { IfOk result (λ s. (s.len ≡ len) × (every is_short (len ∷ sealed_lengths len) ≡ true)) }
        ensures refused { IfErr result (λ r. (r.0 ≡ 9) × (every is_short (len ∷ sealed_lengths len) ≡ false)) }
    {
        match u16::try_from(len) {
            Ok(len) if len <= 4095 && len + 16 <= 4095 && 2 + (len + 16) <= 4095 => {
                Ok(Short { len })
            }
            _ => Err(Refusal::TOO_LONG),
        }
    }
}

// Knower p is granted each of the entries, in order.
fn grant_each(t: &mut [u16], p: u16, entries: &[Entry])
    ensures { t.new ≡ grant_each t.old p (numbers entries.now) }
{
    for &e in entries {
        handles::grant(t, p, e);
    }
}

// The length of a step's list, if the step may go on: the list is short enough and there is room for so many new entries.
fn allowed(t: &[u16], len: u32, needed: u16) -> Result<Short, Refusal>
    ensures short { IfOk result (λ s. (s.len ≡ len) × (Ok tt ≡ refusal_for (every is_short (len ∷ sealed_lengths len)) (leb needed (capacity t.now - used t.now)))) }
    ensures refused { IfErr result (λ r. Err r ≡ refusal_for (every is_short (len ∷ sealed_lengths len)) (leb needed (capacity t.now - used t.now))) }
{
    let short = Short::new(len)?;
    if !room::has_room(t, needed) {
        return Err(Refusal::NO_ROOM);
    }
    Ok(short)
}

// How many new entries a search leaves to be made.
fn missing(found: Option<Entry>) -> u16
    ensures { result + length (found_at found) ≡ 1 }
{
    u16::from(found.is_none())
}

// The entry that was found, or a new one for this term where none was.
fn create_unless(t: &mut [u16], found: Option<Entry>, term: Term) -> Entry
    ensures entry { result.0 ≡ (add_unless (found_at found) t.old (seven term.kind term.count term.args term.len)).entry }
    ensures table { t.new ≡ (add_unless (found_at found) t.old (seven term.kind term.count term.args term.len)).table }
{
    match found {
        Some(e) => e,
        None => terms::create(t, term),
    }
}

// The terms that a step makes. A name is data: the participant's number.
fn datum(p: u16) -> Term
    ensures { seven result.kind result.count result.args result.len ≡ numbers_of (datum p) datum_length }
{
    Term {
        kind: Kind::Data as u16,
        count: 1,
        args: [p, 0, 0, 0],
        len: 2,
    }
}

// A nonce that p makes for q.
fn nonce(p: u16, q: u16) -> Term
    ensures { seven result.kind result.count result.args result.len ≡ numbers_of (nonce p q) nonce_length }
{
    Term {
        kind: Kind::Nonce as u16,
        count: 2,
        args: [p, q, 0, 0],
        len: 8,
    }
}

// A list of one element.
fn alone(x: Entry, len: u16) -> Term
    ensures { seven result.kind result.count result.args result.len ≡ numbers_of (list (x.0 ∷ [])) len }
{
    Term {
        kind: Kind::List as u16,
        count: 1,
        args: [x.0, 0, 0, 0],
        len,
    }
}

// The list of what is repeated, nonce n and name d.
fn named(repeated: Option<Entry>, n: Entry, d: Entry, len: u16) -> Term
    ensures { seven result.kind result.count result.args result.len ≡ numbers_of (list (found_at repeated ++ (n.0 ∷ d.0 ∷ []))) len }
{
    let (count, args) = match repeated {
        Some(x) => (3, [x.0, n.0, d.0, 0]),
        None => (2, [n.0, d.0, 0, 0]),
    };
    Term {
        kind: Kind::List as u16,
        count,
        args,
        len,
    }
}

// The list `inner` of this length under the peer's key.
fn sealed(pair: Pair, inner: Entry, short: Short) -> Term
    ensures { seven result.kind result.count result.args result.len ≡ numbers_of (ciphertext (public_key_of pair.peer) inner.0) (ciphertext_length short.len) }
{
    Term {
        kind: Kind::Ciphertext as u16,
        count: 2,
        args: [2 * pair.peer, inner.0, 0, 0],
        len: short.len + 16,
    }
}

// The acting one's list under the peer's key and the list of that ciphertext, and the grants: to the acting one what it knows by now, what
// it made, and these three; then the outer list to the adversary.
fn send(
    t: &mut [u16],
    pair: Pair,
    known: &[Entry],
    made: &[Entry],
    inner: Entry,
    short: Short,
) -> Reply
    ensures answer { said (Ok result) ≡ (send pair.acting pair.peer (numbers known.now ++ numbers made.now) (made_at inner.0 t.old) short.len).answer }
    ensures table { t.new ≡ (send pair.acting pair.peer (numbers known.now ++ numbers made.now) (made_at inner.0 t.old) short.len).table }
{
    let p = pair.acting;
    let c = terms::create(t, sealed(pair, inner, short));
    let o = terms::create(t, alone(c, 2 + (short.len + 16)));
    grant_each(t, p, known);
    grant_each(t, p, made);
    grant_each(t, p, &[inner, c, o]);
    handles::grant(t, 0, o);
    Reply::Sent(p, pair.peer, handles::handle(t, 0, o))
}

// The length of a list of what is repeated, a nonce and a name.
fn named_length(t: &[u16], repeated: Option<Entry>) -> u32
    ensures { result ≡ named_length t.now (found_at repeated) }
{
    let repeated = repeated.map_or(0, |x| u32::from(rows::length(t, x)));
    2 + (repeated + 8 + 2)
}

// The acting one sends its peer what is repeated, a new nonce and its own name, if all of it is short enough and has room.
fn send_named(t: &mut [u16], pair: Pair, known: &[Entry], repeated: Option<Entry>) -> Answer
    ensures answer { said result ≡ (need_room t.old (named_lengths t.old pair.acting (found_at repeated)) (send_named t.old pair.acting pair.peer (numbers known.now) (found_at repeated))).answer }
    ensures table { t.new ≡ (need_room t.old (named_lengths t.old pair.acting (found_at repeated)) (send_named t.old pair.acting pair.peer (numbers known.now) (found_at repeated))).table }
{
    let len = named_length(t, repeated);
    let name = terms::find_datum(t, pair.acting);
    let short = allowed(t, len, 4 + missing(name))?;
    let n = terms::create(t, nonce(pair.acting, pair.peer));
    let d = create_unless(t, name, datum(pair.acting));
    let inner = terms::create(t, named(repeated, n, d, short.len));
    Ok(send(t, pair, known, &[n, d], inner, short))
}

// The acting one sends x2 back, alone, if all of it is short enough and has room.
fn answer_second(t: &mut [u16], pair: Pair, known: &[Entry], x2: Entry) -> Answer
    ensures answer { said result ≡ (answer_second t.old pair.acting pair.peer (numbers known.now) x2.0).answer }
    ensures table { t.new ≡ (answer_second t.old pair.acting pair.peer (numbers known.now) x2.0).table }
{
    let len = 2 + u32::from(rows::length(t, x2));
    let found = terms::find_list(t, 1, [x2, Entry(0), Entry(0), Entry(0)]);
    let short = allowed(t, len, 2 + missing(found))?;
    let inner = create_unless(t, found, alone(x2, short.len));
    Ok(send(t, pair, known, &[], inner, short))
}

// u begins an exchange with v.
pub fn start(t: &mut [u16], u: u16, v: u16) -> Answer
    ensures answer { said result ≡ (start t.old u v).answer }
    ensures table { t.new ≡ (start t.old u v).table }
{
    let pair = Pair::new(t, u, v)?;
    send_named(t, pair, &[], None)
}

// What the one who opens the list l comes to know: l, the ciphertext in it, the list in that, and the first three elements. Of these three
// as many count as the list has.
fn opened(t: &[u16], l: Entry) -> [Entry; 6]
    ensures { numbers result ≡ l.0 ∷ sealed_in t.now l.0 ∷ plain_in t.now l.0 ∷ take 3 (arguments t.now (plain_in t.now l.0)) }
{
    let c = Entry(rows::first(t, l));
    let plain = Entry(rows::second(t, c));
    let x1 = Entry(rows::first(t, plain));
    let x2 = Entry(rows::second(t, plain));
    let x3 = Entry(rows::third(t, plain));
    [l, c, plain, x1, x2, x3]
}

// The acting one answers what it took the list l of its peer for.
fn answer_message(t: &mut [u16], pair: Pair, l: Entry, message: Message) -> Answer
    ensures answer { said result ≡ (answer_message t.old pair.acting pair.peer l.0 (taken_for message)).answer }
    ensures table { t.new ≡ (answer_message t.old pair.acting pair.peer l.0 (taken_for message)).table }
{
    let all = opened(t, l);
    let count = rows::count(t, all[2]).min(3);
    let known = &all[..3 + usize::from(count)];
    match message {
        Message::First(x1) => send_named(t, pair, known, Some(x1)),
        Message::Second(x2) => answer_second(t, pair, known, x2),
        Message::Third => {
            grant_each(t, pair.acting, known);
            Ok(Reply::Accepted(pair.acting, pair.peer))
        }
    }
}

// The acting one takes the list l for a message of its peer, or drops it.
fn deliver_list(t: &mut [u16], pair: Pair, l: Entry) -> Answer
    ensures answer { said result ≡ (deliver_list t.old pair.peer pair.acting l.0).answer }
    ensures table { t.new ≡ (deliver_list t.old pair.peer pair.acting l.0).table }
{
    if rows::kind(t, l) != Kind::List as u16 {
        return Err(Refusal::WRONG_TYPE);
    }
    let Some(message) = messages::read_message(t, pair.acting, pair.peer, l) else {
        return Ok(Reply::Dropped);
    };
    answer_message(t, pair, l, message)
}

// r is handed the list that the adversary's handle h names, as if s had sent it.
pub fn deliver(t: &mut [u16], s: u16, r: u16, h: Handle) -> Answer
    ensures answer { said result ≡ (deliver t.old s r h.0).answer }
    ensures table { t.new ≡ (deliver t.old s r h.0).table }
{
    let pair = Pair::new(t, r, s)?;
    let l = handles::entry_of(t, 0, h).ok_or(Refusal::NOT_HELD)?;
    deliver_list(t, pair, l)
}
