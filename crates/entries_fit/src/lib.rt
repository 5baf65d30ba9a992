// What every used entry of a well-formed table has: type, count, arguments and length that fit each other (rules W5 to W10).
#![tactic(auto)]

ghost use Rattle.std.specs.Prelude.{◌≡◌, ◌*◌, ◌<◌, ◌≤◌, ◌∷◌, [], map};
ghost use Rattle.rules.specs.Choice.{all, every, sum_of};
ghost use Rattle.rules.specs.Table.{participants, used, type_at, count_at, arguments, length_at, word};
ghost use Rattle.rules.specs.Terms.{elements, term_at, length_of};
ghost use Rattle.rules.specs.WellFormed.{is_later_type, type_fits, count_of, count_fits, unused_are_zero, nonce_fits, is_earlier, may_be_element};
ghost use Rattle.rules.specs.WellFormed.{list_fits, is_key_place, ciphertext_fits, length_fits, entry_fits};

use rules::{Entry, Kind};

// The types that an entry after the keys may have: data, nonce, list, ciphertext.
fn is_later_type(kind: u16) -> bool
    ensures { result ≡ is_later_type kind }
{
    (Kind::Data as u16..=Kind::Ciphertext as u16).contains(&kind)
}

// The count of a type whose count is fixed: two for a nonce and a ciphertext.
fn count_of(kind: u16) -> u16
    ensures { result ≡ count_of kind }
{
    if kind == Kind::Nonce as u16 || kind == Kind::Ciphertext as u16 {
        2
    } else {
        1
    }
}

// x stands before e.
fn is_earlier(e: Entry, x: Entry) -> bool
    ensures { result ≡ is_earlier e.0 x.0 }
{
    (1..e.0).contains(&x.0)
}

// The seven numbers of an entry. They are read one by one, each with a test of the end, only where the end of the run cuts the row.
fn numbers(t: &[u16], e: Entry) -> [u16; 7]
    ensures { result ≡ map (word t.now e.0) (0 ∷ 1 ∷ 2 ∷ 3 ∷ 4 ∷ 5 ∷ 6 ∷ []) }
{
    let from = rows::row_width(t) * usize::from(e.0);
    match t.get(from..from + 7) {
        Some([kind, count, first, second, third, fourth, length]) => [
            *kind, *count, *first, *second, *third, *fourth, *length,
        ],
        _ => [0, 1, 2, 3, 4, 5, 6].map(|k| rows::word(t, e, k)),
    }
}

// An entry with its numbers. They are read once; each rule takes them from here.
#[derive(Clone, Copy)]
struct Examined<'a> {
    t: &'a [u16],
    n: u16,
    e: Entry,
    kind: u16,
    count: u16,
    args: [u16; 4],
    length: u16,
    ghost participants: { n ≡ participants t.now },
    ghost kinds: { kind ≡ type_at t.now e.0 },
    ghost counts: { count ≡ count_at t.now e.0 },
    ghost arguments: { args ≡ arguments t.now e.0 },
    ghost lengths: { length ≡ length_at t.now e.0 },
}

impl<'a> Examined<'a> {
    // The participants n are read once for all entries: read for each they take a twentieth more of a tested command.
    fn new(t: &'a [u16], n: u16, e: Entry) -> Self
        requires { n ≡ participants t.now }
        ensures table { result.t.now ≡ t.now }
        ensures entry { result.e.0 ≡ e.0 }
    {
        let [kind, count, first, second, third, fourth, length] = numbers(t, e);
        let args = [first, second, third, fourth];
        Examined {
            t,
            n,
            e,
            kind,
            count,
            args,
            length,
        }
    }

    // The entry of the last key: there are two keys for each participant.
    fn last_key(&self) -> u32
        ensures { result ≡ 2 * participants self.now.t.now }
    {
        2 * u32::from(self.n)
    }

    fn type_fits(&self) -> bool
        ensures { result ≡ type_fits self.now.t.now self.now.e.0 }
    {
        u32::from(self.e.0) <= self.last_key() || is_later_type(self.kind)
    }

    fn count_fits(&self) -> bool
        ensures { result ≡ count_fits self.now.t.now self.now.e.0 }
    {
        if self.kind == Kind::List as u16 {
            (1..=4).contains(&self.count)
        } else {
            self.count == count_of(self.kind)
        }
    }

    // The arguments past the count are zero. This walk and those of elements go over the array; slices cut from it at the count miss the bar
    // of speed.
    fn unused_are_zero(&self) -> bool
        ensures { result ≡ unused_are_zero self.now.t.now self.now.e.0 }
    {
        let count = usize::from(self.count);
        self.args
            .iter()
            .enumerate()
            .all(|(i, &x)| i < count || x == 0)
    }

    // A nonce's owner and partner are at most n.
    fn nonce_fits(&self) -> bool
        ensures { result ≡ nonce_fits self.now.t.now self.now.e.0 }
    {
        self.kind != Kind::Nonce as u16 || self.args[0] <= self.n && self.args[1] <= self.n
    }

    // A list's element is an earlier entry and no secret key.
    fn may_be_element(&self, x: Entry) -> bool
        ensures { result ≡ may_be_element self.now.t.now self.now.e.0 x.0 }
    {
        is_earlier(self.e, x) && rows::kind(self.t, x) != Kind::SecretKey as u16
    }

    fn list_fits(&self) -> bool
        ensures { result ≡ list_fits self.now.t.now self.now.e.0 }
    {
        self.kind != Kind::List as u16
            || self
                .args
                .iter()
                .take(usize::from(self.count))
                .all(|&x| self.may_be_element(Entry(x)))
    }

    // x is the place of a public key.
    fn is_key_place(&self, x: u16) -> bool
        ensures { result ≡ is_key_place self.now.t.now x }
    {
        x >= 1 && u32::from(x) <= self.last_key() && x % 2 == 0
    }

    // A ciphertext names the entry of a public key and an earlier list.
    fn ciphertext_fits(&self) -> bool
        ensures { result ≡ ciphertext_fits self.now.t.now self.now.e.0 }
    {
        let list = Entry(self.args[1]);
        self.kind != Kind::Ciphertext as u16
            || self.is_key_place(self.args[0])
                && is_earlier(self.e, list)
                && rows::kind(self.t, list) == Kind::List as u16
    }

    // The sum of the lengths of the entry's elements.
    fn lengths_of_elements(&self) -> u32
        ensures sum { result ≡ sum_of (length_at self.now.t.now) (elements self.now.t.now self.now.e.0) }
        ensures small { result < 262144 }
    {
        self.args
            .iter()
            .take(usize::from(self.count))
            .map(|&x| u32::from(rows::length(self.t, Entry(x))))
            .sum()
    }

    // The length of the entry's term, by its type.
    fn length_of(&self) -> u32
        ensures { result ≡ length_of self.now.t.now (term_at self.now.t.now self.now.e.0) }
    {
        match Kind::try_from(self.kind) {
            Ok(Kind::Data) => 2,
            Ok(Kind::Nonce) => 8,
            Ok(Kind::List) => 2 + self.lengths_of_elements(),
            Ok(Kind::Ciphertext) => u32::from(rows::length(self.t, Entry(self.args[1]))) + 16,
            Ok(Kind::SecretKey) => 0,
            Ok(Kind::PublicKey) => 32,
            Err(_) => 0,
        }
    }

    fn length_fits(&self) -> bool
        ensures { result ≡ length_fits self.now.t.now self.now.e.0 }
    {
        u32::from(self.length) == self.length_of() && self.length <= 4095
    }

    fn fits(&self) -> bool
        ensures { result ≡ entry_fits self.now.t.now self.now.e.0 }
    {
        self.type_fits() // W5
            && self.count_fits() // W6
            && self.unused_are_zero() // W7
            && self.nonce_fits() // W8
            && self.list_fits() // W9, of lists
            && self.ciphertext_fits() // W9, of ciphertexts
            && self.length_fits() // W10
    }
}

// Each used entry fits.
pub fn entries_fit(t: &[u16]) -> bool
    ensures { result ≡ all (entry_fits t.now) (used t.now) }
{
    let n = rows::participants(t);
    let used = rows::used(t);
    for e in 1..=used {
        if !Examined::new(t, n, Entry(e)).fits() {
            return false;
        }
    }
    true
}
