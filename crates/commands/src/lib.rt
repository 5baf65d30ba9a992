// The adversary's commands, on any run of numbers: whether the table is well formed isn't tested here (rules C1 to C7).
#![tactic(auto)]

ghost use Rattle.std.specs.Prelude.{◌≡◌, true, false, ◌++◌, map, ◌≤◌, take, length, replicate, MatchOption};
ghost use Rattle.rules.specs.Choice.{◌and◌, every, sum_of};
ghost use Rattle.rules.specs.Table.{length_at};
ghost use Rattle.rules.specs.Handles.{entry_of, holds_handle};
ghost use Rattle.rules.specs.Commands.{store, new_nonce, may_be_listed, make_list_of, make_list, is_place, project_of, project, encrypt_of, encrypt, decrypt_of, decrypt, value_of, parse};
ghost use Rattle.rules.specs.Meaning.{said};
ghost use Rattle.terms.specs.Elements.{numbers};
ghost use Rattle.beside.specs.Beside.{numbers_beside};

use rules::{Answer, Entry, Handle, Kind, Refusal, Reply};

// C1: the datum's entry, or a new one.
pub fn store(t: &mut [u16], d: u16) -> Answer
    ensures answer { said result ≡ (store t.old d).answer }
    ensures table { t.new ≡ (store t.old d).table }
{
    match terms::find_datum(t, d) {
        Some(e) => Ok(room::give(t, e)),
        None => room::give_new(t, Kind::Data as u16, 1, [d, 0, 0, 0], 2),
    }
}

// C2: a nonce that no participant made.
pub fn nonce(t: &mut [u16]) -> Answer
    ensures answer { said result ≡ (new_nonce t.old).answer }
    ensures table { t.new ≡ (new_nonce t.old).table }
{
    room::give_new(t, Kind::Nonce as u16, 2, [0; 4], 8)
}

// The entries that knower 0's first `count` handles name, with zeros after them; nothing if it doesn't hold all of them.
fn look_up(t: &[u16], count: u16, handles: [Handle; 4]) -> Option<[Entry; 4]>
    requires { count ≤ 4 }
    ensures { let hs = take count (numbers_beside handles) in
        let held = every (holds_handle t.now 0) hs in
        MatchOption result (held ≡ false) (λ es. (held ≡ true) × (numbers es ≡ take 4 (map (entry_of t.now 0) hs ++ replicate 4 0))) }
{
    let mut entries = [Entry(0); 4];
    for (i, &h) in handles[..usize::from(count)].iter().enumerate() {
        entries[i] = handles::entry_of(t, 0, h)?;
    }
    Some(entries)
}

// The entries that two handles name; nothing if knower 0 doesn't hold both. The second is looked up only where the first is held.
fn look_up_two(t: &[u16], a: Handle, b: Handle) -> Option<(Entry, Entry)>
    ensures { let held = holds_handle t.now 0 a.0 and holds_handle t.now 0 b.0 in
        MatchOption result (held ≡ false) (λ es. (held ≡ true) × (entry_of t.now 0 a.0 ≡ es.0.0) × (entry_of t.now 0 b.0 ≡ es.1.0)) }
{
    Some((handles::entry_of(t, 0, a)?, handles::entry_of(t, 0, b)?))
}

// None of these entries is a secret key.
fn may_be_listed(t: &[u16], elements: &[Entry]) -> bool
    ensures { result ≡ every (may_be_listed t.now) (numbers elements.now) }
{
    elements
        .iter()
        .all(|&e| rows::kind(t, e) != Kind::SecretKey as u16)
}

// The lengths of up to four entries together.
fn sum_of_lengths(t: &[u16], elements: &[Entry]) -> u32
    requires { length elements.now ≤ 4 }
    ensures sum { result ≡ sum_of (length_at t.now) (numbers elements.now) }
    ensures small { result ≤ 262140 }
{
    elements
        .iter()
        .map(|&e| u32::from(rows::length(t, e)))
        .sum()
}

// The list of the first `count` entries, after which there are zeros: the one that is there, or a new one.
fn make_list_of(t: &mut [u16], count: u16, elements: [Entry; 4]) -> Answer
    requires count { count ≤ 4 }
    requires elements { numbers elements ≡ take 4 (take count (numbers elements) ++ replicate 4 0) }
    ensures answer { said result ≡ (make_list_of t.old (take count (numbers elements))).answer }
    ensures table { t.new ≡ (make_list_of t.old (take count (numbers elements))).table }
{
    // Written twice: no array is copied while a part of it is lent.
    if !may_be_listed(t, &elements[..usize::from(count)]) {
        return Err(Refusal::WRONG_TYPE);
    }
    if let Some(e) = terms::find_list(t, count, elements) {
        return Ok(room::give(t, e));
    }
    let len = 2 + sum_of_lengths(t, &elements[..usize::from(count)]);
    room::give_new(t, Kind::List as u16, count, elements.map(|e| e.0), len)
}

// C3: the list of what `count` handles name.
pub fn list(t: &mut [u16], count: u16, handles: [Handle; 4]) -> Answer
    ensures answer { said result ≡ (make_list t.old count (numbers_beside handles)).answer }
    ensures table { t.new ≡ (make_list t.old count (numbers_beside handles)).table }
{
    if !beside::list_is_asked(count, handles) {
        return Err(Refusal::OUT_OF_FOUR);
    }
    let entries = look_up(t, count, handles).ok_or(Refusal::NOT_HELD)?;
    make_list_of(t, count, entries)
}

// The place of a list is one of its four. No twin of `capacity_fits` or `is_later_type`: each is a rule of its own.
fn is_place(place: u16) -> bool
    ensures { result ≡ is_place place }
{
    (1..=4).contains(&place)
}

// The element at the place of an entry that is a list.
fn project_of(t: &mut [u16], e: Entry, place: u16) -> Answer
    requires { place ≤ 4 }
    ensures answer { said result ≡ (project_of t.old e.0 place).answer }
    ensures table { t.new ≡ (project_of t.old e.0 place).table }
{
    if rows::kind(t, e) != Kind::List as u16 {
        return Err(Refusal::WRONG_TYPE);
    }
    if rows::count(t, e) < place {
        return Err(Refusal::BEYOND_COUNT);
    }
    let element = rows::word(t, e, 1 + place);
    Ok(room::give(t, Entry(element)))
}

// C4: the element of a list at a place.
pub fn project(t: &mut [u16], h: Handle, place: u16) -> Answer
    ensures answer { said result ≡ (project t.old h.0 place).answer }
    ensures table { t.new ≡ (project t.old h.0 place).table }
{
    if !is_place(place) {
        return Err(Refusal::OUT_OF_FOUR);
    }
    let e = handles::entry_of(t, 0, h).ok_or(Refusal::NOT_HELD)?;
    project_of(t, e, place)
}

// The list sealed under a key that is public.
fn encrypt_of(t: &mut [u16], key: Entry, list: Entry) -> Answer
    ensures answer { said result ≡ (encrypt_of t.old key.0 list.0).answer }
    ensures table { t.new ≡ (encrypt_of t.old key.0 list.0).table }
{
    if rows::kind(t, key) != Kind::PublicKey as u16 || rows::kind(t, list) != Kind::List as u16 {
        return Err(Refusal::WRONG_TYPE);
    }
    let len = u32::from(rows::length(t, list)) + 16;
    room::give_new(t, Kind::Ciphertext as u16, 2, [key.0, list.0, 0, 0], len)
}

// C5: a new ciphertext of a list under a public key.
pub fn encrypt(t: &mut [u16], key: Handle, list: Handle) -> Answer
    ensures answer { said result ≡ (encrypt t.old key.0 list.0).answer }
    ensures table { t.new ≡ (encrypt t.old key.0 list.0).table }
{
    let (key, list) = look_up_two(t, key, list).ok_or(Refusal::NOT_HELD)?;
    encrypt_of(t, key, list)
}

// The list of a ciphertext whose public key stands right after the secret one.
fn decrypt_of(t: &mut [u16], key: Entry, ciphertext: Entry) -> Answer
    ensures answer { said result ≡ (decrypt_of t.old key.0 ciphertext.0).answer }
    ensures table { t.new ≡ (decrypt_of t.old key.0 ciphertext.0).table }
{
    if rows::kind(t, key) != Kind::SecretKey as u16
        || rows::kind(t, ciphertext) != Kind::Ciphertext as u16
    {
        return Err(Refusal::WRONG_TYPE);
    }
    if u32::from(rows::first(t, ciphertext)) != u32::from(key.0) + 1 {
        return Err(Refusal::WRONG_KEY);
    }
    let list = rows::second(t, ciphertext);
    Ok(room::give(t, Entry(list)))
}

// C6: the list of a ciphertext, by the secret key. One function for C5 and C6 would take a closure and save a line.
pub fn decrypt(t: &mut [u16], key: Handle, ciphertext: Handle) -> Answer
    ensures answer { said result ≡ (decrypt t.old key.0 ciphertext.0).answer }
    ensures table { t.new ≡ (decrypt t.old key.0 ciphertext.0).table }
{
    let (key, ciphertext) = look_up_two(t, key, ciphertext).ok_or(Refusal::NOT_HELD)?;
    decrypt_of(t, key, ciphertext)
}

// What parse tells of an entry beside its type and length.
fn value_of(t: &[u16], e: Entry) -> u16
    ensures { result ≡ value_of t.now e.0 }
{
    let Ok(kind) = Kind::try_from(rows::kind(t, e)) else {
        return 0;
    };
    match kind {
        Kind::Data | Kind::SecretKey | Kind::PublicKey => rows::first(t, e),
        Kind::List => rows::count(t, e),
        Kind::Ciphertext => {
            let key = rows::first(t, e);
            handles::handle(t, 0, Entry(key)).0
        }
        Kind::Nonce => 0,
    }
}

// C7: an entry's type, value and length; nothing is written.
pub fn parse(t: &[u16], h: Handle) -> Answer
    ensures { said result ≡ (parse t.now h.0).answer }
{
    let e = handles::entry_of(t, 0, h).ok_or(Refusal::NOT_HELD)?;
    let kind = rows::kind(t, e);
    let value = value_of(t, e);
    Ok(Reply::Parsed(kind, value, rows::length(t, e)))
}
