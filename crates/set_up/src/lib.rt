// Set-up: what it takes, the empty table, and the participants' keys with their grants (rules S1 to S3 and M3).
#![tactic(auto)]

ghost use Rattle.std.specs.Prelude.{[], ◌∷◌, ◌≡◌, ◌++◌, ◌+◌, ◌≤◌, replicate, drop};
ghost use Rattle.std.proofs.lemmas.List.Edits.{sets};
ghost use Rattle.rules.specs.Table.{size, this_version, most_of, most, words_for};
ghost use Rattle.rules.specs.SetUp.{set_up_fits, holds_public_key, empty_table, grant_named, add_keys, add_all_keys};
ghost use Rattle.rules.specs.Machine.{set_up};
ghost use Rattle.rules.specs.Meaning.{said, number_of};
ghost use Rattle.set_up.specs.Holder.{secret_holder};

use rows::Term;
use rules::{Answer, Entry, Kind, Refusal, Reply};

// ---- what it takes
// The numbers of a table of the version that set-up writes, with this capacity.
#[tactic(auto, unfolding(rules::specs::Table::words_for, rules::specs::Table::most_of, rules::specs::Table::this_version))]
fn words_for(c: u16) -> usize
    ensures { result ≡ words_for this_version c }
{
    let width = 8 + usize::from(ranges::new_most());
    width + width * usize::from(c)
}

#[tactic(auto, unfolding(rules::specs::SetUp::set_up_fits))]
fn set_up_fits(t: &[u16], n: u16, m: u16, c: u16) -> bool
    ensures { result ≡ set_up_fits t.now n m c }
{
    ranges::participants_fit(n)
        && ranges::mask_fits(n, m)
        && ranges::capacity_fits(c)
        && words_for(c) <= t.len()
}

// ---- the empty table
// Makes the numbers of a table of this capacity zero.
fn clear_table(t: &mut [u16], c: u16)
    requires { words_for this_version c ≤ size t.old }
    ensures { t.new ≡ replicate (words_for this_version c) 0 ++ drop (words_for this_version c) t.old }
{
    t[..words_for(c)].fill(0);
}

// Writes 1 for each knower's next handle, by `put`: only `rows` knows where they lie.
#[tactic(auto, using(crate::proofs::Emptying::turns))]
fn first_handles(t: &mut [u16])
    ensures { t.new ≡ sets t.old 5 (replicate (1 + most_of this_version) 1) }
{
    for k in 0..=ranges::new_most() {
        rows::put(t, Entry(0), 5 + k, 1);
    }
}

fn empty_table(t: &mut [u16], n: u16, m: u16, c: u16)
    requires { words_for this_version c ≤ size t.old }
    ensures { t.new ≡ empty_table t.old n m c }
{
    clear_table(t, c);
    rows::put(t, Entry(0), 0, 1);
    rows::put(t, Entry(0), 1, n);
    rows::put(t, Entry(0), 2, m);
    rows::put(t, Entry(0), 3, c);
    first_handles(t);
}

// ---- the keys
// Who is to hold participant p's secret key: p if it is honest, else the adversary.
#[tactic(auto, unfolding(crate::specs::Holder::secret_holder))]
fn secret_holder(m: u16, p: u16) -> u16
    ensures { result ≡ secret_holder m p }
{
    if people::in_mask(m, p) { p } else { 0 }
}

// Entry e, a public key, to those that are to hold it.
#[tactic(auto, using(crate::proofs::Granting::turns))]
fn grant_public(t: &mut [u16], m: u16, e: Entry)
    ensures { t.new ≡ grant_named t.old (holds_public_key m) e.0 (most t.old) }
{
    for k in 0..=rows::most(t) {
        if ranges::holds_public_key(m, k) {
            handles::grant(t, k, e);
        }
    }
}

// Participant p's key of a type.
fn key_of(kind: Kind, p: u16, len: u16) -> Term
    ensures { result ≡ record { kind = number_of kind; count = 1; args = p ∷ 0 ∷ 0 ∷ 0 ∷ []; len = len } }
{
    Term {
        kind: kind as u16,
        count: 1,
        args: [p, 0, 0, 0],
        len,
    }
}

// Participant p's secret key, then its public key, each with its grants.
fn add_keys(t: &mut [u16], m: u16, p: u16)
    ensures { t.new ≡ add_keys t.old m p }
{
    let secret = terms::create(t, key_of(Kind::SecretKey, p, 0));
    handles::grant(t, secret_holder(m, p), secret);
    let public = terms::create(t, key_of(Kind::PublicKey, p, 32));
    grant_public(t, m, public);
}

// The keys of participants 1 to n.
#[tactic(auto, using(crate::proofs::Keys::turns))]
fn add_all_keys(t: &mut [u16], m: u16, n: u16)
    ensures { t.new ≡ add_all_keys t.old m n }
{
    for p in 1..=n {
        add_keys(t, m, p);
    }
}

// Makes the run a table of n participants, with this mask of the honest and this capacity; refusal 2 if they or the run don't fit.
pub fn set_up(t: &mut [u16], n: u16, mask: u16, capacity: u16) -> Answer
    ensures answer { said result ≡ (set_up n mask capacity t.old).answer }
    ensures table { t.new ≡ (set_up n mask capacity t.old).table }
{
    if !set_up_fits(t, n, mask, capacity) {
        return Err(Refusal::SET_UP);
    }
    empty_table(t, n, mask, capacity);
    add_all_keys(t, mask, n);
    Ok(Reply::Ready(rows::used(t)))
}
