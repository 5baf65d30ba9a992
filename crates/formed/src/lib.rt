// The check that a table is well formed, on every run of numbers (rules W1 to W11; what each entry has to fit is in `entries_fit`).
#![tactic(auto)]

ghost use Rattle.std.specs.Prelude.{◌≡◌, true, ◌+◌, ◌*◌, ◌≤◌, ◌<◌, eqb};
ghost use Rattle.rules.specs.Choice.{◌or◌, all};
ghost use Rattle.rules.specs.Table.{size, most, row_width, participants, mask, used, spares_fit, in_mask, every_knower};
ghost use Rattle.rules.specs.Handles.{held};
ghost use Rattle.rules.specs.SetUp.{holds_secret_key};
ghost use Rattle.rules.specs.Meaning.{number_of};
ghost use Rattle.rules.specs.WellFormed.{run_is_long, head_fits, used_fits, held_as_named, keys_fit};
ghost use Rattle.rules.specs.WellFormed.{may_hold, handles_fit, well_formed};
ghost use Rattle.formed.specs.Keys.{named_for, is_key_of};
ghost use Rattle.formed.specs.Counts.{Counts, handle_is_below_at, handles_are_below};

use rules::{Entry, Kind};

// The run has the head, and a row for each entry up to its capacity.
#[tactic(auto, using(rules::proofs::Words::most_high, rules::proofs::Formed::words_for_lem, rows::proofs::Places::place_low), unfolding(rules::specs::WellFormed::run_is_long))]
fn run_is_long(t: &[u16]) -> bool
    ensures { result ≡ run_is_long t.now }
{
    let width = rows::row_width(t);
    let entries = width * usize::from(rows::capacity(t));
    width <= t.len() && width + entries <= t.len()
}

// The two words past the next handles are zero.
#[tactic(auto, using(rules::proofs::Words::most_high), unfolding(rules::specs::Table::spares_fit))]
fn spares_fit(t: &[u16]) -> bool
    ensures { result ≡ spares_fit t.now }
{
    let most = rows::most(t);
    rows::word(t, Entry(0), 6 + most) == 0 && rows::word(t, Entry(0), 7 + most) == 0
}

// Each field of the head is in range.
#[tactic(auto, unfolding(rules::specs::WellFormed::head_fits, rules::specs::Table::this_version))]
fn head_fits(t: &[u16]) -> bool
    ensures { result ≡ head_fits t.now }
{
    let version = rows::word(t, Entry(0), 0);
    let n = rows::participants(t);
    version == 1
        && ranges::participants_fit(n)
        && ranges::mask_fits(n, rows::mask(t))
        && ranges::capacity_fits(rows::capacity(t))
        && spares_fit(t)
}

// The keys are used, and no more entries than the capacity.
fn used_fits(t: &[u16]) -> bool
    ensures { result ≡ used_fits t.now }
{
    let used = rows::used(t);
    2 * u32::from(rows::participants(t)) <= u32::from(used) && used <= rows::capacity(t)
}

// Participant p, and whether the mask of the honest has it: looked up once for all knowers.
#[derive(Clone, Copy)]
struct Owner {
    mask: u16,
    p: u16,
    honest: bool,
    ghost asked: { honest ≡ in_mask mask p },
}

impl Owner {
    // An honest participant holds its own secret key, knower 0 any other.
    #[tactic(auto, unfolding(rules::specs::SetUp::holds_secret_key))]
    fn holds_secret_key(self, k: u16) -> bool
        ensures { result ≡ holds_secret_key self.mask self.p k }
    {
        if self.honest { k == self.p } else { k == 0 }
    }

    // Knower k has to hold this participant's key of this type.
    fn is_named(self, kind: Kind, k: u16) -> bool
        ensures { result ≡ named_for (number_of kind) self.mask self.p k }
    {
        if kind == Kind::SecretKey {
            self.holds_secret_key(k)
        } else {
            ranges::holds_public_key(self.mask, k)
        }
    }
}

// Just those knowers hold entry e that set-up names for participant p's key of this type.
fn key_is_held(t: &[u16], kind: Kind, p: u16, e: Entry) -> bool
    ensures { result ≡ every_knower t.now (held_as_named t.now (named_for (number_of kind) (mask t.now) p) e.0) }
{
    let mask = rows::mask(t);
    let owner = Owner {
        mask,
        p,
        honest: people::in_mask(mask, p),
    };
    let knowers = rows::most(t) + 1; // `0..=most` takes twice the instructions here
    for k in 0..knowers {
        if owner.is_named(kind, k) != handles::holds(t, k, e) {
            return false;
        }
    }
    true
}

// Entry e is participant p's key of this type, held by just those that set-up names.
#[tactic(auto, unfolding(crate::specs::Keys::is_key_of))]
fn is_key_of(t: &[u16], kind: Kind, p: u16, e: Entry) -> bool
    ensures { result ≡ is_key_of t.now (number_of kind) p e.0 }
{
    rows::kind(t, e) == kind as u16 && rows::first(t, e) == p && key_is_held(t, kind, p, e)
}

// Participant p's two keys stand at their entries.
fn keys_fit(t: &[u16], p: u16) -> bool
    requires { (1 ≤ p) × (p ≤ most t.now) }
    ensures { result ≡ keys_fit t.now p }
{
    is_key_of(t, Kind::SecretKey, p, Entry(2 * p - 1))
        && is_key_of(t, Kind::PublicKey, p, Entry(2 * p))
}

// The keys of every participant fit.
fn all_keys_fit(t: &[u16]) -> bool
    requires { participants t.now ≤ most t.now }
    ensures { result ≡ all (keys_fit t.now) (participants t.now) }
{
    for p in 1..=rows::participants(t) {
        if !keys_fit(t, p) {
            return false;
        }
    }
    true
}

// Knower 0 and the honest may hold entries.
#[tactic(auto, unfolding(rules::specs::WellFormed::may_hold))]
fn may_hold(t: &[u16], k: u16) -> bool
    ensures { result ≡ may_hold t.now k }
{
    k == 0 || people::honest(t, k)
}

// Counts the handles on the entry after the first e, for each knower; whether each is below its knower's next handle. The walk has no
// way out in its middle, so that several knowers can be compiled into one turn.
fn row_is_counted(t: &[u16], e: u16, held: &mut [u16; 13]) -> bool
    requires { (e < 65535) × (row_width t.now * (e + 1) + row_width t.now ≤ size t.now) × Counts t.now e held.old }
    ensures below { result ≡ every_knower t.now (handle_is_below_at t.now (e + 1)) }
    ensures counts { Counts t.now (e + 1) held.new }
{
    let from = rows::row_width(t) * (usize::from(e) + 1) + 7;
    let handles = usize::from(rows::most(t)) + 1;
    let mut below = true;
    // by index, not by `zip`: after an adapter of `iter_mut` nothing is known of what was written to `held`
    for k in 0..handles {
        let h = t[from + k];
        below &= !(t[5 + k] <= h); // asked as `h < t[5 + k]`, a row takes an instruction more
        held[k] += u16::from(h != 0);
    }
    below
}

// Counts the handles on every used entry. It stops at one with a handle that isn't below its knower's next one.
fn rows_are_counted(t: &[u16], held: &mut [u16; 13]) -> bool
    requires { (row_width t.now * used t.now + row_width t.now ≤ size t.now) × Counts t.now 0 held.old }
    ensures below { result ≡ every_knower t.now (handles_are_below t.now (used t.now)) }
    ensures counts { result ≡ true → Counts t.now (used t.now) held.new }
{
    for e in 0..rows::used(t) {
        if !row_is_counted(t, e, held) {
            return false;
        }
    }
    true
}

// Who may hold no entries holds none.
fn holding_fits(t: &[u16], k: u16, held: u16) -> bool
    ensures { result ≡ may_hold t.now k or eqb held 0 }
{
    may_hold(t, k) || held == 0
}

// Knower k's handles, all of which are below its next one, are n, one fewer than that.
fn handles_fit(t: &[u16], k: u16, n: u16) -> bool
    requires { (n ≡ held t.now k) × (handles_are_below t.now (used t.now) k ≡ true) }
    ensures { result ≡ handles_fit t.now k }
{
    holding_fits(t, k, n) && u32::from(handles::next_handle(t, k).0) == 1 + u32::from(n)
}

// The handles of every knower fit. That the used rows lie in the run is asked by the three functions that count; a type for it would wrap
// the run for them alone.
fn all_handles_fit(t: &[u16]) -> bool
    requires { row_width t.now * used t.now + row_width t.now ≤ size t.now }
    ensures { result ≡ every_knower t.now (handles_fit t.now) }
{
    let mut held = [0u16; 13];
    if !rows_are_counted(t, &mut held) {
        return false;
    }
    let highest = rows::most(t);
    for k in 0..=highest {
        if !handles_fit(t, k, held[usize::from(k)]) {
            return false;
        }
    }
    true
}

// The table is well formed: what every command asks for first.
pub fn well_formed(t: &[u16]) -> bool
    ensures { result ≡ well_formed t.now }
{
    run_is_long(t) // W1
        && head_fits(t) // W2
        && used_fits(t) // W3
        && all_keys_fit(t) // W4
        && entries_fit::entries_fit(t) // W5 to W10
        && all_handles_fit(t) // W11
}
