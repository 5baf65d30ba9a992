// What a set-up takes and a head may hold: the ranges of participants, mask and capacity, and who is to hold the public keys (rules S1 and
// S2). Each is a rule's own test, alike as two of them look.
#![tactic(auto)]

ghost use Rattle.std.specs.Prelude.{◌≡◌};
ghost use Rattle.rules.specs.Table.{this_version, most_of};
ghost use Rattle.rules.specs.SetUp.{participants_fit, mask_fits, capacity_fits, holds_public_key};

// The highest participant that a table of the version that set-up writes has room for.
pub fn new_most() -> u16
    ensures { result ≡ most_of this_version }
{
    8
}

#[tactic(auto, unfolding(rules::specs::SetUp::participants_fit))]
pub fn participants_fit(n: u16) -> bool
    ensures { result ≡ participants_fit n }
{
    (2..=new_most()).contains(&n)
}

// A mask has no bit past the last participant's: shifted past them, nothing of it is left.
pub fn mask_fits(n: u16, m: u16) -> bool
    ensures { result ≡ mask_fits n m }
{
    m.checked_shr(u32::from(n)).unwrap_or(0) == 0
}

#[tactic(auto, unfolding(rules::specs::SetUp::capacity_fits))]
pub fn capacity_fits(c: u16) -> bool
    ensures { result ≡ capacity_fits c }
{
    (16..=512).contains(&c)
}

// Knower k is to hold the public keys: the adversary, and each honest participant.
#[tactic(auto, unfolding(rules::specs::SetUp::holds_public_key))]
pub fn holds_public_key(m: u16, k: u16) -> bool
    ensures { result ≡ holds_public_key m k }
{
    k == 0 || people::in_mask(m, k)
}
