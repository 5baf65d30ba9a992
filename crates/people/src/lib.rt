// Who is a participant, and who is honest (rule T4).
#![tactic(auto)]

ghost use Rattle.std.specs.Prelude.{◌≡◌};
ghost use Rattle.rules.specs.Table.{in_mask, is_participant, honest};

// Bit p - 1 of a mask, which has none past a word's last.
pub fn in_mask(mask: u16, p: u16) -> bool
    ensures { result ≡ in_mask mask p }
{
    p != 0 && mask.checked_shr(u32::from(p - 1)).unwrap_or(0) % 2 == 1
}

// p is a participant of the table, and one that its form has room for.
#[tactic(auto, unfolding(rules::specs::Table::is_participant))]
pub fn is_participant(t: &[u16], p: u16) -> bool
    ensures { result ≡ is_participant t.now p }
{
    1 <= p && p <= rows::participants(t) && p <= rows::most(t)
}

#[tactic(auto, unfolding(rules::specs::Table::honest))]
pub fn honest(t: &[u16], p: u16) -> bool
    ensures { result ≡ honest t.now p }
{
    is_participant(t, p) && in_mask(rows::mask(t), p)
}
