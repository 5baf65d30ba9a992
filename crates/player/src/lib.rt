// Plays a session file: its records in turn on the player's own table, a line for each into a lent output (rules F1, F5 and P4).
#![tactic(auto)]

ghost use Rattle.std.specs.Prelude.{◌≡◌, false, ◌≤◌, length};
ghost use Rattle.rules.specs.WellFormed.{well_formed};
ghost use Rattle.rules.specs.Machine.{perform};
ghost use Rattle.rules.specs.Session.{file_fits, stands_right, items_of};
ghost use Rattle.rules.specs.Player.{lines_from, answers_to, played, most_bytes};
ghost use Rattle.rules.specs.Meaning.{said, asked};
ghost use Rattle.text.specs.Put.{Put};
ghost use Rattle.player.specs.Known.{formed_after};

use rules::{Answer, Command, Refusal, Reply};
use session::Step;

// F5: set-up stands first and only there.
fn stands_right(c: Command, place: usize) -> bool
    ensures { result ≡ stands_right (asked c) place }
{
    machine::is_set_up(c) == (place == 1)
}

// M3 on a table of which it is known whether it is well formed, so that it need not be examined.
fn perform_known(t: &mut [u16], formed: bool, c: Command) -> Answer
    requires { formed ≡ well_formed t.old }
    ensures answer { said result ≡ (perform (asked c) t.old).answer }
    ensures table { t.new ≡ (perform (asked c) t.old).table }
{
    if formed || machine::is_set_up(c) {
        return machine::act(t, c);
    }
    Err(Refusal::NOT_WELL_FORMED)
}

// Whether the table is well formed after an answer: a set-up that isn't refused makes it so, and nothing unmakes it.
#[tactic(auto, unfolding(rules::specs::Meaning::said, crate::specs::Known::formed_after))]
fn formed_after(formed: bool, a: Answer) -> bool
    ensures { result ≡ formed_after formed (said a) }
{
    formed || matches!(a, Ok(Reply::Ready(_)))
}

// The lines of a file's records, on a table that isn't well formed until the set-up has made it so.
fn records(file: &[u8], t: &mut [u16], out: &mut [u8]) -> usize
    requires { well_formed t.old ≡ false }
    ensures { Put out.old 0 (lines_from 1 (answers_to (items_of file.now) t.old)) out.new result }
{
    let mut at: usize = 1;
    let mut place: usize = 1;
    let mut end: usize = 0;
    let mut formed = false;
    // The record says where the next one stands, so this is no walk by an index.
    while at < file.len() {
        match session::read_record(file, at) {
            Step::Record(c, next) => {
                if !stands_right(c, place) {
                    return text::line(out, end, place, Err(Refusal::MALFORMED));
                }
                let a = perform_known(t, formed, c);
                formed = formed_after(formed, a);
                end = text::line(out, end, place, a);
                place += 1;
                at = next;
            }
            Step::End => return end,
            Step::Malformed => return text::line(out, end, place, Err(Refusal::MALFORMED)),
        }
    }
    end
}

// F1: a file has its version byte and at most 65,536 bytes.
#[tactic(auto, unfolding(rules::specs::Session::file_fits, rules::specs::Session::longest_file, rules::specs::Session::file_version))]
fn file_fits(file: &[u8]) -> bool
    ensures { result ≡ file_fits file.now }
{
    (1..=65536).contains(&file.len()) && file[0] == 1
}

// P4: all lines of a file, on a table of the player's own.
pub fn play(file: &[u8], out: &mut [u8]) -> usize
    ensures put { Put out.old 0 (played file.now) out.new result }
    ensures small { length (played file.now) ≤ most_bytes }
{
    if !file_fits(file) {
        return text::line(out, 0, 0, Err(Refusal::MALFORMED));
    }
    let mut table = [0u16; 8208];
    records(file, &mut table, out)
}
