// What a C host calls: a whole session, and one record on the host's own table (rules K1 and K2). The crate `bench_calls_c` exports both.
#![tactic(auto)]

ghost use Rattle.std.specs.Prelude.{◌≡◌, ◌++◌, length, replicate, drop, ◌≤◌};
ghost use Rattle.rules.specs.Player.{played, most_bytes};
ghost use Rattle.rules.specs.Calls.{play_into, perform_into, four_numbers};
ghost use Rattle.rules.specs.Meaning.{said};

use rules::{Answer, Refusal, Reply};
use session::Step;

// K1: plays a session for a C host. An output of most_bytes is always long enough.
pub fn bench_play(session: &[u8], out: &mut [u8]) -> u32
    ensures value { result ≡ (play_into session.now out.old).result }
    ensures output { out.new ≡ (play_into session.now out.old).output }
    ensures small { length (played session.now) ≤ most_bytes }
{
    let end = player::play(session, out);
    if end <= out.len() {
        return end as u32;
    }
    out.fill(0);
    u32::MAX
}

// K2: an answer as four numbers.
#[tactic(auto, unfolding(rules::specs::Meaning::said, rules::specs::Calls::four_numbers))]
fn four_numbers(a: Answer) -> [u16; 4]
    ensures { result ≡ four_numbers (said a) }
{
    match a {
        Ok(Reply::Ready(u)) => [1, u, 0, 0],
        Ok(Reply::Sent(p, q, h)) => [2, p, q, h.0],
        Ok(Reply::Accepted(p, q)) => [3, p, q, 0],
        Ok(Reply::Dropped) => [4, 0, 0, 0],
        Ok(Reply::Handle(h)) => [5, h.0, 0, 0],
        Ok(Reply::Parsed(y, v, l)) => [6, y, v, l],
        Err(refusal) => [7, refusal.0, 0, 0],
    }
}

// K2: performs one record on the host's table. C is told a refusal of the record by its number.
pub fn bench_perform(bytes: &[u8], table: &mut [u16], answer: &mut [u16]) -> u32
    ensures value { result ≡ (perform_into bytes.now table.old answer.old).result }
    ensures table_after { table.new ≡ (perform_into bytes.now table.old answer.old).table }
    ensures answer_after { answer.new ≡ (perform_into bytes.now table.old answer.old).output }
{
    let Step::Record(c, next) = session::read_record(bytes, 0) else {
        return Refusal::MALFORMED.0 as u32;
    };
    if next != bytes.len() {
        return Refusal::MALFORMED.0 as u32;
    }
    if answer.len() < 4 {
        return Refusal::TOO_SHORT.0 as u32;
    }
    let a = machine::perform(table, c);
    answer[..4].copy_from_slice(&four_numbers(a));
    0
}
