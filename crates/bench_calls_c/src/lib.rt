// The static library that a C host links: the two calls of `bench_calls` under their names in C, with the same clauses. host/bench.h is
// their contract for C.
#![tactic(auto)]

ghost use Rattle.std.specs.Prelude.{◌≡◌, ◌≤◌, length};
ghost use Rattle.rules.specs.Player.{played, most_bytes};
ghost use Rattle.rules.specs.Calls.{play_into, perform_into};

// K1: plays a session for a C host. An output of most_bytes is always long enough.
#[unsafe(no_mangle)]
pub extern "C" fn bench_play(session: &[u8], out: &mut [u8]) -> u32
    ensures value { result ≡ (play_into session.now out.old).result }
    ensures output { out.new ≡ (play_into session.now out.old).output }
    ensures small { length (played session.now) ≤ most_bytes }
{
    bench_calls::bench_play(session, out)
}

// K2: performs one record on the host's table.
#[unsafe(no_mangle)]
pub extern "C" fn bench_perform(bytes: &[u8], table: &mut [u16], answer: &mut [u16]) -> u32
    ensures value { result ≡ (perform_into bytes.now table.old answer.old).result }
    ensures table_after { table.new ≡ (perform_into bytes.now table.old answer.old).table }
    ensures answer_after { answer.new ≡ (perform_into bytes.now table.old answer.old).output }
{
    bench_calls::bench_perform(bytes, table, answer)
}
