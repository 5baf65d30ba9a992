// The player program: a session file on standard input, its lines on standard output.
#![tactic(auto)]

ghost use Rattle.std.specs.Prelude.{◌≡◌, ◌≤◌, length};

use std::io::{self, Read};

// A function, since in `main` the proof would take an array of 677,215 numbers apart.
fn zeros<const N: usize>() -> [u8; N]
    ensures { length result ≡ N }
{
    [0; N]
}

// One byte more than a file may have, so that a longer one shows.
fn input() -> [u8; 65537]
    ensures { 65537 ≡ length result }
{
    zeros()
}

// As many bytes as the lines of any file can have.
fn output() -> [u8; 677215]
    ensures { 677215 ≡ length result }
{
    zeros()
}

// Fills the buffer from its start as far as the input goes, and says how far. Input that can't be read counts as ended there.
// A loop, since `read_exact` doesn't say how far it came and `read_to_end` takes a heap.
fn read_full(from: &mut impl Read, buf: &mut [u8]) -> usize
    ensures { result ≤ length buf.new }
{
    let mut done = 0;
    while done < buf.len() {
        match from.read(&mut buf[done..]) {
            Ok(n) if 0 < n => done += n,
            _ => break,
        }
    }
    done
}

// Lines that can't be written are told on standard error.
fn main(rt: HostRuntime) -> io::Result<()> {
    let mut file = input();
    let n = read_full(&mut rt.stdin(), &mut file);
    let mut out = output();
    let end = bench_calls::bench_play(&file[..n], &mut out) as usize;
    rt.write_all(&out[..end])
}
