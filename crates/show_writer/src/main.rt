// The writer as a program, to be compared with another: each request on standard input, twelve bytes, becomes eighteen bytes on standard
// output. A request is a kind byte, a list's count, four numbers, the high byte first, and how many bytes are lent, 0 to 16. The answer is
// an output of sixteen bytes of which so many were lent, then 0 and how many were written, or 1 and the refusal.
#![tactic(auto)]

use rules::{Command, Handle};
use std::io::{self, Read};

// What is asked to be written. A count and a fourth number are a list's alone. It isn't taken from the reader, so that the comparison leans
// on the writer alone; so the bytes of the kinds stand here once more.
fn command(r: [u8; 12]) -> Command {
    let k = u16::from_be_bytes([r[1], r[2]]);
    let a = u16::from_be_bytes([r[3], r[4]]);
    let b = u16::from_be_bytes([r[5], r[6]]);
    let c = u16::from_be_bytes([r[7], r[8]]);
    let d = u16::from_be_bytes([r[9], r[10]]);
    match r[0] {
        0 => Command::SetUp(a, b, c),
        1 => Command::Start(a, b),
        2 => Command::Deliver(a, b, Handle(c)),
        3 => Command::Store(a),
        4 => Command::Nonce,
        5 => Command::List(k, [Handle(a), Handle(b), Handle(c), Handle(d)]),
        6 => Command::Project(Handle(a), b),
        7 => Command::Encrypt(Handle(a), Handle(b)),
        8 => Command::Decrypt(Handle(a), Handle(b)),
        9..=255 => Command::Parse(Handle(a)),
    }
}

fn tell(rt: &impl Print, how: u8, n: u8) -> io::Result<()> {
    rt.write_all(&[how, n])
}

fn answer(rt: &impl Print, r: [u8; 12]) -> io::Result<()> {
    let mut out = [165u8; 16];
    let room = usize::from(r[11] % 17);
    let written = session::write_record(command(r), &mut out[..room]);
    rt.write_all(&out)?;
    // Both numbers are small; their contracts don't bound them, and the remainder fits a byte.
    match written {
        Ok(n) => tell(rt, 0, (n % 256) as u8),
        Err(refusal) => tell(rt, 1, (refusal.0 % 256) as u8),
    }
}

// A million requests at most, up to the first that isn't whole.
fn main(rt: HostRuntime) -> io::Result<()> {
    let mut input = rt.stdin();
    for _ in 0..1_000_000u32 {
        let mut r = [0u8; 12];
        if input.read_exact(&mut r).is_err() {
            break;
        }
        answer(&rt, r)?;
    }
    Ok(())
}
