// Records of the session file, read at a position and written (rules F2 to F4, F6).
#![tactic(auto)]

ghost use Rattle.std.specs.Prelude.{◌≡◌, true, ◌+◌, ◌*◌, ◌≤◌, get_or, length, take};
ghost use Rattle.std.proofs.lemmas.List.Edits.{sets};
ghost use Rattle.rules.specs.Session.{number, body_lengths, is_within, body_number, read_body, read_record, kind_of, values_of, two_bytes, bytes_of, has_record, write_record};
ghost use Rattle.rules.specs.Meaning.{asked};
ghost use Rattle.session.specs.Session.{lengths_as, read_as, written_as, handles_in, beside, command_of, count_of};

use rules::{Command, Handle, Refusal};

// What stands at a position: a record and the position after it, the file's end, or what is no record.
#[derive(Clone, Copy, PartialEq, Eq)]
pub enum Step {
    Record(Command, usize),
    End,
    Malformed,
}

// The shortest and the longest body of a kind. Kinds stay bytes: they are matched by ranges, as DECISIONS 35 has it.
#[tactic(auto, unfolding(rules::specs::Session::body_lengths, crate::specs::Session::lengths_as))]
fn lengths_of(kind: u8) -> Option<(u16, u16)>
    ensures { lengths_as result ≡ body_lengths kind }
{
    match kind {
        0 | 2 => Some((7, 7)),
        1 | 6..=8 => Some((5, 5)),
        3 | 9 => Some((3, 3)),
        4 => Some((1, 1)),
        5 => Some((3, 9)),
        10..=255 => None,
    }
}

// A body of l bytes has one of a kind's lengths.
#[tactic(auto, unfolding(rules::specs::Session::is_within, crate::specs::Session::lengths_as))]
fn is_within(lengths: Option<(u16, u16)>, l: u16) -> bool
    ensures { result ≡ is_within (lengths_as lengths) l }
{
    lengths.is_some_and(|(low, high)| (low..=high).contains(&l) && l % 2 == 1)
}

// Past the end of the file every byte reads as 0.
fn byte_at(file: &[u8], at: usize) -> u8
    ensures { result ≡ get_or file.now at 0 }
{
    file.get(at).copied().unwrap_or(0)
}

// A number is two bytes, the high one first. The test keeps at + 1 from wrapping round at the largest position.
#[tactic(auto, unfolding(rules::specs::Session::number))]
fn number(file: &[u8], at: usize) -> u16
    ensures { result ≡ number file.now at }
{
    if file.len() <= at {
        return 0;
    }
    let high = byte_at(file, at);
    let low = byte_at(file, at + 1);
    u16::from_be_bytes([high, low])
}

// Number i of a body that starts at b and has k numbers.
#[tactic(auto, unfolding(rules::specs::Session::body_number))]
fn body_number(file: &[u8], b: usize, k: u16, i: u16) -> u16
    requires within { b ≤ length file.now }
    requires from_one { 1 ≤ i }
    ensures { result ≡ body_number file.now b k i }
{
    if k < i {
        return 0;
    }
    number(file, b + 2 * usize::from(i) - 1)
}

// The command of a kind with k numbers, of which a, b, c and d are the first four.
#[tactic(auto, unfolding(crate::specs::Session::command_of, crate::specs::Session::four_handles))]
fn command_of(kind: u8, k: u16, a: u16, b: u16, c: u16, d: u16) -> Command
    ensures { result ≡ command_of kind k a b c d }
{
    match kind {
        0 => Command::SetUp(a, b, c),
        1 => Command::Start(a, b),
        2 => Command::Deliver(a, b, Handle(c)),
        3 => Command::Store(a),
        4 => Command::Nonce,
        5 => Command::List(k, [Handle(a), Handle(b), Handle(c), Handle(d)]),
        6 => Command::Project(Handle(a), b),
        7 => Command::Encrypt(Handle(a), Handle(b)),
        8 => Command::Decrypt(Handle(a), Handle(b)),
        9..=255 => Command::Parse(Handle(a)),
    }
}

// The record of a body whose length its kind has. File, place and length stay apart, as in the rules' `read_body`.
fn record_at(file: &[u8], b: usize, l: u16) -> Step
    requires within { b + l ≤ length file.now }
    requires length { is_within (body_lengths (get_or file.now b 0)) l ≡ true }
    ensures read { read_as result ≡ read_body file.now b l }
    ensures handles { handles_in result ≡ beside (read_body file.now b l) }
{
    let kind = byte_at(file, b);
    let k = l / 2;
    let x = body_number(file, b, k, 1);
    let y = body_number(file, b, k, 2);
    let z = body_number(file, b, k, 3);
    let w = body_number(file, b, k, 4);
    let command = command_of(kind, k, x, y, z, w);
    let next = b + usize::from(l);
    Step::Record(command, next)
}

// A body of l bytes that starts at b.
fn read_body(file: &[u8], b: usize, l: u16) -> Step
    requires { b ≤ length file.now }
    ensures read { read_as result ≡ read_body file.now b l }
    ensures handles { handles_in result ≡ beside (read_body file.now b l) }
{
    if file.len() < b + usize::from(l) {
        return Step::Malformed;
    }
    if !is_within(lengths_of(byte_at(file, b)), l) {
        return Step::Malformed;
    }
    record_at(file, b, l)
}

// What stands at a position of the file.
pub fn read_record(file: &[u8], at: usize) -> Step
    ensures read { read_as result ≡ read_record file.now at }
    ensures handles { handles_in result ≡ beside (read_record file.now at) }
    ensures four { length (handles_in result) ≡ 4 }
{
    if file.len() <= at {
        return Step::End;
    }
    if file.len() < at + 2 {
        return Step::Malformed;
    }
    read_body(file, at + 2, number(file, at))
}

// Only a list can be asked for in a way that has no record.
#[tactic(auto, unfolding(rules::specs::Session::has_record, rules::specs::Meaning::asked))]
fn has_record(c: Command) -> bool
    ensures { result ≡ has_record (asked c) }
{
    match c {
        Command::List(k, handles) => beside::list_is_asked(k, handles),
        _ => true,
    }
}

// The kind of a command's record: a byte, as the rules' `kind_of` has it.
#[tactic(auto, unfolding(rules::specs::Session::kind_of, rules::specs::Meaning::asked))]
fn kind_of(c: Command) -> u8
    ensures { result ≡ kind_of (asked c) }
{
    match c {
        Command::SetUp(..) => 0,
        Command::Start(..) => 1,
        Command::Deliver(..) => 2,
        Command::Store(_) => 3,
        Command::Nonce => 4,
        Command::List(..) => 5,
        Command::Project(..) => 6,
        Command::Encrypt(..) => 7,
        Command::Decrypt(..) => 8,
        Command::Parse(_) => 9,
    }
}

// How many numbers a command's record has.
#[tactic(auto, unfolding(crate::specs::Session::count_of))]
fn count_of(c: Command) -> u16
    ensures { result ≡ count_of c }
{
    match c {
        Command::Nonce => 0,
        Command::Store(_) | Command::Parse(_) => 1,
        Command::Start(..) | Command::Project(..) => 2,
        Command::Encrypt(..) | Command::Decrypt(..) => 2,
        Command::SetUp(..) | Command::Deliver(..) => 3,
        Command::List(k, _) => k,
    }
}

// The numbers of a command's record come first, and make no more than four.
#[tactic(auto, unfolding(crate::specs::Session::count_of, rules::specs::Session::values_of, rules::specs::Meaning::asked, rules::specs::Meaning::beside_at))]
fn values_of(c: Command) -> [u16; 4]
    ensures { take (count_of c) result ≡ values_of (asked c) }
{
    match c {
        Command::SetUp(n, m, k) => [n, m, k, 0],
        Command::Start(u, v) => [u, v, 0, 0],
        Command::Deliver(s, r, h) => [s, r, h.0, 0],
        Command::Store(d) => [d, 0, 0, 0],
        Command::Nonce => [0, 0, 0, 0],
        Command::List(_, handles) => handles.map(|h| h.0),
        Command::Project(h, i) => [h.0, i, 0, 0],
        Command::Encrypt(k, l) => [k.0, l.0, 0, 0],
        Command::Decrypt(k, x) => [k.0, x.0, 0, 0],
        Command::Parse(h) => [h.0, 0, 0, 0],
    }
}

// Two bytes, the high one first.
fn put_number(out: &mut [u8], at: usize, n: u16)
    requires { at + 2 ≤ length out.old }
    ensures { out.new ≡ sets out.old at (two_bytes n) }
{
    out[at..at + 2].copy_from_slice(&n.to_be_bytes());
}

// The numbers of a record, after its length and kind.
#[tactic(auto, using(crate::proofs::Records::put_more), unfolding(rules::specs::Session::bytes_of))]
fn put_numbers(out: &mut [u8], values: &[u16])
    requires { 3 + 2 * length values.now ≤ length out.old }
    ensures { out.new ≡ sets out.old 3 (bytes_of values.now) }
{
    for (i, n) in values.iter().enumerate() {
        put_number(out, 3 + 2 * i, *n);
    }
}

// Writes the record of a command at the start of the output.
pub fn write_record(c: Command, out: &mut [u8]) -> Result<usize, Refusal>
    ensures written { written_as result ≡ (write_record (asked c) out.old).written }
    ensures output { out.new ≡ (write_record (asked c) out.old).output }
{
    if !has_record(c) {
        return Err(Refusal::MALFORMED);
    }
    let n = count_of(c);
    let values = &values_of(c)[..usize::from(n)];
    let size = 3 + 2 * values.len();
    if out.len() < size {
        return Err(Refusal::TOO_SHORT);
    }
    put_number(out, 0, 1 + 2 * n);
    out[2] = kind_of(c);
    put_numbers(out, values);
    Ok(size)
}
