// The types that the code's crates share. What each value means in the machine's own numbers is said in specs/Meaning.antt.
#![tactic(auto)]

ghost use Rattle.rules.specs.Meaning.{Names};

// The number of an entry of the table. Entries count from 1.
#[derive(Clone, Copy, PartialEq, Eq)]
pub struct Entry(pub u16);

// A knower's name for an entry. Only a look-up in the table turns one into an Entry.
#[derive(Clone, Copy, PartialEq, Eq)]
pub struct Handle(pub u16);

// The types of a term, in the order of their numbers (rule T5). A run that isn't well formed may have other numbers there.
#[derive(Clone, Copy, PartialEq, Eq)]
pub enum Kind {
    Data = 1,
    Nonce = 2,
    List = 3,
    Ciphertext = 4,
    SecretKey = 5,
    PublicKey = 6,
}

// A number that is no type's.
#[derive(Clone, Copy, PartialEq, Eq)]
pub struct NoKind;

impl TryFrom<u16> for Kind {
    type Error = NoKind;

    ghost try_from_gives = { Names };

    fn try_from(n: u16) -> Result<Self, NoKind> {
        match n {
            1 => Ok(Kind::Data),
            2 => Ok(Kind::Nonce),
            3 => Ok(Kind::List),
            4 => Ok(Kind::Ciphertext),
            5 => Ok(Kind::SecretKey),
            6 => Ok(Kind::PublicKey),
            _ => Err(NoKind),
        }
    }
}

// What a set-up or a command that isn't refused gives.
#[derive(Clone, Copy, PartialEq, Eq)]
pub enum Reply {
    Ready(u16),
    Sent(u16, u16, Handle),
    Accepted(u16, u16),
    Dropped,
    Handle(Handle),
    Parsed(u16, u16, u16),
}

// Why something is refused, by its number. It is no enum, since a line is promised for whatever number a caller of `text::line` has.
#[derive(Clone, Copy, PartialEq, Eq)]
pub struct Refusal(pub u16);

impl Refusal {
    // The table isn't well formed.
    pub const NOT_WELL_FORMED: Refusal = Refusal(1);
    // Set-up: a number is out of range, or the run too short.
    pub const SET_UP: Refusal = Refusal(2);
    // Who acts isn't an honest participant, or the other one is none, or the same.
    pub const PARTICIPANTS: Refusal = Refusal(3);
    // A list of none or over four, or with an unused argument that isn't zero; a place of none of the four.
    pub const OUT_OF_FOUR: Refusal = Refusal(4);
    // The adversary doesn't hold the handle.
    pub const NOT_HELD: Refusal = Refusal(5);
    // The entry has the wrong type.
    pub const WRONG_TYPE: Refusal = Refusal(6);
    // The place is beyond the list's count.
    pub const BEYOND_COUNT: Refusal = Refusal(7);
    // The key doesn't fit the ciphertext.
    pub const WRONG_KEY: Refusal = Refusal(8);
    // A new entry would be longer than the longest.
    pub const TOO_LONG: Refusal = Refusal(9);
    // More new entries are needed than have room.
    pub const NO_ROOM: Refusal = Refusal(10);
    // The session file or the record is malformed.
    pub const MALFORMED: Refusal = Refusal(11);
    // The caller's output is too short.
    pub const TOO_SHORT: Refusal = Refusal(12);
}

// The answer to a set-up or a command.
pub type Answer = Result<Reply, Refusal>;

// Set-up and the nine commands. A list has its count and four handles; what C3 doesn't take of them is refused with 4.
#[derive(Clone, Copy, PartialEq, Eq)]
pub enum Command {
    SetUp(u16, u16, u16),
    Start(u16, u16),
    Deliver(u16, u16, Handle),
    Store(u16),
    Nonce,
    List(u16, [Handle; 4]),
    Project(Handle, u16),
    Encrypt(Handle, Handle),
    Decrypt(Handle, Handle),
    Parse(Handle),
}
