// The machine: set-up and any command, on any run of numbers (rules M1 to M3). `perform`, and the nine commands by name, test the table
// first; `act`, for a table that its owner knows to be well formed, doesn't.
#![tactic(auto)]

ghost use Rattle.std.specs.Prelude.{◌≡◌};
ghost use Rattle.rules.specs.Machine.{step, perform, untested, Start, Deliver, Store, Nonce, MakeList, Project, Encrypt, Decrypt, Parse};
ghost use Rattle.rules.specs.Meaning.{said, asked, beside_at};
ghost use Rattle.machine.specs.SetUps.{is_set_up};

use rules::{Answer, Command, Handle, Refusal};

// M3: a command asks for a set-up.
#[tactic(auto, unfolding(rules::specs::Meaning::asked, crate::specs::SetUps::is_set_up))]
pub fn is_set_up(c: Command) -> bool
    ensures { result ≡ is_set_up (asked c) }
{
    matches!(c, Command::SetUp(_, _, _))
}

// M2, M3: what is asked for, the table's form not being tested.
#[tactic(auto, using(crate::proofs::Acting::parse_table), unfolding(rules::specs::Meaning::asked, rules::specs::Machine::untested, rules::specs::Machine::act))]
pub fn act(t: &mut [u16], c: Command) -> Answer
    ensures answer { said result ≡ (untested (asked c) t.old).answer }
    ensures table { t.new ≡ (untested (asked c) t.old).table }
{
    match c {
        Command::SetUp(n, mask, capacity) => set_up::set_up(t, n, mask, capacity),
        Command::Start(u, v) => steps::start(t, u, v),
        Command::Deliver(s, r, h) => steps::deliver(t, s, r, h),
        Command::Store(d) => commands::store(t, d),
        Command::Nonce => commands::nonce(t),
        Command::List(count, handles) => commands::list(t, count, handles),
        Command::Project(h, place) => commands::project(t, h, place),
        Command::Encrypt(key, list) => commands::encrypt(t, key, list),
        Command::Decrypt(key, ciphertext) => commands::decrypt(t, key, ciphertext),
        Command::Parse(h) => commands::parse(t, h),
    }
}

// M3: what is asked for; M2: a request on a table that isn't well formed is refused with 1.
pub fn perform(t: &mut [u16], c: Command) -> Answer
    ensures answer { said result ≡ (perform (asked c) t.old).answer }
    ensures table { t.new ≡ (perform (asked c) t.old).table }
{
    if is_set_up(c) {
        return act(t, c);
    }
    if !formed::well_formed(t) {
        return Err(Refusal::NOT_WELL_FORMED); // whatever is asked
    }
    act(t, c)
}

// M2: each command by its name. They differ in the command alone, and each promises its own step of the rules.
#[tactic(auto, unfolding(rules::specs::Meaning::asked, rules::specs::Machine::perform))]
pub fn start(t: &mut [u16], u: u16, v: u16) -> Answer
    ensures answer { said result ≡ (step (Start u v) t.old).answer }
    ensures table { t.new ≡ (step (Start u v) t.old).table }
{
    perform(t, Command::Start(u, v))
}

#[tactic(auto, unfolding(rules::specs::Meaning::asked, rules::specs::Machine::perform))]
pub fn deliver(t: &mut [u16], s: u16, r: u16, h: Handle) -> Answer
    ensures answer { said result ≡ (step (Deliver s r h.0) t.old).answer }
    ensures table { t.new ≡ (step (Deliver s r h.0) t.old).table }
{
    perform(t, Command::Deliver(s, r, h))
}

#[tactic(auto, unfolding(rules::specs::Meaning::asked, rules::specs::Machine::perform))]
pub fn store(t: &mut [u16], d: u16) -> Answer
    ensures answer { said result ≡ (step (Store d) t.old).answer }
    ensures table { t.new ≡ (step (Store d) t.old).table }
{
    perform(t, Command::Store(d))
}

#[tactic(auto, unfolding(rules::specs::Meaning::asked, rules::specs::Machine::perform))]
pub fn nonce(t: &mut [u16]) -> Answer
    ensures answer { said result ≡ (step Nonce t.old).answer }
    ensures table { t.new ≡ (step Nonce t.old).table }
{
    perform(t, Command::Nonce)
}

#[tactic(auto, unfolding(rules::specs::Meaning::asked, rules::specs::Machine::perform))]
pub fn list(t: &mut [u16], count: u16, handles: [Handle; 4]) -> Answer
    ensures answer { said result ≡ (step (MakeList count (beside_at handles 0) (beside_at handles 1) (beside_at handles 2) (beside_at handles 3)) t.old).answer }
    ensures table { t.new ≡ (step (MakeList count (beside_at handles 0) (beside_at handles 1) (beside_at handles 2) (beside_at handles 3)) t.old).table }
{
    perform(t, Command::List(count, handles))
}

#[tactic(auto, unfolding(rules::specs::Meaning::asked, rules::specs::Machine::perform))]
pub fn project(t: &mut [u16], h: Handle, place: u16) -> Answer
    ensures answer { said result ≡ (step (Project h.0 place) t.old).answer }
    ensures table { t.new ≡ (step (Project h.0 place) t.old).table }
{
    perform(t, Command::Project(h, place))
}

#[tactic(auto, unfolding(rules::specs::Meaning::asked, rules::specs::Machine::perform))]
pub fn encrypt(t: &mut [u16], key: Handle, list: Handle) -> Answer
    ensures answer { said result ≡ (step (Encrypt key.0 list.0) t.old).answer }
    ensures table { t.new ≡ (step (Encrypt key.0 list.0) t.old).table }
{
    perform(t, Command::Encrypt(key, list))
}

#[tactic(auto, unfolding(rules::specs::Meaning::asked, rules::specs::Machine::perform))]
pub fn decrypt(t: &mut [u16], key: Handle, ciphertext: Handle) -> Answer
    ensures answer { said result ≡ (step (Decrypt key.0 ciphertext.0) t.old).answer }
    ensures table { t.new ≡ (step (Decrypt key.0 ciphertext.0) t.old).table }
{
    perform(t, Command::Decrypt(key, ciphertext))
}

// The table that parse is lent can't be changed, so it makes the test itself.
pub fn parse(t: &[u16], h: Handle) -> Answer
    ensures { said result ≡ (step (Parse h.0) t.now).answer }
{
    if !formed::well_formed(t) {
        return Err(Refusal::NOT_WELL_FORMED);
    }
    commands::parse(t, h)
}
