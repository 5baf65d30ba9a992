// What every command that makes or gives entries shares: the room for new entries, and an entry given to knower 0 (rules R2 and R3).
#![tactic(auto)]

ghost use Rattle.std.specs.Prelude.{Ok, ◌≡◌, [], ◌∷◌, leb, ◌-◌};
ghost use Rattle.rules.specs.Table.{capacity, used};
ghost use Rattle.rules.specs.Terms.{new_entry, add_entry};
ghost use Rattle.rules.specs.Outcome.{need_room, gives_handle};
ghost use Rattle.rules.specs.Meaning.{said};
ghost use Rattle.rows.specs.Row.{seven};

use rows::Term;
use rules::{Answer, Entry, Refusal, Reply};

// So many new entries have room.
pub fn has_room(t: &[u16], needed: u16) -> bool
    ensures { result ≡ leb needed (capacity t.now - used t.now) }
{
    needed <= rows::capacity(t).saturating_sub(rows::used(t))
}

// Entry e is granted to knower 0, and its handle there is the answer.
pub fn give(t: &mut [u16], e: Entry) -> Reply
    ensures answer { said (Ok result) ≡ (gives_handle t.old e.0).answer }
    ensures table { t.new ≡ (gives_handle t.old e.0).table }
{
    handles::grant(t, 0, e);
    Reply::Handle(handles::handle(t, 0, e))
}

// A new entry of these numbers, if it is short enough and has room. No `Term` yet: the length may be more than a word holds until it is
// tested.
pub fn give_new(t: &mut [u16], kind: u16, count: u16, args: [u16; 4], len: u32) -> Answer
    ensures answer { said result ≡ (need_room t.old (len ∷ []) (gives_handle (add_entry t.old (seven kind count args len)) (new_entry t.old))).answer }
    ensures table { t.new ≡ (need_room t.old (len ∷ []) (gives_handle (add_entry t.old (seven kind count args len)) (new_entry t.old))).table }
{
    let fits = has_room(t, 1);
    if 4095 < len {
        return Err(Refusal::TOO_LONG);
    }
    if !fits {
        return Err(Refusal::NO_ROOM);
    }
    let term = Term {
        kind,
        count,
        args,
        len: len as u16,
    };
    let e = terms::create(t, term);
    Ok(give(t, e))
}
