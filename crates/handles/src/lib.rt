// Handles: who holds an entry, granting, and the one way from a handle to its entry (rules T1 to T3, H1 to H3).
#![tactic(auto)]

ghost use Rattle.std.specs.Prelude.{◌≡◌};
ghost use Rattle.rules.specs.Table.{most, raised, next_handle, set_next_handle, handle, set_handle};
ghost use Rattle.rules.specs.Handles.{holds, grant, entry_of};
ghost use Rattle.rules.specs.Meaning.{found_at, or_nothing};

use rows::Sought;
use rules::{Entry, Handle};

// The next number, as far as a word holds it.
pub fn raised(n: u16) -> u16
    ensures { result ≡ raised n }
{
    n.saturating_add(1)
}

// Knower k's handle on entry e, 0 for none.
pub fn handle(t: &[u16], k: u16, e: Entry) -> Handle
    ensures { result.0 ≡ handle t.now k e.0 }
{
    if rows::most(t) < k {
        return Handle(0);
    }
    Handle(rows::word(t, e, 7 + k))
}

// Knower k's next handle.
pub fn next_handle(t: &[u16], k: u16) -> Handle
    ensures { result.0 ≡ next_handle t.now k }
{
    if rows::most(t) < k {
        return Handle(1);
    }
    Handle(rows::word(t, Entry(0), 5 + k))
}

// Knower k has a handle on entry e.
pub fn holds(t: &[u16], k: u16, e: Entry) -> bool
    ensures { result ≡ holds t.now k e.0 }
{
    handle(t, k, e) != Handle(0)
}

fn set_handle(t: &mut [u16], k: u16, e: Entry, h: Handle)
    ensures { t.new ≡ set_handle t.old k e.0 h.0 }
{
    if rows::most(t) < k {
        return;
    }
    rows::put(t, e, 7 + k, h.0);
}

fn set_next_handle(t: &mut [u16], k: u16, h: Handle)
    ensures { t.new ≡ set_next_handle t.old k h.0 }
{
    if rows::most(t) < k {
        return;
    }
    rows::put(t, Entry(0), 5 + k, h.0);
}

// Knower k is granted entry e: its next handle, unless it has one.
pub fn grant(t: &mut [u16], k: u16, e: Entry)
    ensures { t.new ≡ grant t.old k e.0 }
{
    if holds(t, k, e) {
        return;
    }
    let h = next_handle(t, k);
    set_handle(t, k, e, h);
    set_next_handle(t, k, Handle(raised(h.0)));
}

// The entry that handle h names to knower k: the lowest where the handle stands twice. Handle 0 names nothing.
pub fn entry_of(t: &[u16], k: u16, h: Handle) -> Option<Entry>
    ensures { found_at result ≡ or_nothing (entry_of t.now k h.0) }
{
    if h == Handle(0) {
        return None;
    }
    if rows::most(t) < k {
        return None;
    }
    let place = 7 + k;
    let sought = Sought {
        k: place,
        v: h.0,
        j: place,
        w: h.0,
    };
    rows::next_with(t, Entry(0), sought)
}
