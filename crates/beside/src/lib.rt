// When a list can be asked for by its count and four handles (rule C3).
#![tactic(auto)]

ghost use Rattle.std.specs.Prelude.{◌≡◌};
ghost use Rattle.rules.specs.Commands.{list_is_asked};
ghost use Rattle.beside.specs.Beside.{numbers_beside};

use rules::Handle;

// A list can be asked for by 1 to 4 handles, and zeros after them.
pub fn list_is_asked(count: u16, handles: [Handle; 4]) -> bool
    ensures { result ≡ list_is_asked count (numbers_beside handles) }
{
    (1..=4).contains(&count)
        && handles[usize::from(count)..]
            .iter()
            .all(|&h| h == Handle(0))
}
