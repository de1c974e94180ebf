// What is to be done with a message or diff.
ghost use Rattle.std.specs.Prelude.{◌≡◌, true, ◌||◌, ◌==◌};
ghost use Rattle.frames.specs.Fields.{fields_of};
ghost use Rattle.frames.specs.Kinds.{kind_number};
ghost use Rattle.taking.specs.Verdicts.{verdict_on, unless_full};

use cards::CardFault;
use frames::Kind;
use marks::{Header, epoch_of};
use protocol::Card;

#[derive(Clone, Copy, PartialEq, Eq, Debug)]
pub(crate) enum Verdict {
    Pass,
    Enter,
}

fn unless_full(full: bool) -> Result<Verdict, CardFault>
    ensures { result ≡ unless_full full }
{
    if full {
        Err(CardFault::LogFull)
    } else {
        Ok(Verdict::Enter)
    }
}

// `full` says that the log has no room for what would enter. What is to stay where it waits is a fault.
pub(crate) fn decide(
    card: &Card,
    kind: Kind,
    header: Header,
    full: bool,
) -> Result<Verdict, CardFault>
    requires { (kind_number kind == 1 || kind_number kind == 2) ≡ true }
    ensures { result ≡ verdict_on card.now (fields_of (kind_number kind) header (0, 0, 0, 0)) full }
{
    let epoch = epoch_of(header);
    // Kept: one match over kinds with guards on epoch and count, for messages and diffs, so that the rule stands in one place.
    match kind {
        _ if epoch < card.newest => Ok(Verdict::Pass),
        Kind::Message
            if epoch == card.current
                && epoch == card.newest
                && card.accepted.2.checked_add(1) == Some(header.2) => unless_full(full),
        Kind::DiffHead if epoch != card.current => unless_full(full),
        _ => Err(CardFault::OutOfTurn),
    }
}
