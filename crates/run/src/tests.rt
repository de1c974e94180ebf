// Stored scripts print what is stored.
use crate::opened::{Work, on_rack};
use crate::payloads::Printed;
use crate::scripts::{ALL, Stored};
use crate::setup::Setup;
use crate::table::Table;
use backplane::Backplane;
use std::alloc::Global;
use std::io;
use std::test::Fail;

#[derive(Drop)]
struct Case {
    heap: Global,
    lines: &'static str,
    prints: &'static str,
}

fn transcript<B: Backplane, M: Printed>(
    heap: Global,
    table: &mut Table<'_, B, M>,
    script: &str,
) -> io::Result<String> {
    let mut text = String::new(heap);
    for line in script.lines() {
        let said = table.answer(heap, line)?;
        writeln!(text, "{said}")?;
    }
    for card in 1..=table.cards() {
        let delivered = table.delivered(heap, card)?;
        writeln!(text, "{delivered}")?;
    }
    Ok(text)
}

impl Work for Case {
    fn work<B: Backplane, M: Printed>(self, table: &mut Table<'_, B, M>) -> io::Result<()> {
        let text = transcript(self.heap, table, self.lines)?;
        if text.as_str() == self.prints {
            Ok(())
        } else {
            Err(io::Error::from(io::ErrorKind::InvalidData))
        }
    }
}

fn prints(heap: Global, stored: Stored) -> bool {
    let mut setup = Setup::usual();
    for argument in stored.rack.split_whitespace() {
        match setup.with(argument) {
            Some(other) => setup = other,
            None => return false,
        }
    }
    let case = Case {
        heap,
        lines: stored.lines,
        prints: stored.prints,
    };
    matches!(on_rack(heap, setup, case), Ok(Ok(())))
}

#[test]
fn scripts(rt: HostRuntime) -> Result<(), Fail> {
    for (name, stored) in ALL {
        assert!(rt; prints(rt.alloc(), stored), "{name}");
    }
    Ok(())
}
