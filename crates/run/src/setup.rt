// Which rack is asked for.
use numerals::number;

#[derive(Clone, Copy, PartialEq, Eq, Debug)]
pub(crate) enum Store {
    Rings,
    FrameBox,
}

#[derive(Clone, Copy, PartialEq, Eq, Debug)]
pub(crate) enum Machines {
    Ledgers,
    Boards,
}

#[derive(Clone, Copy, PartialEq, Eq, Debug)]
pub(crate) struct Setup {
    pub cards: u8,
    // of each log
    pub places: usize,
    // frames in a lane; none where nothing is said
    pub room: Option<usize>,
    pub store: Store,
    pub machines: Machines,
}

impl Setup {
    // What stands where nothing is said.
    pub(crate) fn usual() -> Setup {
        Setup {
            cards: 3,
            places: 16,
            room: None,
            store: Store::Rings,
            machines: Machines::Ledgers,
        }
    }

    // The same with what an argument names; none where it names nothing. A size that no type holds becomes one that is refused.
    pub(crate) fn with(self, argument: &str) -> Option<Setup> {
        let (name, value) = argument.split_once("=")?;
        match (name, value) {
            ("cards", value) => Some(Setup {
                cards: u8::try_from(number(value)?).unwrap_or(0),
                ..self
            }),
            ("places", value) => Some(Setup {
                places: usize::try_from(number(value)?).unwrap_or(0),
                ..self
            }),
            ("room", value) => Some(Setup {
                room: Some(usize::try_from(number(value)?).unwrap_or(0)),
                ..self
            }),
            ("backplane", "rings") => Some(Setup {
                store: Store::Rings,
                ..self
            }),
            ("backplane", "box") => Some(Setup {
                store: Store::FrameBox,
                ..self
            }),
            ("machine", "ledger") => Some(Setup {
                machines: Machines::Ledgers,
                ..self
            }),
            ("machine", "board") => Some(Setup {
                machines: Machines::Boards,
                ..self
            }),
            _ => None,
        }
    }
}
