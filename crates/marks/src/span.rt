// The headers between two others.
ghost use Rattle.std.specs.Prelude.{◌≡◌, ◌&&◌};
ghost use Rattle.marks.specs.Order.{header_below};

use crate::Header;

#[derive(Clone, Copy, PartialEq, Eq, Debug)]
pub struct Span {
    pub low: Header,
    pub high: Header,
}

impl Span {
    pub fn holds(self, header: Header) -> bool
        ensures { result ≡ (header_below self.low header && header_below header self.high) }
    {
        self.low < header && header < self.high
    }
}
