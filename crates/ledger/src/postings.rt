// A posting: a carrier and an amount in cents, always within their ranges.
ghost use Rattle.std.specs.Prelude.{◌≡◌, true};
ghost use Rattle.ledger.specs.Ranges.{postable};

#[derive(Clone, Copy, PartialEq, Eq, Debug)]
pub struct Posting {
    pub carrier: u8,
    pub cents: i64,
    ghost inside: { postable carrier cents ≡ true },
}
