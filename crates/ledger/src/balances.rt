// The ledger's memory: every balance within its bounds.
ghost use Rattle.std.specs.Prelude.{◌≡◌, true, All};
ghost use Rattle.ledger.specs.Ranges.{bearable};

#[derive(Drop)]
pub struct Ledger {
    pub(crate) balances: [i64; 32],
    ghost bounded: { All (λ z. bearable z ≡ true) balances },
}
