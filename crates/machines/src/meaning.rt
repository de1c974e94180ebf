// A machine: a state with a start, changed only by applying a queue and a payload.
ghost use Rattle.std.specs.Prelude.{◌≡◌, ℕ, Option as Perhaps, ◌≢◌};
ghost use Rattle.std.specs.Option.{ok_or};
ghost use Rattle.refusals.specs.declared.Refusal.TheVariants.{OutOfRange};

use frames::Words;
use refusals::Refusal;

pub trait Machine: Sized {
    // What a payload is made from, in ranges or not.
    type Draft;

    type Payload: Copy;

    ghost State: { Type 0 };

    ghost state: { Self → State };

    ghost initial: { State };

    ghost applied: { ℕ → Self.Payload → State → State };

    // The payload of a draft, and none where it lies outside the payload's ranges.
    ghost drafted: { Self.Draft → Perhaps Self.Payload };

    ghost packed: { Self.Payload → ℕ × ℕ × ℕ };

    ghost unpacked: { ℕ × ℕ × ℕ → Self.Payload };

    ghost blank: { Self.Payload };

    fn start() -> Self
        ensures { state result ≡ initial };

    fn apply(&mut self, queue: u8, payload: Self::Payload)
        ensures { state self.new ≡ applied queue payload (state self.old) };

    fn make(draft: Self::Draft) -> Result<Self::Payload, Refusal>
        ensures { result ≡ ok_or (drafted draft) OutOfRange };

    fn pack(payload: Self::Payload) -> Words
        ensures { result ≡ packed payload };

    fn unpack(words: Words) -> Self::Payload
        ensures { result ≡ unpacked words };

    fn blank() -> Self::Payload
        ensures { result ≡ blank };

    // Unpacking what was packed gives the payload back.
    ghost returned: { (p : Self.Payload) → unpacked (packed p) ≡ p };

    // Words that no payload packs to give the blank payload.
    ghost otherwise: { (w : ℕ × ℕ × ℕ) → ((p : Self.Payload) → packed p ≢ w) → unpacked w ≡ blank };
}
