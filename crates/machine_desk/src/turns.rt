// One turn of the board or the ledger, from a line's numbers; what is refused leaves the machine as it is.
ghost use Rattle.std.specs.Prelude.{◌≡◌};
ghost use Rattle.std.specs.Option.{ok_or, option_map};
ghost use Rattle.refusals.specs.declared.Refusal.TheVariants.{OutOfRange};
ghost use Rattle.machines.specs.Turn.{performed};
ghost use Rattle.board.specs.Loads.{acted};
ghost use Rattle.machine_desk.specs.Turns.{asked_of, words_of, posting_of, posted_of, repeated, posted_times};

use crate::numbers::{held, repeats};
use board::{Act, Board, BoardPayload};
use ledger::{Ledger, Posting};
use machines::{Machine, Words, apply_words, perform};
use refusals::Refusal;

pub fn ask(board: &mut Board, act: Act, load: i128, carrier: i128) -> Result<BoardPayload, Refusal>
    ensures value { result ≡ ok_or (asked_of act load carrier) OutOfRange }
    ensures after { board.new.holders ≡ performed acted 0 (asked_of act load carrier) board.old.holders }
{
    let load = held::<u64>(load)?;
    let carrier = held::<u64>(carrier)?;
    perform::<Board>(board, 0, (load, act, carrier))
}

pub fn post(
    ledger: &mut Ledger,
    carrier: i128,
    cents: i128,
    times: i128,
) -> Result<Posting, Refusal>
    ensures value { result ≡ ok_or (option_map (λ x. x.0) (posted_of carrier cents times)) OutOfRange }
    ensures after { ledger.new.balances ≡ posted_times (posted_of carrier cents times) ledger.old.balances }
{
    let posting = posting_of(carrier, cents)?;
    let count = repeats(times)?;
    post_times(ledger, posting, count);
    Ok(posting)
}

fn posting_of(carrier: i128, cents: i128) -> Result<Posting, Refusal>
    ensures { result ≡ ok_or (posting_of carrier cents) OutOfRange }
{
    let carrier = held::<u64>(carrier)?;
    let cents = held::<i64>(cents)?;
    Posting::new(carrier, cents)
}

fn post_times(ledger: &mut Ledger, posting: Posting, times: u16)
    ensures { ledger.new.balances ≡ repeated times posting ledger.old.balances }
{
    for _turn in 0..times {
        ledger.apply(0, posting);
    }
}

pub fn deliver<M: Machine>(
    machine: &mut M,
    numbers: (i128, i128, i128),
) -> Result<M::Payload, Refusal>
    ensures value { result ≡ ok_or (option_map M.Machine.unpacked (words_of numbers)) OutOfRange }
    ensures after { M.Machine.state machine.new ≡ performed M.Machine.applied 0 (option_map M.Machine.unpacked (words_of numbers)) (M.Machine.state machine.old) }
{
    Ok(apply_words(machine, 0, words(numbers)?))
}

fn words(numbers: (i128, i128, i128)) -> Result<Words, Refusal>
    ensures { result ≡ ok_or (words_of numbers) OutOfRange }
{
    let (a, b, c) = numbers;
    Ok((held::<u64>(a)?, held::<u64>(b)?, held::<u64>(c)?))
}
