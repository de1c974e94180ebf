// One board and one ledger behind a desk.
ghost use Rattle.std.specs.Prelude.{◌≡◌};
ghost use Rattle.board.specs.Loads.{all_open};
ghost use Rattle.ledger.specs.Balances.{opening};
ghost use Rattle.machine_desk.specs.Served.{board_after, ledger_after};

use crate::replies::{Answer, Reply};
use crate::requests::{Request, read};
use crate::turns::{ask, deliver, post};
use board::{Board, BoardPayload};
use ledger::{Ledger, Posting};
use machines::Machine;

#[derive(Drop)]
pub struct Desk {
    board: Board,
    ledger: Ledger,
}

impl Desk {
    pub fn open() -> Desk
        ensures board { result.board.holders ≡ all_open }
        ensures ledger { result.ledger.balances ≡ opening }
    {
        Desk {
            board: <Board as Machine>::start(),
            ledger: <Ledger as Machine>::start(),
        }
    }

    pub(crate) fn answer(&mut self, line: &str) -> Reply {
        match read(line) {
            Some(request) => self.serve(request),
            None => Ok(Answer::Unreadable),
        }
    }

    fn serve(&mut self, request: Request) -> Reply
        ensures board { self.new.board.holders ≡ board_after request self.old.board.holders }
        ensures ledger { self.new.ledger.balances ≡ ledger_after request self.old.ledger.balances }
    {
        match request {
            Request::Ask { act, load, carrier } => {
                let payload = ask(&mut self.board, act, load, carrier)?;
                Ok(self.of_board(payload))
            }
            Request::Post {
                carrier,
                cents,
                times,
            } => {
                let posting = post(&mut self.ledger, carrier, cents, times)?;
                Ok(self.of_ledger(posting))
            }
            Request::BoardWords(words) => {
                let payload = deliver::<Board>(&mut self.board, words)?;
                Ok(self.of_board(payload))
            }
            Request::LedgerWords(words) => {
                let posting = deliver::<Ledger>(&mut self.ledger, words)?;
                Ok(self.of_ledger(posting))
            }
        }
    }

    fn of_board(&self, payload: BoardPayload) -> Answer {
        let holder = payload.and_then(|booking| self.board.holder(booking.load));
        Answer::Board(payload, holder)
    }

    fn of_ledger(&self, posting: Posting) -> Answer {
        Answer::Ledger(posting, self.ledger.balance_cents(posting.carrier).unwrap())
    }
}
