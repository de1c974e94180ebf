// What came of a step.
use crate::steps::Step;
use crate::words::Told;
use play::Reply;
use protocol::Answer;
use std::fmt;

// A reply for each card of the step's span, in its order.
#[derive(Drop)]
pub struct Outcome {
    pub step: Step,
    pub replies: Vec<Reply>,
}

impl Outcome {
    // How many replies were not expected.
    pub(crate) fn odd(&self) -> usize {
        let step = self.step;
        self.replies
            .iter()
            .filter(|reply| !step.is_met_by(**reply))
            .count()
    }

    // What every card of the span replied, if it is the same.
    fn alike(&self) -> Option<Reply> {
        let first = *self.replies.first()?;
        self.replies
            .iter()
            .all(|reply| *reply == first)
            .then_some(first)
    }
}

impl fmt::Display for Outcome {
    fn fmt<W: fmt::Write>(&self, f: &mut fmt::Formatter<W>) -> fmt::Result {
        let Step { cards, deed, .. } = self.step;
        write!(f, "{}: ", self.step)?;
        match self.alike() {
            Some(reply) => write!(f, "{}", Told(deed, reply))?,
            None => {
                for (card, reply) in cards.numbers().zip(self.replies.iter()) {
                    let comma = if cards.first < card { "; " } else { "" };
                    write!(f, "{comma}card {card} {}", Told(deed, *reply))?;
                }
            }
        }
        if self.odd() > 0 {
            f.write_str(". THIS IS NOT WHAT THE STORY EXPECTS")?;
        }
        f.write_str(".")
    }
}

// The first refusal; otherwise the last answer that says something, where counts that follow each other add up.
pub(crate) fn joined(replies: &[Reply]) -> Reply {
    replies.iter().try_fold(Answer::Done, |said, reply| {
        Ok(match (said, (*reply)?) {
            (_, Answer::Done) => said,
            (Answer::Count(a), Answer::Count(b)) => Answer::Count(a.saturating_add(b)),
            (_, answer) => answer,
        })
    })
}
