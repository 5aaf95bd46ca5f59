// The sender's answers.
ghost use Rattle.std.specs.Prelude.{◌≡◌, Ok, List, ℕ, set};
ghost use Rattle.framing.specs.Answers.{reply};
ghost use Rattle.answers.specs.Sender as Spec;

use images::sending::IMAGE_SIZE;
use sender::{Answer, Refusal, State};

// What C is given for an answer.
fn code(answer: Answer) -> u64
    ensures { (r : List ℕ) → set r 0 result ≡ Spec.report (reply (Ok answer)) r }
{
    match answer {
        Answer::Placed => 0,
        Answer::PlacedReady => 1,
        Answer::Ready => 2,
        Answer::Nothing => 3,
    }
}

// Keeps the state and reports the answer; a refused call writes nothing.
pub fn finish(
    image: &mut [u8; IMAGE_SIZE],
    answer: Result<Answer, Refusal>,
    state: State,
    res: &mut [u64; 4],
) -> u32
    ensures { (result ≡ Spec.status (reply answer))
        × (image.new ≡ Spec.kept (reply answer) image.old state)
        × (res.new ≡ Spec.report (reply answer) res.old) }
{
    match answer {
        Ok(answer) => {
            images::sending::put_state(image, state);
            res[0] = code(answer);
            0
        }
        Err(refusal) => u32::from(refusal),
    }
}
