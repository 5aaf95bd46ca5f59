// The receiver's answers.
ghost use Rattle.std.specs.Prelude.{◌≡◌, ◌<◌};
ghost use Rattle.wire.specs.Frame.{frame_max};
ghost use Rattle.receiver.specs.Receive as Call;
ghost use Rattle.answers.specs.Receiver as Spec;

use images::receiving::IMAGE_SIZE;
use receiver::{Answer, Refusal, State};

// The refusal's number, and above its 8 bits the place that it names: what C is given.
fn refusal_code(refusal: Refusal) -> u32
    requires { Call.named (Call.refusal_place refusal) < frame_max }
    ensures { result ≡ Spec.code refusal }
{
    let number = u32::from(refusal);
    if let Refusal::Malformed(_, place) = refusal {
        return number + place as u32 * 256;
    }
    number
}

// Keeps the state and reports the answer; a refused call writes nothing.
#[tactic(auto, unfolding(crate::specs::Receiver::kept, crate::specs::Receiver::report))]
pub fn finish(
    image: &mut [u8; IMAGE_SIZE],
    answer: Result<Answer, Refusal>,
    state: State,
    res: &mut [u64; 4],
) -> u32
    requires { Spec.place answer < frame_max }
    ensures { (result ≡ Spec.status answer)
        × (image.new ≡ Spec.kept answer image.old state)
        × (res.new ≡ Spec.report answer res.old) }
{
    match answer {
        Ok(
            Answer::Delivered {
                length,
                next,
                origin,
            },
        ) => {
            images::receiving::put_state(image, state);
            let number = messages::origin_number(origin);
            *res = [1, length as u64, next as u64, number];
            0
        }
        Ok(Answer::Finished) => {
            images::receiving::put_state(image, state);
            res[0] = 0;
            0
        }
        Err(refusal) => refusal_code(refusal),
    }
}
