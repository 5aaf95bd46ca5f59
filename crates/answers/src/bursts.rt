// The burst call's answers.
ghost use Rattle.std.specs.Prelude.{◌≡◌};
ghost use Rattle.answers.specs.Burst as Spec;

use burst::{Refusal, Taken};
use images::receiving::IMAGE_SIZE;
use receiver::State;

// Keeps the state and reports the answer; a refused call writes nothing.
#[tactic(auto, unfolding(crate::specs::Burst::kept, crate::specs::Burst::report))]
pub fn finish(
    image: &mut [u8; IMAGE_SIZE],
    answer: Result<Taken, Refusal>,
    state: State,
    res: &mut [u64; 5],
) -> u32
    ensures { (result ≡ Spec.status answer)
        × (image.new ≡ Spec.kept answer image.old state)
        × (res.new ≡ Spec.report answer res.old) }
{
    match answer {
        Ok(taken) => {
            images::receiving::put_state(image, state);
            *res = [
                taken.bundles as u64,
                taken.octets as u64,
                taken.frame as u64,
                taken.place as u64,
                taken.refused as u64,
            ];
            0
        }
        Err(refusal) => u32::from(refusal),
    }
}
