// The burst call, on an image of the receiver's state.
ghost use Rattle.std.specs.Prelude.{◌≡◌};
ghost use Rattle.burst.specs.Burst as Call;
ghost use Rattle.board.specs.Burst as Spec;

use images::receiving::IMAGE_SIZE;

// Takes up to 64 frames in one call.
pub fn btpu_receive_burst(
    state: &mut [u8; IMAGE_SIZE],
    pool: &mut [u8],
    sizes: &[u16],
    joined: &[u8],
    frame: u64,
    place: u64,
    output: &mut [u8],
    lengths: &mut [u16; 256],
    numbers: &mut [u64; 256],
    places: &mut [u32; 64],
    reasons: &mut [u32; 64],
    res: &mut [u64; 5],
) -> u32
    ensures { record {
      status = result;
      image = state.new;
      pool = pool.new;
      lists = Call.lists output.new lengths.new numbers.new places.new reasons.new;
      result = res.new;
    }
        ≡ Spec.burst state.old pool.old sizes.now joined.now frame place
        (Call.lists output.old lengths.old numbers.old places.old reasons.old)
        res.old }
{
    if !images::receiving::is_image(state) {
        return 1;
    }
    let mut s = images::receiving::state_of(state);
    let answer = burst::receive_burst(
        &mut s,
        pool,
        sizes,
        joined,
        frame as usize,
        place as usize,
        output,
        lengths,
        numbers,
        places,
        reasons,
    );
    answers::bursts::finish(state, answer, s, res)
}
