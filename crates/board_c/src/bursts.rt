// The burst call.
ghost use Rattle.std.specs.Prelude.{◌≡◌};
ghost use Rattle.burst.specs.Burst as Call;
ghost use Rattle.board.specs.Burst as Spec;

#[unsafe(no_mangle)]
pub extern "C" fn btpu_receive_burst<'a>(
    state: &mut [u8; 3144],
    pool: &mut [u8],
    sizes: &'a [u16],
    joined: &'a [u8],
    frame: u64,
    place: u64,
    output: &mut [u8],
    lengths: &mut [u16; 256],
    numbers: &mut [u64; 256],
    places: &mut [u32; 64],
    reasons: &mut [u32; 64],
    res: &mut [u64; 5],
) -> u32
    ensures { record {
      status = result;
      image = state.new;
      pool = pool.new;
      lists = Call.lists output.new lengths.new numbers.new places.new reasons.new;
      result = res.new;
    }
        ≡ Spec.burst state.old pool.old sizes.now joined.now frame place
        (Call.lists output.old lengths.old numbers.old places.old reasons.old)
        res.old }
{
    board::bursts::btpu_receive_burst(
        state, pool, sizes, joined, frame, place, output, lengths, numbers, places, reasons, res,
    )
}
