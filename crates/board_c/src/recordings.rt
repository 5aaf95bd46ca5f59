// Recordings: written, read and played.
ghost use Rattle.std.specs.Prelude.{◌≡◌};
ghost use Rattle.playback.specs.Call as Call;
ghost use Rattle.board.specs.Recordings as Spec;

#[unsafe(no_mangle)]
pub extern "C" fn btpu_record<'a>(
    sizes: &'a [u16],
    joined: &'a [u8],
    output: &mut [u8],
    res: &mut [u64; 4],
) -> u32
    ensures { record { status = result; output = output.new; result = res.new }
        ≡ Spec.recorded sizes.now joined.now output.old res.old }
{
    board::recordings::btpu_record(sizes, joined, output, res)
}

#[unsafe(no_mangle)]
pub extern "C" fn btpu_recording_open(
    recording: &[u8],
    sizes: &mut [u16; 1024],
    res: &mut [u64; 4],
) -> u32
    ensures { record { status = result; sizes = sizes.new; result = res.new }
        ≡ Spec.opened recording.now sizes.old res.old }
{
    board::recordings::btpu_recording_open(recording, sizes, res)
}

#[unsafe(no_mangle)]
pub extern "C" fn btpu_play(
    recording: &[u8],
    limit: u64,
    pool: &mut [u8],
    output: &mut [u8],
    lengths: &mut [u16],
    places: &mut [u32],
    reasons: &mut [u32],
    res: &mut [u64; 4],
) -> u32
    ensures { record {
      status = result;
      pool = pool.new;
      results = Call.results output.new lengths.new places.new reasons.new;
      result = res.new;
    }
        ≡ Spec.played recording.now limit pool.old
        (Call.results output.old lengths.old places.old reasons.old)
        res.old }
{
    board::recordings::btpu_play(
        recording, limit, pool, output, lengths, places, reasons, res,
    )
}
