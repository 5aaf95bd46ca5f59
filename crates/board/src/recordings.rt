// Recordings: written, read and played.
ghost use Rattle.std.specs.Prelude.{◌≡◌};
ghost use Rattle.playback.specs.Call as Call;
ghost use Rattle.board.specs.Recordings as Spec;

// Writes frames as a recording.
pub fn btpu_record(sizes: &[u16], joined: &[u8], output: &mut [u8], res: &mut [u64; 4]) -> u32
    ensures { record { status = result; output = output.new; result = res.new }
        ≡ Spec.recorded sizes.now joined.now output.old res.old }
{
    match recording::write(sizes, joined, output) {
        Ok(octets) => {
            res[0] = octets as u64;
            0
        }
        Err(refusal) => u32::from(refusal),
    }
}

// Reads a recording: the sizes of its frames, and where their octets start.
pub fn btpu_recording_open(recording: &[u8], sizes: &mut [u16; 1024], res: &mut [u64; 4]) -> u32
    ensures { record { status = result; sizes = sizes.new; result = res.new }
        ≡ Spec.opened recording.now sizes.old res.old }
{
    match recording::open(recording) {
        Ok(opened) => {
            sizes.copy_from_slice(&opened.lengths);
            let start = recording::octets_start(opened.frames);
            *res = [
                opened.frames as u64,
                opened.octets as u64,
                start as u64,
                res[3],
            ];
            0
        }
        Err(refusal) => u32::from(refusal),
    }
}

// Plays a recording, up to so many messages.
pub fn btpu_play(
    recording: &[u8],
    limit: u64,
    pool: &mut [u8],
    output: &mut [u8],
    lengths: &mut [u16],
    places: &mut [u32],
    reasons: &mut [u32],
    res: &mut [u64; 4],
) -> u32
    ensures { record {
      status = result;
      pool = pool.new;
      results = Call.results output.new lengths.new places.new reasons.new;
      result = res.new;
    }
        ≡ Spec.played recording.now limit pool.old
        (Call.results output.old lengths.old places.old reasons.old)
        res.old }
{
    match playback::play(
        recording,
        limit as usize,
        pool,
        output,
        lengths,
        places,
        reasons,
    ) {
        Ok(played) => {
            *res = [
                played.messages as u64,
                played.bundles as u64,
                played.octets as u64,
                played.refused as u64,
            ];
            0
        }
        Err(refusal) => u32::from(refusal),
    }
}
