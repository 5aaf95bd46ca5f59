// The sender's calls.
ghost use Rattle.std.specs.Prelude.{◌≡◌, List, ℕ};
ghost use Rattle.wire.specs.declared.Version.TheVariants.{Draft00, Draft02};
ghost use Rattle.board.specs.Sender as Spec;

#[unsafe(no_mangle)]
pub extern "C" fn btpu_sender_start(state: &mut [u8; 24], size: u64, first: u32) -> u32
    ensures { ◌≡◌ {A = ℕ × List ℕ} (result, state.new) (Spec.started Draft02 state.old size first) }
{
    board::sending::btpu_sender_start(state, size, first)
}

#[unsafe(no_mangle)]
pub extern "C" fn btpu_sender_start_00(state: &mut [u8; 24], size: u64, first: u32) -> u32
    ensures { ◌≡◌ {A = ℕ × List ℕ} (result, state.new) (Spec.started Draft00 state.old size first) }
{
    board::sending::btpu_sender_start_00(state, size, first)
}

#[unsafe(no_mangle)]
pub extern "C" fn btpu_sender_check(state: &[u8; 24]) -> u32
    ensures { result ≡ Spec.checked state.now }
{
    board::sending::btpu_sender_check(state)
}

#[unsafe(no_mangle)]
pub extern "C" fn btpu_place(
    state: &mut [u8; 24],
    bundle: &[u8],
    frame: &mut [u8],
    res: &mut [u64; 4],
) -> u32
    ensures { record { status = result; image = state.new; frame = frame.new; result = res.new }
        ≡ Spec.placed_by state.old bundle.now frame.old res.old }
{
    board::sending::btpu_place(state, bundle, frame, res)
}

#[unsafe(no_mangle)]
pub extern "C" fn btpu_cancel(state: &mut [u8; 24], frame: &mut [u8], res: &mut [u64; 4]) -> u32
    ensures { record { status = result; image = state.new; frame = frame.new; result = res.new }
        ≡ Spec.cancelled_by state.old frame.old res.old }
{
    board::sending::btpu_cancel(state, frame, res)
}

#[unsafe(no_mangle)]
pub extern "C" fn btpu_flush(state: &mut [u8; 24], frame: &mut [u8], res: &mut [u64; 4]) -> u32
    ensures { record { status = result; image = state.new; frame = frame.new; result = res.new }
        ≡ Spec.flushed_by state.old frame.old res.old }
{
    board::sending::btpu_flush(state, frame, res)
}
