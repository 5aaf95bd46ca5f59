// The receiver's calls.
ghost use Rattle.std.specs.Prelude.{◌≡◌, List, ℕ};
ghost use Rattle.wire.specs.declared.Version.TheVariants.{Draft00, Draft02};
ghost use Rattle.window.specs.Window.{plain_window};
ghost use Rattle.board.specs.Receiver as Spec;

#[unsafe(no_mangle)]
pub extern "C" fn btpu_receiver_start(state: &mut [u8; 3144]) -> u32
    ensures { ◌≡◌ {A = ℕ × List ℕ} (result, state.new) (Spec.started Draft02 state.old plain_window) }
{
    board::receiving::btpu_receiver_start(state)
}

#[unsafe(no_mangle)]
pub extern "C" fn btpu_receiver_start_window(state: &mut [u8; 3144], window: u32) -> u32
    ensures { ◌≡◌ {A = ℕ × List ℕ} (result, state.new) (Spec.started Draft02 state.old window) }
{
    board::receiving::btpu_receiver_start_window(state, window)
}

#[unsafe(no_mangle)]
pub extern "C" fn btpu_receiver_start_00(state: &mut [u8; 3144], window: u32) -> u32
    ensures { ◌≡◌ {A = ℕ × List ℕ} (result, state.new) (Spec.started Draft00 state.old window) }
{
    board::receiving::btpu_receiver_start_00(state, window)
}

#[unsafe(no_mangle)]
pub extern "C" fn btpu_receiver_check(state: &[u8; 3144]) -> u32
    ensures { result ≡ Spec.checked state.now }
{
    board::receiving::btpu_receiver_check(state)
}

#[unsafe(no_mangle)]
pub extern "C" fn btpu_receive(
    state: &mut [u8; 3144],
    pool: &mut [u8],
    frame: &[u8],
    place: u64,
    output: &mut [u8],
    res: &mut [u64; 4],
) -> u32
    ensures { record { status = result; image = state.new; pool = pool.new; output = output.new; result = res.new }
        ≡ Spec.received state.old pool.old frame.now place output.old res.old }
{
    board::receiving::btpu_receive(state, pool, frame, place, output, res)
}
