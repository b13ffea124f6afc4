// The static library of SCI3: under its name in C, each function calls that of crate capi and promises the same. C declares them in crates/capi/sci3.h.
// Each stands in both crates, since a crate is a library or a static library and not both.
#![tactic(auto)]

ghost use Rattle.std.specs.Prelude.{◌≡◌};
ghost use Rattle.capi.specs.Exports.{lent, calling, call, pins_answer, interrupt_answer, fresh_state, playing, played, rating, rated};

// Makes the direct call of a kind on the port in the array, and tells its cause.
#[unsafe(no_mangle)]
pub extern "C" fn sci3_call(state: &mut [u64], kind: u32, a: u32, b: u32, cause: &mut u64) -> u64
    ensures { calling result cause.new state.new ≡ call kind a b state.old }
{
    capi::sci3_call(state, kind, a, b, cause)
}

// The pins of the port in the array.
#[unsafe(no_mangle)]
pub extern "C" fn sci3_pins(state: &[u64]) -> u64
    ensures { result ≡ pins_answer state.now }
{
    capi::sci3_pins(state)
}

// Whether the port in the array requests an interrupt.
#[unsafe(no_mangle)]
pub extern "C" fn sci3_interrupt(state: &[u64]) -> u64
    ensures { result ≡ interrupt_answer state.now }
{
    capi::sci3_interrupt(state)
}

// Puts the port that every run begins with into the array.
#[unsafe(no_mangle)]
pub extern "C" fn sci3_fresh(state: &mut [u64]) -> u64
    ensures { lent result state.new ≡ fresh_state state.old }
{
    capi::sci3_fresh(state)
}

// Plays a script on the port in the array. The answer is document 01's number, 0 where the script was accepted; told are the offset of the refused
// command's first byte, else 0, how many bytes of the log are written, and the run's length.
#[unsafe(no_mangle)]
pub extern "C" fn sci3_play(
    state: &mut [u64],
    script: &[u8],
    log: &mut [u8],
    told: &mut [u64; 3],
) -> u64
    ensures { playing result told.new state.new log.new ≡ played state.old script.now log.old }
{
    capi::sci3_play(state, script, log, told)
}

// The setting whose bit rate is nearest to a wanted one: of a clock in Hz, a rate in bits a second and a tolerance in parts per ten thousand. The answer is
// document 02's number, 0 where there is one; told are then its bits of SMR, SEMR, BRR, and its error, else zeros.
#[unsafe(no_mangle)]
pub extern "C" fn sci3_rate(clock: u64, rate: u64, tolerance: u64, told: &mut [u64; 5]) -> u64
    ensures { rating result told.new ≡ rated clock rate tolerance }
{
    capi::sci3_rate(clock, rate, tolerance, told)
}
