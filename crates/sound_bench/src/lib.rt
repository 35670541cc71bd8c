// The proved run behind a C function, for bench/.
#![tactic(auto)]

ghost use Rattle.std.specs.Prelude.{◌/◌};

use sound::Audio;

// `clocks` sound clocks of a fresh state with the given sound RAM; answers the samples made, or 0 where there is no room for them.
#[unsafe(no_mangle)]
pub extern "C" fn sound_bench_run(ram: &[u8], samples: &mut [f32], clocks: u32) -> u64 {
    let Some(&ram) = ram.first_chunk::<{ Audio::RAM_SIZE }>() else {
        return 0;
    };
    if samples.len() < (clocks as usize) / 15 {
        return 0;
    }
    let mut a = Audio {
        ram,
        ..Audio::new()
    };
    sound_clock::run::run(&mut a, clocks, samples) as u64
}
