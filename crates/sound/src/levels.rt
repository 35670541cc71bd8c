// Channel outputs are floats that are whole numbers.

ghost use Rattle.std.specs.Prelude.{◌^◌, ◌≤◌, ◌<◌, ◌≡◌};
ghost use Rattle.limits.specs.Limits.{out_most};
ghost use Rattle.sound.specs.Levels.{whole_part};

// The whole part of the float with these bits. That they are at most those of 3825 is asked: an image's bits are any until a test of them.
#[tactic(auto, unfolding(crate::specs::Levels::whole_part))]
pub fn whole_part(bits: u32) -> u32
    requires { bits ≤ out_most }
    ensures { (result ≡ whole_part bits) × (result < 2 ^ 24) }
{
    if bits < 0x3F80_0000 {
        return 0;
    }
    let shift = 150 - bits / 0x0080_0000;
    (0x0080_0000 + bits % 0x0080_0000) >> shift
}
