// What an accepted call of a C host gives.
ghost use Rattle.std.specs.Prelude.{◌%◌, ◌^◌, ◌≡◌};

// H6: it stands above the low 8 bits, where a refused call has the refusal's number: they are 0.
#[derive(Clone, Copy, Debug, PartialEq, Eq)]
pub struct Word {
    pub bits: u64,
    ghost above: { bits % 2 ^ 8 ≡ 0 },
}
