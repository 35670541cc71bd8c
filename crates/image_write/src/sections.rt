// The image's length and where its sections start, in bytes, each once: specs/Image.antt and specs/Sections.antt have the same.

pub const IMAGE_BYTES: usize = 307;

// With the byte of options behind it.
pub const OPTIONS_IMAGE_BYTES: usize = 308;

// The board.
pub const CHIP_AT: usize = 0;

// The sound RAM.
pub const RAM_AT: usize = 23;

// The sound port and the sound clock.
pub const PORT_AT: usize = 151;

// The channel outputs.
pub const LEVELS_AT: usize = 153;

// `out`.
pub const OUT_AT: usize = 165;

// The phases.
pub const PHASES_AT: usize = 169;

// The PRG entries.
pub const PRG_PAGES_AT: usize = 193;

// The CHR entries.
pub const CHR_PAGES_AT: usize = 281;

// The page counts, the CHR-RAM flag and whether the reserve is used.
pub const LAYOUT_AT: usize = 303;
