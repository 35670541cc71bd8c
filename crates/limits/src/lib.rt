// The numbers that say what is in range, each once: those that the code compares with here, all of them by the same names in
// specs/Limits.antt.
#![tactic(auto)]

// The sound: the update counter, the current channel, the sound port's address and a phase.
pub const UPDATE_MOST: u8 = 14;

pub const CHANNEL_MOST: u8 = 7;

pub const ADDRESS_MOST: usize = 127;

pub const PHASE_LIMIT: u32 = 0x0100_0000;

// The bits of the greatest `out`, and, where levels are signed, those of the least without its sign: 3825.0, of a plain sum 30600.0; signed
// 105.0 and 120.0, of a plain sum 840.0 and 960.0.
pub const OUT_MOST: u32 = 0x456F_1000;

pub const SUM_MOST: u32 = 0x46EF_1000;

pub const SIGNED_OUT_MOST: u32 = 0x42D2_0000;

pub const SIGNED_OUT_LEAST: u32 = 0x42F0_0000;

pub const SIGNED_SUM_MOST: u32 = 0x4452_0000;

pub const SIGNED_SUM_LEAST: u32 = 0x4470_0000;

// The bits of negative zero: the sign alone.
pub const MINUS_ZERO: u32 = 0x8000_0000;

// A PRG bank.
pub const BANK_MOST: u8 = 63;

// The sizes of a load in bytes.
pub const PRG_ROM_LIMIT: u64 = 524_288;

pub const PRG_RAM_LIMIT: u64 = 131_072;

pub const BATTERY_LIMIT: u64 = 1_024;

pub const CHR_LIMIT: u64 = 262_144;

pub const CIRAM_LIMIT: u64 = 4_096;

// The same in pages.
pub const PRG_ROM_PAGES: usize = (PRG_ROM_LIMIT / 1024) as usize;

pub const PRG_RAM_PAGES: usize = (PRG_RAM_LIMIT / 1024) as usize;

pub const BATTERY_PAGES: usize = (BATTERY_LIMIT / 1024) as usize;

pub const CHR_PAGES: usize = (CHR_LIMIT / 1024) as usize;

pub const CIRAM_PAGES: usize = (CIRAM_LIMIT / 1024) as usize;

// The battery bytes that a 163 uses: its sound RAM.
pub const USED_MOST: usize = 128;

// The longest arena in bytes: the zero page and each region at its limit.
pub const ARENA_MOST: usize = 923_648;
