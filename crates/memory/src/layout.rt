// The layout of the arena: sizes in bytes, page counts, and the regions' places.
ghost use Rattle.std.specs.Prelude.{◌+◌, ◌*◌, ◌≤◌, ◌<◌, ◌≡◌};
ghost use Rattle.limits.specs.Limits.{arena_most};
ghost use Rattle.memory.specs.Layout.{within_limits, pages_for, ciram_bytes, layout_of, first_page, arena_len, region_of};
ghost use Rattle.memory.specs.Range.{GoodLayout};

use limits::{BATTERY_LIMIT, CHR_LIMIT, CIRAM_LIMIT, PRG_RAM_LIMIT, PRG_ROM_LIMIT};

// Sizes of the regions in bytes, as the host gives them.
#[derive(Clone, Copy)]
pub struct MemoryLayout {
    pub prg_rom: u64,
    pub prg_ram: u64,
    pub battery_ext: u64,
    pub chr: u64,
    pub chr_writable: bool,
    pub ciram: u64,
}

// The same in pages. Two types, and not one of the number's type: so no count of bytes stands where one of pages is meant.
#[derive(Clone, Copy)]
pub struct Layout {
    pub prg_rom: usize,
    pub prg_ram: usize,
    pub battery_ext: usize,
    pub chr: usize,
    pub chr_writable: bool,
    pub ciram: usize,
}

// Which region a mapping refers to.
#[derive(Clone, Copy)]
pub enum Src {
    PrgRom,
    PrgRam,
    BatteryExt,
    Chr,
    CiRam,
}

// A region of the arena, in bytes; any two lengths make one. Where it has to end is asked by each function that takes one, of as much as it
// needs: the public `map_pages` of arena_most, the public `wrapped_at` of 2^63. A type with one bound would ask more where less is needed.
#[derive(Clone, Copy)]
pub struct Region {
    pub start: usize,
    pub len: usize,
    pub writable: bool,
}

impl MemoryLayout {
    #[tactic(auto, unfolding(crate::specs::Layout::within_limits))]
    pub fn within_limits(self) -> bool
        ensures { result ≡ within_limits self }
    {
        (self.prg_rom <= PRG_ROM_LIMIT)
            & (self.prg_ram <= PRG_RAM_LIMIT)
            & (self.battery_ext <= BATTERY_LIMIT)
            & (self.chr <= CHR_LIMIT)
            & (self.ciram <= CIRAM_LIMIT)
    }
}

// How many pages hold so many bytes.
pub fn pages_for(bytes: u64) -> usize
    ensures { result ≡ pages_for bytes }
{
    bytes.div_ceil(1024) as usize
}

// A console without a stated CIRAM has 2,048 bytes.
fn ciram_bytes(bytes: u64) -> u64
    ensures { result ≡ ciram_bytes bytes }
{
    if bytes == 0 { 2048 } else { bytes }
}

impl Layout {
    #[tactic(auto, unfolding(crate::specs::Layout::layout_of))]
    pub fn new(sizes: MemoryLayout) -> Layout
        ensures { result ≡ layout_of sizes }
    {
        Layout {
            prg_rom: pages_for(sizes.prg_rom),
            prg_ram: pages_for(sizes.prg_ram),
            battery_ext: pages_for(sizes.battery_ext),
            chr: pages_for(sizes.chr),
            chr_writable: sizes.chr_writable,
            ciram: pages_for(ciram_bytes(sizes.ciram)),
        }
    }

    // The arena's length in bytes. `GoodLayout` is asked and not kept in the type, since an image fills a layout before N2 tests it.
    pub fn arena_len(self) -> usize
        requires { GoodLayout self }
        ensures { (result ≡ arena_len self) × (result ≤ arena_most) }
    {
        1024 * (1 + self.prg_rom + self.prg_ram + self.battery_ext + self.chr + self.ciram)
    }

    // The first page of a region: CHR that is ROM stands behind PRG-ROM, CHR that is RAM behind the battery.
    fn first_page(self, src: Src) -> usize
        requires { GoodLayout self }
        ensures { (result ≡ first_page self src) × (result < 1024) }
    {
        let rom_end = 1 + self.prg_rom;
        let (ram, chr) = if self.chr_writable {
            (rom_end, rom_end + self.prg_ram + self.battery_ext)
        } else {
            (rom_end + self.chr, rom_end)
        };
        match src {
            Src::PrgRom => 1,
            Src::PrgRam => ram,
            Src::BatteryExt => ram + self.prg_ram,
            Src::Chr => chr,
            Src::CiRam => rom_end + self.prg_ram + self.battery_ext + self.chr,
        }
    }

    // A region, given how much of the battery reserve is used, which is a number of the memory and no part of its layout.
    pub fn region(self, battery_ext_len: usize, src: Src) -> Region
        requires { (GoodLayout self) × (battery_ext_len ≤ 1024 * self.battery_ext) }
        ensures { (result ≡ region_of self battery_ext_len src) × (result.start + result.len ≤ arena_most) }
    {
        let (len, writable) = match src {
            Src::PrgRom => (1024 * self.prg_rom, false),
            Src::PrgRam => (1024 * self.prg_ram, true),
            Src::BatteryExt => (battery_ext_len, true),
            Src::Chr => (1024 * self.chr, self.chr_writable),
            Src::CiRam => (1024 * self.ciram, true),
        };
        Region {
            start: 1024 * self.first_page(src),
            len,
            writable,
        }
    }
}
