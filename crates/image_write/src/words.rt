// Fields as words: several fields in one number, the first the most significant.
ghost use Rattle.std.specs.Prelude.{◌≡◌, cond, [], ◌∷◌, map, ◌-◌, ◌%◌, ◌^◌, ◌<◌, ◌≤◌, ltb, get_or, replicate};
ghost use Rattle.bits.specs.Fields.{bit, pack, times, each};
ghost use Rattle.limits.specs.Limits.{update_most, channel_most, address_most, bank_most, level_most, out_most, minus_zero, prg_ram_pages};
ghost use Rattle.memory.specs.Range.{GoodLayout};
ghost use Rattle.memory.specs.Page.{offset_of};
ghost use Rattle.image_write.specs.Image.{part, chip_widths, chip_fields, sound_widths, sound_fields};
ghost use Rattle.image_write.specs.Image.{page_widths, page_fields, layout_widths, layout_fields};
ghost use Rattle.sound.specs.Levels.{whole_part};
ghost use Rattle.image_write.specs.Options.{option_widths, option_fields, needs_byte};
ghost use Rattle.image_write.specs.Pages.{offset_limit};

use board_chip::namco163::Namco163;
use board_state::Options;
use limits::{MINUS_ZERO, PRG_RAM_PAGES, USED_MOST};
use memory::Memory;
use memory::page::Page;
use sound::audio::Audio;
use sound::levels::whole_part;

// The registers, the board and its numbers in 53 bits.
pub fn regs_word(chip: &Namco163) -> u64
    ensures value { result ≡ pack (part chip_widths 0) (part (chip_fields chip.now) 0) }
    ensures upper_bound { result < 2 ^ 53 }
{
    let regs = chip.regs; // five of its fields are taken
    let pending = u64::from(regs.irq_pending);
    let lo = u64::from(regs.nt_select_lo);
    let hi = u64::from(regs.nt_select_hi);
    let counter = u64::from(regs.irq_counter) * 8 + pending * 4 + lo * 2 + hi;
    let protect = u64::from(regs.prg_ram_protect) * 4 + u64::from(u8::from(chip.board));
    ((counter * 1024 + protect) * 65536 + u64::from(chip.mapper_num)) * 256
        + u64::from(chip.submapper_num)
}

// Detection, mirroring and the written flag in 5 bits.
pub fn detection_word(chip: &Namco163) -> u64
    ensures value { result ≡ pack (part chip_widths 1) (part (chip_fields chip.now) 1) }
    ensures upper_bound { result < 2 ^ 5 }
{
    let detecting = u64::from(chip.auto_detect_board);
    let mirroring = u8::from(chip.mirroring);
    detecting * 16 + u64::from(mirroring) * 2 + u64::from(chip.prg_ram_written_to)
}

// The twelve CIRAM flags in 12 bits.
pub fn flags_word(flags: &[bool; 12]) -> u64
    ensures { (result ≡ pack (replicate 12 1) (map bit flags.now)) × (result < 2 ^ 12) }
{
    let mut word = 0;
    for flag in flags {
        word = word * 2 + u64::from(*flag);
    }
    word
}

// The three PRG banks in 18 bits.
pub fn banks_word(banks: &[u8; 3]) -> u64
    requires { (get_or banks.now 0 0 ≤ bank_most) × (get_or banks.now 1 0 ≤ bank_most) × (get_or banks.now 2 0 ≤ bank_most) }
    ensures { (result ≡ pack (replicate 3 6) banks.now) × (result < 2 ^ 18) }
{
    let [a, b, c] = *banks;
    (u64::from(a) * 64 + u64::from(b)) * 64 + u64::from(c)
}

// The sound port and the sound clock in 16 bits.
pub fn port_word(audio: &Audio) -> u64
    requires { (audio.now.addr ≤ address_most) × (audio.now.update_counter ≤ update_most) × (audio.now.current_channel ≤ channel_most) }
    ensures value { result ≡ pack (part sound_widths 1) (part (sound_fields audio.now) 1) }
    ensures upper_bound { result < 2 ^ 16 }
{
    let auto = u64::from(audio.auto_increment);
    let disabled = u64::from(audio.disabled);
    (audio.addr as u64) * 512
        + auto * 256
        + disabled * 128
        + u64::from(audio.update_counter) * 8
        + u64::from(audio.current_channel)
}

// The page counts, that of PRG-RAM without its high bit (H12), the CHR-RAM flag and whether the reserve is used in 32 bits. `GoodLayout` is
// asked as in memory/src/layout.rt.
pub fn layout_word(m: &Memory) -> u64
    requires { GoodLayout m.now.layout }
    ensures { (result ≡ pack layout_widths (layout_fields m.now)) × (result < 2 ^ 32) }
{
    let l = m.layout;
    let ram = u64::from(l.chr_writable);
    let used = u64::from(m.battery_ext_len == USED_MOST);
    let prg = ((l.prg_rom as u64) * 128 + (l.prg_ram as u64) % 128) * 2 + (l.battery_ext as u64);
    ((prg * 512 + (l.chr as u64)) * 2 + ram) * 16 + (l.ciram as u64) * 2 + used
}

// H11: the channel output with these bits in 12 bits.
pub fn level_word(bits: u32) -> u64
    requires { (bits % minus_zero ≤ out_most) × (whole_part (bits % minus_zero) ≤ level_most) }
    ensures { result ≡ cond (ltb bits minus_zero) (whole_part (bits % minus_zero)) (4096 - whole_part (bits % minus_zero)) }
{
    let part = u64::from(whole_part(bits % MINUS_ZERO));
    if bits < MINUS_ZERO { part } else { 4096 - part }
}

// H9, H11, H12: the options, and the high bit of a count of PRG-RAM pages, in a byte.
pub fn options_byte(o: Options, pages: usize) -> u8
    requires { pages ≤ prg_ram_pages }
    ensures { result ≡ pack option_widths (option_fields o pages) }
{
    let signed = u8::from(o.signed_levels) * 64;
    let plain = u8::from(o.plain_sum) * 32;
    u8::from(o.f800_protects) * 128 + signed + plain + (pages / 128) as u8 * 16
}

// H10, H12: whether an image with these options and so many pages of PRG-RAM needs the byte.
pub fn needs_byte(o: Options, pages: usize) -> bool
    ensures { result ≡ needs_byte o pages }
{
    o.any() | (pages == PRG_RAM_PAGES)
}

// A page entry in 11 bits. That its offset is in range is asked here, of four entries below and of tables in pages.rt (`PagesFit`): a host
// may lend any page, as it may any memory (memory/src/lib.rt).
fn page_word(p: Page) -> u64
    requires { offset_of p < offset_limit }
    ensures { (result ≡ pack page_widths (page_fields p)) × (result < 2 ^ 11) }
{
    (p.offset() as u64) / 1024 * 2 + u64::from(p.is_writable())
}

// Four entries in 44 bits, by name: an array would be made of them at each call and taken apart at once, with the same four facts.
pub fn quad_word(p: Page, q: Page, r: Page, s: Page) -> u64
    requires { (offset_of p < offset_limit) × (offset_of q < offset_limit) × (offset_of r < offset_limit) × (offset_of s < offset_limit) }
    ensures { (result ≡ pack (times 4 page_widths) (each page_fields (p ∷ q ∷ r ∷ s ∷ []))) × (result < 2 ^ 44) }
{
    ((page_word(p) * 2048 + page_word(q)) * 2048 + page_word(r)) * 2048 + page_word(s)
}
