// An image to its state.
ghost use Rattle.std.specs.Prelude.{◌≡◌, map, not, ℕ, ◌-◌, ◌*◌, ◌/◌, ◌%◌, ◌<◌, T, get_or, replicate};
ghost use Rattle.std.specs.Float.{binary32};
ghost use Rattle.std.specs.Float.Ieee.{nan_bits};
ghost use Rattle.image_write.specs.Image.{chip_widths, joined};
ghost use Rattle.image_write.specs.Sections.{chip_at, ram_at, port_at, levels_at, out_at, phases_at, prg_pages_at};
ghost use Rattle.image_read.specs.Reading.{output_from, read_answer, read_image, read_body};
ghost use Rattle.image_read.specs.Sections.{fields_at, head_parts, chip_of, sound_at, memory_at, state_at};

pub use crate::head::Head;
use crate::pages::get_pages;
use crate::words::{
    board_numbered, chr_banks_of, flags_of, high_of, mirroring_numbered, options_numbered,
    output_numbered, prg_banks_of, regs_of,
};
use bits::cursor::Cursor;
use bits::words::load;
use board_chip::namco163::Namco163;
use board_state::{Options, State};
use call_refusals::known::KnownState;
use image_write::sections::{
    CHIP_AT, CHR_PAGES_AT, IMAGE_BYTES, LAYOUT_AT, LEVELS_AT, OUT_AT, PHASES_AT, PORT_AT,
    PRG_PAGES_AT, RAM_AT,
};
use limits::USED_MOST;
use memory::Memory;
use memory::layout::Layout;
use memory::page::Page;
use refusals::Refusal;
use sound::audio::Audio;
use sound::range::bits_ok;

// The board's words, one behind the other.
fn read_head(img: &[u8; IMAGE_BYTES]) -> Head
    ensures { fields_at (joined chip_widths) img.now chip_at (ram_at - chip_at) ≡ joined (head_parts result) }
{
    let mut c = Cursor::at_byte(CHIP_AT);
    let regs = c.get(img, 53);
    let detection = c.get(img, 5);
    let flags = c.get(img, 12);
    let chr_first = c.get(img, 48);
    let chr_last = c.get(img, 48);
    let prg = c.get(img, 18);
    Head {
        regs,
        detection,
        flags,
        chr_first,
        chr_last,
        prg,
    }
}

fn chip_of(h: Head, audio: Audio) -> Namco163
    ensures { result ≡ chip_of h audio }
{
    Namco163 {
        regs: regs_of(h.regs),
        board: board_numbered(h.regs / 0x0100_0000 % 4),
        mapper_num: (h.regs / 256 % 65536) as u16,
        submapper_num: (h.regs % 256) as u8,
        audio,
        auto_detect_board: h.detection / 16 % 2 == 1,
        mirroring: mirroring_numbered(h.detection / 2 % 8),
        prg_ram_written_to: h.detection % 2 == 1,
        nt_bank_enable: flags_of(h.flags),
        chr_banks: chr_banks_of(h.chr_first, h.chr_last),
        prg_banks: prg_banks_of(h.prg),
    }
}

fn get_ram(img: &[u8; IMAGE_BYTES]) -> [u8; 128]
    ensures { result ≡ fields_at (replicate 128 8) img.now ram_at (port_at - ram_at) }
{
    let mut ram = [0; 128];
    Cursor::at_byte(RAM_AT).get_bytes(img, &mut ram);
    ram
}

// The channel outputs of their 12 bits.
fn levels_of(ns: [u32; 8], signed: bool) -> [f32; 8]
    requires { (i : ℕ) → get_or ns i 0 < 4096 }
    ensures { result ≡ map (output_from signed) ns }
{
    ns.map(|n| output_numbered(n, signed))
}

fn get_levels(img: &[u8; IMAGE_BYTES], signed: bool) -> [f32; 8]
    ensures { result ≡ map (output_from signed) (fields_at (replicate 8 12) img.now levels_at (out_at - levels_at)) }
{
    let mut ns = [0; 8];
    Cursor::at_byte(LEVELS_AT).get_run(img, 12, &mut ns);
    levels_of(ns, signed)
}

fn get_phases(img: &[u8; IMAGE_BYTES]) -> [u32; 8]
    ensures { result ≡ fields_at (replicate 8 24) img.now phases_at (prg_pages_at - phases_at) }
{
    let mut phases = [0; 8];
    Cursor::at_byte(PHASES_AT).get_run(img, 24, &mut phases);
    phases
}

// The sound, given the bits of `out`, which are a number's, and the options.
fn read_sound(img: &[u8; IMAGE_BYTES], bits: u32, options: Options) -> Audio
    requires { T (not (nan_bits binary32 bits)) }
    ensures { result ≡ sound_at img.now bits options }
{
    let port = load(img, PORT_AT, 2, 0);
    Audio {
        ram: get_ram(img),
        addr: (port / 512 % 128) as usize,
        auto_increment: port / 256 % 2 == 1,
        disabled: port / 128 % 2 == 1,
        update_counter: (port / 8 % 16) as u8,
        current_channel: (port % 8) as u8,
        channel_out: get_levels(img, options.signed_levels),
        out: f32::from_bits(bits),
        phase_ext: get_phases(img),
        signed_levels: options.signed_levels,
        plain_sum: options.plain_sum,
    }
}

// The memory, given the high bit of its count of PRG-RAM pages.
fn read_memory(img: &[u8; IMAGE_BYTES], high: u8) -> Memory
    ensures { result ≡ memory_at img.now high }
{
    let mut prg_pages = [Page::UNMAPPED; 64];
    get_pages(img, PRG_PAGES_AT, &mut prg_pages);
    let mut chr_pages = [Page::UNMAPPED; 16];
    get_pages(img, CHR_PAGES_AT, &mut chr_pages);
    let w = load(img, LAYOUT_AT, 4, 0);
    let layout = Layout {
        prg_rom: (w / 0x0040_0000 % 1024) as usize,
        prg_ram: 128 * (high as usize) + (w / 0x8000 % 128) as usize,
        battery_ext: (w / 0x4000 % 2) as usize,
        chr: (w / 32 % 512) as usize,
        chr_writable: w / 16 % 2 == 1,
        ciram: (w / 2 % 8) as usize,
    };
    Memory {
        layout,
        battery_ext_len: (w % 2) as usize * USED_MOST,
        prg_pages,
        chr_pages,
    }
}

// The state of IMAGE_BYTES bytes, given the board's words, the bits of `out`, the options and that bit.
fn read_fields(img: &[u8; IMAGE_BYTES], h: Head, bits: u32, options: Options, high: u8) -> State
    requires { T (not (nan_bits binary32 bits)) }
    ensures { result ≡ state_at img.now h bits options high }
{
    State {
        chip: chip_of(h, read_sound(img, bits, options)),
        memory: read_memory(img, high),
        f800_protects: options.f800_protects,
    }
}

// Reads the IMAGE_BYTES bytes before the options, given the byte of options.
fn read_body(img: &[u8; IMAGE_BYTES], byte: u8) -> Result<KnownState, Refusal>
    ensures { read_answer result ≡ read_body img.now byte }
{
    if byte % 16 != 0 {
        return Err(Refusal::State);
    }
    let options = options_numbered(byte);
    let bits = load(img, OUT_AT, 4, 0) as u32;
    let h = read_head(img);
    if !bits_ok(options.signed_levels, options.plain_sum, bits) {
        return Err(Refusal::State);
    }
    if 4 < h.detection / 2 % 8 {
        return Err(Refusal::State);
    }
    KnownState::new(read_fields(img, h, bits, options, high_of(byte)))
}

// Reads an image of either length.
pub fn read_image(img: &[u8]) -> Result<KnownState, Refusal>
    ensures { read_answer result ≡ read_image img.now }
{
    let Some((body, options)) = img.split_first_chunk::<IMAGE_BYTES>() else {
        return Err(Refusal::Image);
    };
    match options {
        [] => read_body(body, 0),
        [options] => read_body(body, *options),
        _ => Err(Refusal::Image),
    }
}
