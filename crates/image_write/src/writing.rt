// A state to its image. The parts that start at a byte's start begin from their own place.
ghost use Rattle.std.specs.Prelude.{◌≡◌, true, not, [], ◌∷◌, map, ◌<◌, T, length, replicate};
ghost use Rattle.std.specs.Float.{binary32};
ghost use Rattle.std.specs.Float.Ieee.{to_bits, is_nan};
ghost use Rattle.bits.specs.Cursor.{Wrote};
ghost use Rattle.board_state.specs.State.{BanksIn, Known};
ghost use Rattle.refusals.specs.Refusal.{refusal_of};
ghost use Rattle.sound.specs.Range.{Phases, InRange as AudioInRange};
ghost use Rattle.memory.specs.Range.{MemoryInRange};
ghost use Rattle.image_write.specs.Image.{image_bytes, chip_widths, chip_fields, sound_widths};
ghost use Rattle.image_write.specs.Image.{sound_fields, level_num, memory_widths, memory_fields, joined, image_of, byte_at};
ghost use Rattle.image_write.specs.Sections.{chip_at, ram_at, port_at, levels_at, out_at, phases_at, prg_pages_at};
ghost use Rattle.image_write.specs.Options.{image_at, option_set, room_for};
ghost use Rattle.image_write.specs.Writing.{write_refusal, written_image};

use crate::pages::put_pages;
use crate::sections::{
    CHIP_AT, CHR_PAGES_AT, IMAGE_BYTES, LAYOUT_AT, LEVELS_AT, OPTIONS_IMAGE_BYTES, OUT_AT,
    PHASES_AT, PORT_AT, PRG_PAGES_AT, RAM_AT,
};
use crate::words::{
    banks_word, detection_word, flags_word, layout_word, level_word, needs_byte, options_byte,
    port_word, regs_word,
};
use bits::cursor::Cursor;
use bits::words::load;
use board_chip::namco163::Namco163;
use board_state::State;
use call_refusals::known::KnownState;
use memory::Memory;
use refusals::Refusal;
use sound::audio::Audio;

// The channel outputs as whole numbers, the same for either choice (H11). A loop as `put_run` of the cursor has: no proof closed for that
// of the outputs by `map`.
fn put_levels(img: &mut [u8; IMAGE_BYTES], audio: &Audio)
    requires { AudioInRange audio.now }
    ensures { Wrote img.old img.new (byte_at levels_at) (byte_at out_at) (replicate 8 12) (map level_num audio.now.channel_out) }
{
    let mut c = Cursor::at_byte(LEVELS_AT);
    for x in &audio.channel_out {
        c.put(img, 12, level_word(x.to_bits()));
    }
}

fn put_ram(img: &mut [u8; IMAGE_BYTES], ram: &[u8; 128])
    ensures { Wrote img.old img.new (byte_at ram_at) (byte_at port_at) (replicate 128 8) ram.now }
{
    Cursor::at_byte(RAM_AT).put_bytes(img, ram);
}

// Here and below a range is asked as in sound_clock/src/clock.rt and memory/src/lib.rt: a host may lend any state, and write_image tests
// it.
fn put_out(img: &mut [u8; IMAGE_BYTES], x: f32)
    requires { T (not (is_nan x)) }
    ensures { Wrote img.old img.new (byte_at out_at) (byte_at phases_at) (32 ∷ []) (to_bits binary32 x ∷ []) }
{
    Cursor::at_byte(OUT_AT).put(img, 32, u64::from(x.to_bits()));
}

fn put_phases(img: &mut [u8; IMAGE_BYTES], phases: &[u32; 8])
    requires { Phases phases.now }
    ensures { Wrote img.old img.new (byte_at phases_at) (byte_at prg_pages_at) (replicate 8 24) phases.now }
{
    Cursor::at_byte(PHASES_AT).put_run(img, 24, phases);
}

// The twelve CHR banks go in two words of six.
fn put_chip(img: &mut [u8; IMAGE_BYTES], chip: &Namco163)
    requires { BanksIn chip.now.prg_banks }
    ensures { Wrote img.old img.new (byte_at chip_at) (byte_at ram_at)
        (joined chip_widths) (joined (chip_fields chip.now)) }
{
    let mut c = Cursor::at_byte(CHIP_AT);
    c.put(img, 53, regs_word(chip));
    c.put(img, 5, detection_word(chip));
    c.put(img, 12, flags_word(&chip.nt_bank_enable));
    c.put(img, 48, load(&chip.chr_banks, 0, 6, 0));
    c.put(img, 48, load(&chip.chr_banks, 6, 6, 0));
    c.put(img, 18, banks_word(&chip.prg_banks));
}

fn put_sound(img: &mut [u8; IMAGE_BYTES], audio: &Audio)
    requires { AudioInRange audio.now }
    ensures { Wrote img.old img.new (byte_at ram_at) (byte_at prg_pages_at)
        (joined sound_widths) (joined (sound_fields audio.now)) }
{
    put_ram(img, &audio.ram);
    Cursor::at_byte(PORT_AT).put(img, 16, port_word(audio));
    put_levels(img, audio);
    put_out(img, audio.out);
    put_phases(img, &audio.phase_ext);
}

fn put_memory(img: &mut [u8; IMAGE_BYTES], m: &Memory)
    requires { MemoryInRange m.now }
    ensures { Wrote img.old img.new (byte_at prg_pages_at) (byte_at image_bytes)
        (joined memory_widths) (joined (memory_fields m.now)) }
{
    put_pages(img, PRG_PAGES_AT, &m.prg_pages);
    put_pages(img, CHR_PAGES_AT, &m.chr_pages);
    Cursor::at_byte(LAYOUT_AT).put(img, 32, layout_word(m));
}

// The image of a state that is known to be in range, in the front of bytes of either length: cut to an array here, or by its caller.
pub fn put_state(img: &mut [u8], s: &State)
    requires { (length img.old ≡ image_bytes) × Known s.now }
    ensures { img.new ≡ image_of s.now }
{
    if let Some(image) = img.first_chunk_mut::<IMAGE_BYTES>() {
        put_chip(image, &s.chip);
        put_sound(image, &s.chip.audio);
        put_memory(image, &s.memory);
    }
}

// The image of a state that is known to be in range, at the length of the lent bytes. That they are long enough is asked, here and by its
// callers, since a type of bytes and state would borrow the image from its read to its write.
pub fn put_image(img: &mut [u8], s: State)
    requires { (room_for (option_set s) (length img.old) ≡ true) × Known s }
    ensures { img.new ≡ image_at (length img.old) s }
{
    put_state(&mut img[..IMAGE_BYTES], &s);
    if img.len() == OPTIONS_IMAGE_BYTES {
        img[IMAGE_BYTES] = options_byte(s.options(), s.memory.layout.prg_ram);
    }
}

// Whether so many bytes hold an image, `set` being whether a bit of its options is set.
#[tactic(auto, unfolding(crate::specs::Options::room_for))]
pub fn room_for(set: bool, len: usize) -> bool
    ensures { result ≡ room_for set len }
{
    len == OPTIONS_IMAGE_BYTES || (len == IMAGE_BYTES && !set)
}

// Writes a state's image over the lent bytes.
pub fn write_image(s: State, img: &mut [u8]) -> Result<(), Refusal>
    ensures refusal { refusal_of result ≡ write_refusal s (length img.old) }
    ensures image { img.new ≡ written_image s img.old }
{
    if !room_for(needs_byte(s.options(), s.memory.layout.prg_ram), img.len()) {
        return Err(Refusal::Image);
    }
    let known = KnownState::new(s)?;
    put_image(img, known.state);
    Ok(())
}
