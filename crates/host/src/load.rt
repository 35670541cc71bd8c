// Loads into an image of either length (H10): what the C calls without a directory share. The one with a directory (blocks.rt) makes
// another load between the same two steps.
ghost use Rattle.std.specs.Prelude.{◌≡◌};
ghost use Rattle.bits.specs.Fields.{bit};
ghost use Rattle.refusals.specs.Refusal.{refusal_of};
ghost use Rattle.image_write.specs.Options.{room_for};
ghost use Rattle.host.specs.Host.{sizes_of, options_of, load_needs_byte, host_load};

use board_state::Options;
use call_load::{Cartridge, load};
use image_write::words::needs_byte;
use image_write::writing::{put_image, room_for};
use memory::layout::{MemoryLayout, pages_for};
use refusals::Refusal;

pub fn sizes_of(
    rom: u64,
    ram: u64,
    battery: u64,
    chr: u64,
    writable: u64,
    ciram: u64,
) -> MemoryLayout
    ensures { result ≡ sizes_of rom ram battery chr writable ciram }
{
    MemoryLayout {
        prg_rom: rom,
        prg_ram: ram,
        battery_ext: battery,
        chr,
        chr_writable: writable != 0,
        ciram,
    }
}

// L19, S13: the options, each 0 for no (H5).
pub fn options_of(f800_protects: u64, signed_levels: u64, plain_sum: u64) -> Options
    ensures { result ≡ options_of f800_protects signed_levels plain_sum }
{
    Options {
        f800_protects: f800_protects != 0,
        signed_levels: signed_levels != 0,
        plain_sum: plain_sum != 0,
    }
}

// H10, N22: whether so many bytes hold the image of a load, by the options and the PRG-RAM that it asks for.
pub fn room_for_load(sizes: MemoryLayout, options: Options, len: usize) -> bool
    ensures { result ≡ room_for (load_needs_byte sizes options) len }
{
    room_for(needs_byte(options, pages_for(sizes.prg_ram)), len)
}

pub fn load_image(image: &mut [u8], arena: &mut [u8], cartridge: Cartridge) -> Result<(), Refusal>
    ensures value { refusal_of result ≡ (host_load image.old arena.old cartridge.mapper cartridge.submapper cartridge.flags
        (bit cartridge.known) cartridge.sizes cartridge.options).word }
    ensures image_after { image.new ≡ (host_load image.old arena.old cartridge.mapper cartridge.submapper cartridge.flags
        (bit cartridge.known) cartridge.sizes cartridge.options).image }
    ensures arena_after { arena.new ≡ (host_load image.old arena.old cartridge.mapper cartridge.submapper cartridge.flags
        (bit cartridge.known) cartridge.sizes cartridge.options).lent }
{
    if !room_for_load(cartridge.sizes, cartridge.options, image.len()) {
        return Err(Refusal::Image);
    }
    let fresh = load(arena, cartridge)?;
    put_image(image, fresh);
    Ok(())
}
