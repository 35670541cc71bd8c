// The calls of the C host (H4), which `host_c` exports: the seven without a directory of blocks here, the six with one in blocks.rt. Each
// gives its word, where it has one, or a refusal (H6). Their parameters are the C calls', one by one. `host_c` stands beside this crate,
// since a crate is either a library for Rattle or one for C.
#![tactic(auto)]

pub mod blocks; // blocks.rt: register, lookup, find, and load, write and stored with a directory
mod load; // load.rt: loads into an image

ghost use Rattle.std.specs.Prelude.{◌≡◌};
ghost use Rattle.board_state.specs.State.{no_options};
ghost use Rattle.refusals.specs.Refusal.{refusal_of, word_of};
ghost use Rattle.host.specs.Host.{sizes_of, options_of, host_load, host_reset, host_read, host_write, host_run};

use crate::load::{load_image, options_of, sizes_of};
use call_load::Cartridge;
use host_preview::preview_on;
use host_state::{read_on, reset_on, run_on, write_on};
use image_read::reading::read_image;
use refusals::Refusal;
use refusals::word::Word;

// A fresh state for a cartridge, and its arena filled with zeros. Sizes are in bytes; `in_database` and `chr_ram` are 0 for no (H5).
pub fn namco163_load(
    image: &mut [u8],
    arena: &mut [u8],
    mapper: u64,
    submapper: u8,
    flags: u8,
    in_database: u64,
    prg_rom: u64,
    prg_ram: u64,
    battery: u64,
    chr: u64,
    chr_ram: u64,
    ciram: u64,
) -> Result<(), Refusal>
    ensures value { refusal_of result ≡ (host_load image.old arena.old mapper submapper flags in_database
        (sizes_of prg_rom prg_ram battery chr chr_ram ciram) no_options).word }
    ensures image_after { image.new ≡ (host_load image.old arena.old mapper submapper flags in_database
        (sizes_of prg_rom prg_ram battery chr chr_ram ciram) no_options).image }
    ensures arena_after { arena.new ≡ (host_load image.old arena.old mapper submapper flags in_database
        (sizes_of prg_rom prg_ram battery chr chr_ram ciram) no_options).lent }
{
    namco163_load_options(
        image,
        arena,
        mapper,
        submapper,
        flags,
        in_database,
        prg_rom,
        prg_ram,
        battery,
        chr,
        chr_ram,
        ciram,
        0,
        0,
        0,
    )
}

// The same with the options of L19 and S13, each 0 for no.
pub fn namco163_load_options(
    image: &mut [u8],
    arena: &mut [u8],
    mapper: u64,
    submapper: u8,
    flags: u8,
    in_database: u64,
    prg_rom: u64,
    prg_ram: u64,
    battery: u64,
    chr: u64,
    chr_ram: u64,
    ciram: u64,
    f800_protects: u64,
    signed_levels: u64,
    plain_sum: u64,
) -> Result<(), Refusal>
    ensures value { refusal_of result ≡ (host_load image.old arena.old mapper submapper flags in_database
        (sizes_of prg_rom prg_ram battery chr chr_ram ciram) (options_of f800_protects signed_levels plain_sum)).word }
    ensures image_after { image.new ≡ (host_load image.old arena.old mapper submapper flags in_database
        (sizes_of prg_rom prg_ram battery chr chr_ram ciram) (options_of f800_protects signed_levels plain_sum)).image }
    ensures arena_after { arena.new ≡ (host_load image.old arena.old mapper submapper flags in_database
        (sizes_of prg_rom prg_ram battery chr chr_ram ciram) (options_of f800_protects signed_levels plain_sum)).lent }
{
    let cartridge = Cartridge {
        mapper,
        submapper,
        flags,
        known: in_database != 0,
        sizes: sizes_of(prg_rom, prg_ram, battery, chr, chr_ram, ciram),
        options: options_of(f800_protects, signed_levels, plain_sum),
    };
    load_image(image, arena, cartridge)
}

// Kind 0 is soft, 1 is hard (N3).
pub fn namco163_reset(image: &mut [u8], kind: u64) -> Result<(), Refusal>
    ensures value { refusal_of result ≡ (host_reset image.old kind).word }
    ensures image_after { image.new ≡ (host_reset image.old kind).image }
{
    let read = read_image(image)?;
    reset_on(read.state, kind, image)
}

// The byte at a CPU address, in bits 8..15 (H6).
pub fn namco163_read(image: &mut [u8], arena: &[u8], addr: u16) -> Result<Word, Refusal>
    ensures value { word_of result ≡ (host_read image.old arena.now addr).word }
    ensures image_after { image.new ≡ (host_read image.old arena.now addr).image }
{
    let read = read_image(image)?;
    read_on(read, arena, addr, image)
}

// The changed page entries: those of CHR in bits 8..23, those of PRG in bits 24..63 (H6).
pub fn namco163_write(
    image: &mut [u8],
    arena: &mut [u8],
    addr: u16,
    val: u8,
) -> Result<Word, Refusal>
    ensures value { word_of result ≡ (host_write image.old arena.old addr val).word }
    ensures image_after { image.new ≡ (host_write image.old arena.old addr val).image }
    ensures arena_after { arena.new ≡ (host_write image.old arena.old addr val).lent }
{
    let read = read_image(image)?;
    write_on(read, arena, addr, val, image)
}

// What a write would answer, with nothing altered (L18).
pub fn namco163_preview(image: &[u8], arena: &[u8], addr: u16, val: u8) -> Result<Word, Refusal>
    ensures { word_of result ≡ (host_write image.now arena.now addr val).word }
{
    let read = read_image(image)?;
    preview_on(read, arena, addr, val)
}

// Runs so many clocks: samples made in bits 8..31, the clock of the rise in bits 32..63 (H6).
pub fn namco163_run(image: &mut [u8], samples: &mut [u8], clocks: u64) -> Result<Word, Refusal>
    ensures value { word_of result ≡ (host_run image.old samples.old clocks).word }
    ensures image_after { image.new ≡ (host_run image.old samples.old clocks).image }
    ensures samples_after { samples.new ≡ (host_run image.old samples.old clocks).lent }
{
    let read = read_image(image)?;
    run_on(read, clocks, samples, image)
}
