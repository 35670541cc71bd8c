// The archive for C (H4): each call of `host` once more under its C name, since an archive is a crate that no other can name. A refusal
// becomes its number here (H6). The seven without a directory of blocks are here, the six with one in blocks.rt.
#![tactic(auto)]

mod blocks; // blocks.rt: register, lookup, find, and load, write and stored with a directory

ghost use Rattle.std.specs.Prelude.{◌≡◌};
ghost use Rattle.board_state.specs.State.{no_options};
ghost use Rattle.host.specs.Host.{sizes_of, options_of, host_load, host_reset, host_read, host_write, host_run};

use refusals::{refusal_of, word_of};

#[unsafe(no_mangle)]
pub extern "C" fn namco163_load(
    image: &mut [u8],
    arena: &mut [u8],
    mapper: u64,
    submapper: u8,
    flags: u8,
    in_database: u64,
    prg_rom: u64,
    prg_ram: u64,
    battery: u64,
    chr: u64,
    chr_ram: u64,
    ciram: u64,
) -> u64
    ensures value { result ≡ (host_load image.old arena.old mapper submapper flags in_database
        (sizes_of prg_rom prg_ram battery chr chr_ram ciram) no_options).word }
    ensures image_after { image.new ≡ (host_load image.old arena.old mapper submapper flags in_database
        (sizes_of prg_rom prg_ram battery chr chr_ram ciram) no_options).image }
    ensures arena_after { arena.new ≡ (host_load image.old arena.old mapper submapper flags in_database
        (sizes_of prg_rom prg_ram battery chr chr_ram ciram) no_options).lent }
{
    u64::from(refusal_of(&host::namco163_load(
        image,
        arena,
        mapper,
        submapper,
        flags,
        in_database,
        prg_rom,
        prg_ram,
        battery,
        chr,
        chr_ram,
        ciram,
    )))
}

#[unsafe(no_mangle)]
pub extern "C" fn namco163_load_options(
    image: &mut [u8],
    arena: &mut [u8],
    mapper: u64,
    submapper: u8,
    flags: u8,
    in_database: u64,
    prg_rom: u64,
    prg_ram: u64,
    battery: u64,
    chr: u64,
    chr_ram: u64,
    ciram: u64,
    f800_protects: u64,
    signed_levels: u64,
    plain_sum: u64,
) -> u64
    ensures value { result ≡ (host_load image.old arena.old mapper submapper flags in_database
        (sizes_of prg_rom prg_ram battery chr chr_ram ciram) (options_of f800_protects signed_levels plain_sum)).word }
    ensures image_after { image.new ≡ (host_load image.old arena.old mapper submapper flags in_database
        (sizes_of prg_rom prg_ram battery chr chr_ram ciram) (options_of f800_protects signed_levels plain_sum)).image }
    ensures arena_after { arena.new ≡ (host_load image.old arena.old mapper submapper flags in_database
        (sizes_of prg_rom prg_ram battery chr chr_ram ciram) (options_of f800_protects signed_levels plain_sum)).lent }
{
    u64::from(refusal_of(&host::namco163_load_options(
        image,
        arena,
        mapper,
        submapper,
        flags,
        in_database,
        prg_rom,
        prg_ram,
        battery,
        chr,
        chr_ram,
        ciram,
        f800_protects,
        signed_levels,
        plain_sum,
    )))
}

#[unsafe(no_mangle)]
pub extern "C" fn namco163_reset(image: &mut [u8], kind: u64) -> u64
    ensures value { result ≡ (host_reset image.old kind).word }
    ensures image_after { image.new ≡ (host_reset image.old kind).image }
{
    u64::from(refusal_of(&host::namco163_reset(image, kind)))
}

#[unsafe(no_mangle)]
pub extern "C" fn namco163_read(image: &mut [u8], arena: &[u8], addr: u16) -> u64
    ensures value { result ≡ (host_read image.old arena.now addr).word }
    ensures image_after { image.new ≡ (host_read image.old arena.now addr).image }
{
    word_of(host::namco163_read(image, arena, addr))
}

#[unsafe(no_mangle)]
pub extern "C" fn namco163_write(image: &mut [u8], arena: &mut [u8], addr: u16, val: u8) -> u64
    ensures value { result ≡ (host_write image.old arena.old addr val).word }
    ensures image_after { image.new ≡ (host_write image.old arena.old addr val).image }
    ensures arena_after { arena.new ≡ (host_write image.old arena.old addr val).lent }
{
    word_of(host::namco163_write(image, arena, addr, val))
}

#[unsafe(no_mangle)]
pub extern "C" fn namco163_preview(image: &[u8], arena: &[u8], addr: u16, val: u8) -> u64
    ensures { result ≡ (host_write image.now arena.now addr val).word }
{
    word_of(host::namco163_preview(image, arena, addr, val))
}

#[unsafe(no_mangle)]
pub extern "C" fn namco163_run(image: &mut [u8], samples: &mut [u8], clocks: u64) -> u64
    ensures value { result ≡ (host_run image.old samples.old clocks).word }
    ensures image_after { image.new ≡ (host_run image.old samples.old clocks).image }
    ensures samples_after { samples.new ≡ (host_run image.old samples.old clocks).lent }
{
    word_of(host::namco163_run(image, samples, clocks))
}
