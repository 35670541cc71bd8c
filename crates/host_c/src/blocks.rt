// The six calls of the C host that take a directory of blocks (K1 to K7, H4).
ghost use Rattle.std.specs.Prelude.{◌≡◌};
ghost use Rattle.directory.specs.Calls.{register_refusal, registered};
ghost use Rattle.host.specs.Host.{sizes_of, options_of};
ghost use Rattle.host.specs.Blocks.{host_lookup, host_find, host_load_blocks, host_load_places, host_write_blocks, host_write_places};
ghost use Rattle.host.specs.Blocks.{host_stored, host_stored_places};

use refusals::{refusal_of, word_of};

#[unsafe(no_mangle)]
pub extern "C" fn namco163_register(
    directory: &mut [u64],
    start: u16,
    length: u64,
    number: u32,
) -> u64
    ensures value { result ≡ register_refusal directory.old start length }
    ensures directory_after { directory.new ≡ registered directory.old start length number }
{
    u64::from(refusal_of(&host::blocks::namco163_register(directory, start, length, number)))
}

#[unsafe(no_mangle)]
pub extern "C" fn namco163_lookup(directory: &[u64], start: u16) -> u64
    ensures { result ≡ host_lookup directory.now start }
{
    word_of(host::blocks::namco163_lookup(directory, start))
}

#[unsafe(no_mangle)]
pub extern "C" fn namco163_find(directory: &[u64], start: u16) -> u64
    ensures { result ≡ host_find directory.now start }
{
    host::blocks::namco163_find(directory, start)
}

#[unsafe(no_mangle)]
pub extern "C" fn namco163_load_blocks(
    image: &mut [u8],
    arena: &mut [u8],
    directory: &mut [u64],
    mapper: u64,
    submapper: u8,
    flags: u8,
    in_database: u64,
    prg_rom: u64,
    prg_ram: u64,
    battery: u64,
    chr: u64,
    chr_ram: u64,
    ciram: u64,
    f800_protects: u64,
    signed_levels: u64,
    plain_sum: u64,
) -> u64
    ensures value { result ≡ (host_load_blocks image.old arena.old directory.old mapper submapper flags
        in_database (sizes_of prg_rom prg_ram battery chr chr_ram ciram)
        (options_of f800_protects signed_levels plain_sum)).word }
    ensures image_after { image.new ≡ (host_load_blocks image.old arena.old directory.old mapper
        submapper flags in_database (sizes_of prg_rom prg_ram battery chr chr_ram ciram)
        (options_of f800_protects signed_levels plain_sum)).image }
    ensures arena_after { arena.new ≡ (host_load_blocks image.old arena.old directory.old mapper
        submapper flags in_database (sizes_of prg_rom prg_ram battery chr chr_ram ciram)
        (options_of f800_protects signed_levels plain_sum)).lent }
    ensures directory_after { directory.new ≡ host_load_places image.old arena.old directory.old mapper
        (sizes_of prg_rom prg_ram battery chr chr_ram ciram) (options_of f800_protects signed_levels plain_sum) }
{
    u64::from(refusal_of(&host::blocks::namco163_load_blocks(
        image,
        arena,
        directory,
        mapper,
        submapper,
        flags,
        in_database,
        prg_rom,
        prg_ram,
        battery,
        chr,
        chr_ram,
        ciram,
        f800_protects,
        signed_levels,
        plain_sum,
    )))
}

#[unsafe(no_mangle)]
pub extern "C" fn namco163_write_blocks(
    image: &mut [u8],
    arena: &mut [u8],
    directory: &mut [u64],
    addr: u16,
    val: u8,
) -> u64
    ensures value { result ≡ (host_write_blocks image.old arena.old directory.old addr val).word }
    ensures image_after { image.new
        ≡ (host_write_blocks image.old arena.old directory.old addr val).image }
    ensures arena_after { arena.new
        ≡ (host_write_blocks image.old arena.old directory.old addr val).lent }
    ensures directory_after { directory.new ≡ host_write_places image.old arena.old directory.old addr val }
{
    word_of(host::blocks::namco163_write_blocks(image, arena, directory, addr, val))
}

#[unsafe(no_mangle)]
pub extern "C" fn namco163_stored(image: &[u8], directory: &mut [u64], offset: u64) -> u64
    ensures value { result ≡ host_stored image.now directory.old }
    ensures directory_after { directory.new ≡ host_stored_places image.now directory.old offset }
{
    u64::from(refusal_of(&host::blocks::namco163_stored(image, directory, offset)))
}
