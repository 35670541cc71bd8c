// The six calls of the C host that take a directory of blocks (K1 to K7, H4): 256 places of 64 bits that the host owns, all 0 where no
// block is held.
ghost use Rattle.std.specs.Prelude.{◌≡◌, Some};
ghost use Rattle.directory.specs.Calls.{register_refusal, registered, found_block};
ghost use Rattle.refusals.specs.Refusal.{refusal_of, word_of};
ghost use Rattle.host.specs.Host.{sizes_of, options_of};
ghost use Rattle.host.specs.Blocks.{found_word, host_lookup, host_find, host_load_blocks, host_load_places};
ghost use Rattle.host.specs.Blocks.{host_write_blocks, host_write_places};
ghost use Rattle.host.specs.Blocks.{host_stored, host_stored_places};

use crate::load::{options_of, room_for_load, sizes_of};
use call_blocks::calls::load;
use call_load::Cartridge;
use directory::block::Block;
use directory::{find, lookup, register};
use host_blocks::{stored_on, write_blocks_on};
use image_read::reading::read_image;
use image_write::writing::put_image;
use refusals::Refusal;
use refusals::word::Word;

// The length in bits 8..31 and the number in bits 32..63.
fn found_word(block: Block) -> Word
    ensures { result.bits ≡ found_word (found_block (Some block)) }
{
    Word {
        bits: block.len as u64 * 256 + block.number as u64 * 4_294_967_296,
    }
}

// Registers a block (K3).
pub fn namco163_register(
    directory: &mut [u64],
    start: u16,
    length: u64,
    number: u32,
) -> Result<(), Refusal>
    ensures value { refusal_of result ≡ register_refusal directory.old start length }
    ensures directory_after { directory.new ≡ registered directory.old start length number }
{
    register(directory, start, length, number)
}

// The block held at a start (K4): its length in bits 8..31, its number in bits 32..63; 0 for none.
pub fn namco163_lookup(directory: &[u64], start: u16) -> Result<Word, Refusal>
    ensures { word_of result ≡ host_lookup directory.now start }
{
    match lookup(directory, start)? {
        Some(block) => Ok(found_word(block)),
        None => Ok(Word { bits: 0 }),
    }
}

// The same without the tests of N2 and N8: of a fit directory the word is a lookup's (found_word_lem), and 0 below 6000 (low-none of
// directory).
pub fn namco163_find(directory: &[u64], start: u16) -> u64
    ensures { result ≡ host_find directory.now start }
{
    found_word(Block::from(find(directory, start))).bits
}

// A load with options that empties the directory too (K7). It reads neither image nor places. The steps before and after the load are
// load_image's (load.rt): one function for both would take the load as a closure with its contract, which is longer than these steps.
pub fn namco163_load_blocks(
    image: &mut [u8],
    arena: &mut [u8],
    directory: &mut [u64],
    mapper: u64,
    submapper: u8,
    flags: u8,
    in_database: u64,
    prg_rom: u64,
    prg_ram: u64,
    battery: u64,
    chr: u64,
    chr_ram: u64,
    ciram: u64,
    f800_protects: u64,
    signed_levels: u64,
    plain_sum: u64,
) -> Result<(), Refusal>
    ensures value { refusal_of result ≡ (host_load_blocks image.old arena.old directory.old mapper submapper flags
        in_database (sizes_of prg_rom prg_ram battery chr chr_ram ciram)
        (options_of f800_protects signed_levels plain_sum)).word }
    ensures image_after { image.new ≡ (host_load_blocks image.old arena.old directory.old mapper
        submapper flags in_database (sizes_of prg_rom prg_ram battery chr chr_ram ciram)
        (options_of f800_protects signed_levels plain_sum)).image }
    ensures arena_after { arena.new ≡ (host_load_blocks image.old arena.old directory.old mapper
        submapper flags in_database (sizes_of prg_rom prg_ram battery chr chr_ram ciram)
        (options_of f800_protects signed_levels plain_sum)).lent }
    ensures directory_after { directory.new ≡ host_load_places image.old arena.old directory.old mapper
        (sizes_of prg_rom prg_ram battery chr chr_ram ciram) (options_of f800_protects signed_levels plain_sum) }
{
    let sizes = sizes_of(prg_rom, prg_ram, battery, chr, chr_ram, ciram);
    let options = options_of(f800_protects, signed_levels, plain_sum);
    if !room_for_load(sizes, options, image.len()) {
        return Err(Refusal::Image);
    }
    // Written out as in lib.rt: a function for it would have these eleven parameters.
    let cartridge = Cartridge {
        mapper,
        submapper,
        flags,
        known: in_database != 0,
        sizes,
        options,
    };
    let fresh = load(directory, arena, cartridge)?;
    put_image(image, fresh);
    Ok(())
}

// A CPU write, which drops the blocks over the pages that it touches (K5). Word, image and arena are namco163_write's.
pub fn namco163_write_blocks(
    image: &mut [u8],
    arena: &mut [u8],
    directory: &mut [u64],
    addr: u16,
    val: u8,
) -> Result<Word, Refusal>
    ensures value { word_of result ≡ (host_write_blocks image.old arena.old directory.old addr val).word }
    ensures image_after { image.new
        ≡ (host_write_blocks image.old arena.old directory.old addr val).image }
    ensures arena_after { arena.new
        ≡ (host_write_blocks image.old arena.old directory.old addr val).lent }
    ensures directory_after { directory.new ≡ host_write_places image.old arena.old directory.old addr val }
{
    let read = read_image(image)?;
    write_blocks_on(directory, read, arena, addr, val, image)
}

// After a store of the host's own into the arena: the blocks over the pages that show the byte's arena page go (K5).
pub fn namco163_stored(image: &[u8], directory: &mut [u64], offset: u64) -> Result<(), Refusal>
    ensures value { refusal_of result ≡ host_stored image.now directory.old }
    ensures directory_after { directory.new ≡ host_stored_places image.now directory.old offset }
{
    let read = read_image(image)?;
    stored_on(directory, read, offset)
}
