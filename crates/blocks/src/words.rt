// Words in bytes, and the check of a block.
ghost use Rattle.std.specs.Prelude.{◌≡◌, ◌==◌, ◌+◌, ◌*◌, ◌%◌, ◌^◌, ◌<◌, ◌≤◌, length};
ghost use Rattle.layout.specs.Words.{word, put};
ghost use Rattle.layout.specs.Blocks.{sum_words, stored};

pub(crate) const BLOCK_BYTES: usize = 512;
// The word of a block that is its check.
pub(crate) const CHECK_WORD: usize = 63;

pub(crate) type Block = [u8; BLOCK_BYTES];

pub(crate) fn word_at(mem: &[u8], at: usize) -> u64
    requires { at + 8 ≤ length mem.now }
    ensures { result ≡ word mem.now at }
{
    u64::from_le_bytes(mem[at..at + 8].try_into().unwrap())
}

// The sum of the words of a block before its check, modulo 2^64.
fn sum_words(block: &Block) -> u64
    ensures { result ≡ sum_words block.now 0 63 % 2 ^ 64 }
{
    let (words, _) = block.as_chunks::<8>();
    words[..CHECK_WORD].iter().fold(0, |sum: u64, word| {
        sum.wrapping_add(u64::from_le_bytes(*word))
    })
}

// Whether a block that is block `b` of a memory has its check.
pub(crate) fn has_check(block: &Block, b: usize) -> bool
    ensures { result ≡ (word block.now 504 == (b + 1 + sum_words block.now 0 63) % 2 ^ 64) }
{
    let check = sum_words(block).wrapping_add(b as u64).wrapping_add(1);
    word_at(block, 8 * CHECK_WORD) == check
}

pub(crate) fn put_word(mem: &mut [u8], at: usize, w: u64)
    requires { at + 8 ≤ length mem.old }
    ensures { mem.new ≡ put mem.old at w }
{
    mem[at..at + 8].copy_from_slice(&w.to_le_bytes());
}

// Word `j` of block `b` becomes `w`, and the block's check moves by the difference.
pub(crate) fn store_word(mem: &mut [u8], b: usize, j: usize, w: u64)
    requires block { 512 * b + 512 ≤ length mem.old }
    requires plain { j < 63 }
    ensures { mem.new ≡ stored mem.old b j w }
{
    let at = BLOCK_BYTES * b + 8 * j;
    let check_at = BLOCK_BYTES * b + 8 * CHECK_WORD;
    let old = word_at(mem, at);
    let check = word_at(mem, check_at);
    put_word(mem, at, w);
    put_word(mem, check_at, check.wrapping_add(w).wrapping_sub(old));
}
