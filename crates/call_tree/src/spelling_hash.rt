//! A fast hash of a spelling. Whoever uses it compares the bytes too.
ghost use Rattle.std.specs.Prelude.{◌+◌, ◌≤◌};

const MULTIPLIER: u64 = 0x9e37_79b9_7f4a_7c15;

/// A word more.
pub fn mixed(hash: u64, word: u64) -> u64 {
    (hash ^ word).wrapping_mul(MULTIPLIER).rotate_left(29)
}

/// Eight bytes of a block as a number.
fn word_at(block: &[u8; 32], at: usize) -> u64
    requires { at + 8 ≤ 32 }
{
    u64::from_le_bytes([
        block[at],
        block[at + 1],
        block[at + 2],
        block[at + 3],
        block[at + 4],
        block[at + 5],
        block[at + 6],
        block[at + 7],
    ])
}

/// Four words at a time, which the processor multiplies side by side, and then what is left.
pub fn hash_of(bytes: &[u8]) -> u32 {
    let (blocks, rest) = bytes.as_chunks::<32>();
    let mut lanes = [bytes.len() as u64, 1, 2, 3];
    for block in blocks {
        lanes[0] = mixed(lanes[0], word_at(block, 0));
        lanes[1] = mixed(lanes[1], word_at(block, 8));
        lanes[2] = mixed(lanes[2], word_at(block, 16));
        lanes[3] = mixed(lanes[3], word_at(block, 24));
    }
    let mut hash = mixed(mixed(lanes[0], lanes[1]), mixed(lanes[2], lanes[3]));
    let (words, last) = rest.as_chunks::<8>();
    for word in words {
        hash = mixed(hash, u64::from_le_bytes(*word));
    }
    let mut end = 0;
    for byte in last {
        end = end << 8 | u64::from(*byte);
    }
    let hash = mixed(hash, end).wrapping_mul(MULTIPLIER);
    (hash >> 32) as u32
}
