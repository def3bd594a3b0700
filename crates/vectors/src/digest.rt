// The 64-bit FNV-1a digest.
use crate::items::Item;

// The digest of the items' bytes, the low byte of each item first.
pub fn digest<T: Item>(items: &[T]) -> u64 {
    let mut digest: u64 = 0xcbf2_9ce4_8422_2325;
    for item in items {
        for byte in item.number().to_le_bytes().iter().take(T::BYTES) {
            digest = (digest ^ *byte as u64).wrapping_mul(0x100_0000_01b3);
        }
    }
    digest
}
