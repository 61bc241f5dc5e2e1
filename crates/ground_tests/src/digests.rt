use hash_seed::{Key, draw, letter_key};
use sha2::{Digest, Sha256};

/// The bytes of a letter of the sender 5 to the recipient 4: seed 1, tick 2, diasca 3, serial 6.
const LETTER: [u8; 32] = [
    0, 0, 0, 0, 0, 0, 0, 1, 0, 0, 0, 0, 0, 0, 0, 2, 0, 0, 0, 3, 0, 0, 0, 4, 0, 0, 0, 5, 0, 0, 0, 6,
];

/// The digest of `LETTER`, by Python's hashlib.
const LETTER_DIGEST: [u8; 32] = [
    0xc2, 0x66, 0x9e, 0x5e, 0x6e, 0x33, 0xd5, 0x26, 0x16, 0x8e, 0x46, 0xb9, 0x63, 0xba, 0xc0, 0x13,
    0x25, 0xb1, 0xc7, 0x1f, 0x83, 0x4f, 0x2f, 0xc2, 0xf7, 0x9b, 0x1e, 0x38, 0xfb, 0xb1, 0x1a, 0xb0,
];

/// The bytes of draw 5 of the actor 4: seed 1, tick 2, diasca 3.
const DRAW: [u8; 29] = [
    0, 0, 0, 0, 0, 0, 0, 1, 0, 0, 0, 0, 0, 0, 0, 2, 0, 0, 0, 3, 0, 0, 0, 4, 0, 0, 0, 5, 0x44,
];

/// The first eight bytes of the digest of `DRAW`, by Python's hashlib.
const DRAW_NUMBER: u64 = 0xb1c0_114e_b451_9ed8;

#[test]
fn keys_and_draws_are_of_their_digests(rt: HostRuntime) {
    let key = letter_key(1, 2, 3, 4, 5, 6);
    assert_eq!(rt; key, Key(LETTER_DIGEST));
    assert_eq!(rt; key, Key(Sha256::digest(LETTER)));
    let mut low = key;
    low.0[0] = 0xc1;
    low.0[31] = 0xff;
    assert!(rt; low < key);
    let digest = Sha256::digest(DRAW);
    assert_eq!(rt; digest.first_chunk::<8>(), Some(&DRAW_NUMBER.to_be_bytes()));
    assert_eq!(rt; draw(1, 2, 3, 4, 5, 1), 0);
    assert_eq!(rt; draw(1, 2, 3, 4, 5, 1_000), 864);
    assert_eq!(rt; draw(1, 2, 3, 4, 5, u64::MAX), DRAW_NUMBER);
}
