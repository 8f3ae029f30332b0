// Each result is compared in hexadecimal, as it is published.
use digest::{Sha256, hmac, sha256};
use std::process::Abort;

const DIGITS: [u8; 16] = *b"0123456789abcdef";

// Two digits for each byte.
fn hexadecimal(bytes: [u8; 32]) -> [[u8; 2]; 32] {
    bytes.map(|byte| [DIGITS[(byte / 16) as usize], DIGITS[(byte % 16) as usize]])
}

fn expect(rt: &impl Abort, bytes: [u8; 32], published: &[u8; 64]) {
    assert_eq!(rt; hexadecimal(bytes).as_flattened(), published.as_slice());
}

// The first two are the examples of FIPS 180-4 for SHA-256 (NIST, "SHA-256 example with intermediate values"), the third is among
// NIST's additional examples: one block, two blocks, and no bytes at all.
#[test]
fn messages(rt: HostRuntime) {
    expect(
        &rt,
        sha256(b"abc"),
        b"ba7816bf8f01cfea414140de5dae2223b00361a396177a9cb410ff61f20015ad",
    );
    expect(
        &rt,
        sha256(b"abcdbcdecdefdefgefghfghighijhijkijkljklmklmnlmnomnopnopq"),
        b"248d6a61d20638b8e5c026930c3e6039a33ce45964ff2167f6ecedd419db06c1",
    );
    expect(
        &rt,
        sha256(b""),
        b"e3b0c44298fc1c149afbf4c8996fb92427ae41e4649b934ca495991b7852b855",
    );
}

// The long example of FIPS 180-2, appendix B.3: a million times the letter a, here in pieces of 1,000.
#[test]
fn a_million_letters(rt: HostRuntime) {
    let piece = [b'a'; 1000];
    let mut hasher = Sha256::new();
    for _ in 0..1000 {
        hasher.update(&piece);
    }
    expect(
        &rt,
        hasher.finish(),
        b"cdc76e5c9914fb9281a1c7e284d73e67f1809a48a497200e046d39ccc7112cd0",
    );
}

// RFC 4231, sections 4.2 to 4.5: test cases 1 to 4.
#[test]
fn short_keys(rt: HostRuntime) {
    expect(
        &rt,
        hmac(&[0x0b; 20], b"Hi There"),
        b"b0344c61d8db38535ca8afceaf0bf12b881dc200c9833da726e9376c2e32cff7",
    );
    expect(
        &rt,
        hmac(b"Jefe", b"what do ya want for nothing?"),
        b"5bdcc146bf60754e6a042426089575c75a003f089d2739839dec58b964ec3843",
    );
    expect(
        &rt,
        hmac(&[0xaa; 20], &[0xdd; 50]),
        b"773ea91e36800e46854db8ebd09181a72959098b3ef8c122d9635514ced565fe",
    );
    expect(
        &rt,
        hmac(
            b"\x01\x02\x03\x04\x05\x06\x07\x08\x09\x0a\x0b\x0c\x0d\x0e\x0f\x10\x11\x12\x13\x14\x15\x16\x17\x18\x19",
            &[0xcd; 50],
        ),
        b"82558a389a443c0ea4cc819899f2083a85f0faa3e578f8077a2e3ff46729665b",
    );
}

// RFC 4231, section 4.6: test case 5, of which 128 bits are published.
#[test]
fn truncated(rt: HostRuntime) {
    let tag = hexadecimal(hmac(&[0x0c; 20], b"Test With Truncation"));
    assert_eq!(rt;
        &tag.as_flattened()[0..32],
        b"a3b6167473100ee06e0c796c2955552b".as_slice()
    );
}

// RFC 4231, sections 4.7 and 4.8: test cases 6 and 7, with a key longer than a block, and with a text longer than one too.
#[test]
fn long_keys(rt: HostRuntime) {
    expect(
        &rt,
        hmac(
            &[0xaa; 131],
            b"Test Using Larger Than Block-Size Key - Hash Key First",
        ),
        b"60e431591ee0b67f0d8a26aacbf5b77f8e0bc6213728c5140546040f0ee37f54",
    );
    expect(
        &rt,
        hmac(
            &[0xaa; 131],
            b"This is a test using a larger than block-size key and a larger than block-size data. The key needs to be hashed before being used by the HMAC algorithm.",
        ),
        b"9b09ffa71b942fcb27635fbcd5b0e944bfdc63644f0713938a7f51535c3a35e2",
    );
}
