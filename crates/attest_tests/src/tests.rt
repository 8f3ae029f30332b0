use attest::attestor::{Attestor, TAG_ROOM};
use attest::book::Book;
use attest::entry::Entry;
use attest::group::GroupSize;
use attest::pair_keys::PairKeys;
use attest::parts::{Key, pair_tag};

fn key(signer: u8, receiver: u8) -> Key {
    [signer.wrapping_mul(16).wrapping_add(receiver); 32]
}

fn member(own: u8) -> Option<PairKeys> {
    let sending = [1, 2, 3, 4].map(|receiver| key(own, receiver));
    let receiving = [0, 1, 2, 3, 4].map(|signer| key(signer, own));
    PairKeys::new(own, &sending, &receiving)
}

// The parts were made by Python: hmac.new(bytes([16 * signer + receiver]) * 32, words, 'sha256').digest()[:16].
const BY_ONE: &[u8; 64] =
    b"\x36\x7c\xfe\x16\xea\x37\xc4\xdf\x32\xcc\x67\x6d\xab\x6d\x93\x72\xbf\x4e\x47\xf7\xb5\x96\xdf\xc8\x31\xf6\x55\xc2\xe5\xdd\x9b\xd0\xca\xef\x99\xf8\x4c\xb9\x2a\xef\xa7\xe7\x5a\x07\xf5\x17\x66\x8f\x0f\x38\xa1\xb1\x83\xa9\x38\x19\x97\x5e\xf8\x9c\x2b\x91\xf0\xc8";

const BY_DEALER: &[u8; 64] =
    b"\x48\xe5\xea\xfc\x3f\x82\xec\x1f\xab\xe0\xb8\x45\xc2\xd9\x22\xfb\x32\xf1\xeb\x4d\x6f\x6f\x1b\xfe\x65\xd8\x39\x7a\xa1\x6b\x0c\x3f\xef\x8e\x37\xb6\xe9\x46\xc9\xea\x04\x82\x98\x4e\x60\x56\x31\xe5\xba\xd2\x51\x06\xcf\xf2\x8f\xe2\x67\xe0\xe9\x83\x8a\x2f\x33\x19";

const WORDS: &[u8; 5] = b"\x02\x00\x00\x00\x07";

// Whether a member accepts a tag of a signer for the words.
fn accepts(own: u8, signer: u8, tag: &[u8]) -> bool {
    let Some(keys) = member(own) else {
        return false;
    };
    keys.accept(signer, WORDS, tag)
}

#[test]
fn pair_keys_sign(rt: HostRuntime) {
    let Some(keys) = member(1) else {
        panic!(rt; "no keys")
    };
    let mut one = keys;
    let mut tag = [7; TAG_ROOM];
    assert!(rt; one.sign(WORDS, &mut tag).is_ok());
    let by_one: &[u8] = BY_ONE;
    assert!(rt; &tag[0..64] == by_one);
    assert!(rt; tag[64] == 7);
    let keys = [1, 2, 3, 4].map(|receiver| key(0, receiver));
    assert_eq!(rt; pair_tag(&keys, WORDS, &mut tag), Some(64));
    let by_dealer: &[u8] = BY_DEALER;
    assert!(rt; &tag[0..64] == by_dealer);
    assert_eq!(rt; pair_tag(&keys, WORDS, &mut tag[0..63]), None);
}

#[test]
fn pair_keys_accept(rt: HostRuntime) {
    let by_one: &[u8] = BY_ONE;
    assert!(rt; accepts(1, 1, by_one));
    assert!(rt; accepts(2, 1, by_one));
    assert!(rt; accepts(2, 0, BY_DEALER));
    assert!(rt; !accepts(2, 3, by_one));
    assert!(rt; !accepts(2, 5, by_one));
    assert!(rt; !accepts(2, 1, &by_one[0..63]));
    let mut wrong = *BY_ONE;
    wrong[31] ^= 1;
    assert!(rt; !accepts(2, 1, &wrong));
    assert!(rt; accepts(3, 1, &wrong));
}

#[test]
fn pair_keys_refused(rt: HostRuntime) {
    assert!(rt; member(0).is_none());
    assert!(rt; member(5).is_none());
    assert!(rt; PairKeys::new(1, &[key(1, 1)], &[key(0, 1), key(2, 1)]).is_none());
}

#[test]
fn book(rt: HostRuntime) {
    let mut tag = [9; TAG_ROOM];
    let mut table = [Entry::blank(); 2];
    let Ok(group) = GroupSize::try_from(4) else {
        panic!(rt; "no group")
    };
    let mut book = Book::over(&mut table, group);
    assert!(rt; book.hand_to(5).is_err());
    assert!(rt; book.hand_to(2).is_ok());
    assert!(rt; book.sign(&[0; 45], &mut tag).is_err());
    assert!(rt; book.sign(WORDS, &mut tag).is_ok());
    assert!(rt; &tag[0..5] == [0, 0, 0, 0, 9].as_slice());
    assert!(rt; book.hand_to(3).is_ok());
    assert!(rt; book.sign(WORDS, &mut tag).is_ok());
    assert!(rt; &tag[0..5] == [0, 0, 0, 1, 9].as_slice());
    assert!(rt; book.sign(WORDS, &mut tag).is_err());
    assert!(rt; book.accept(2, WORDS, &[0, 0, 0, 0]));
    assert!(rt; book.accept(3, WORDS, &[0, 0, 0, 1]));
    assert!(rt; !book.accept(3, WORDS, &[0, 0, 0, 0]));
    let words: &[u8] = WORDS;
    assert!(rt; !book.accept(2, &words[1..], &[0, 0, 0, 0]));
    assert!(rt; !book.accept(2, WORDS, &[0, 0, 0, 2]));
    assert!(rt; !book.accept(2, WORDS, &[0, 0, 0]));
}
