ghost use Rattle.std.specs.Prelude.{◌≤◌};

use cs_hash::*;
use std::test::Fail;

/// The bytes that hex digits stand for.
fn bytes_of(digits: &[u8]) -> Digest {
    let mut bytes = [0; 32];
    for i in 0..32 {
        if 2 * i + 1 < digits.len() {
            bytes[i] = 16 * value_of(digits[2 * i]) + value_of(digits[2 * i + 1]);
        }
    }
    bytes
}

fn value_of(digit: u8) -> u8
    ensures { result ≤ 15 }
{
    match digit {
        b'0'..=b'9' => digit - b'0',
        b'a'..=b'f' => digit - b'a' + 10,
        _ => 0,
    }
}

/// The test cases of RFC 4231 whose tag is whole.
#[test]
fn tags_are_those_of_rfc_4231(rt: HostRuntime) -> Result<(), Fail> {
    let rows: [(&[u8], &[u8], &[u8]); 6] = [
        (
            &[0x0b; 20],
            b"Hi There",
            b"b0344c61d8db38535ca8afceaf0bf12b881dc200c9833da726e9376c2e32cff7",
        ),
        (
            b"Jefe",
            b"what do ya want for nothing?",
            b"5bdcc146bf60754e6a042426089575c75a003f089d2739839dec58b964ec3843",
        ),
        (
            &[0xaa; 20],
            &[0xdd; 50],
            b"773ea91e36800e46854db8ebd09181a72959098b3ef8c122d9635514ced565fe",
        ),
        (
            b"\x01\x02\x03\x04\x05\x06\x07\x08\x09\x0a\x0b\x0c\x0d\x0e\x0f\x10\x11\x12\x13\x14\x15\x16\x17\x18\x19",
            &[0xcd; 50],
            b"82558a389a443c0ea4cc819899f2083a85f0faa3e578f8077a2e3ff46729665b",
        ),
        (
            &[0xaa; 131],
            b"Test Using Larger Than Block-Size Key - Hash Key First",
            b"60e431591ee0b67f0d8a26aacbf5b77f8e0bc6213728c5140546040f0ee37f54",
        ),
        (
            &[0xaa; 131],
            b"This is a test using a larger than block-size key and a larger than block-size data. The key needs to be hashed before being used by the HMAC algorithm.",
            b"9b09ffa71b942fcb27635fbcd5b0e944bfdc63644f0713938a7f51535c3a35e2",
        ),
    ];
    for (key, text, digits) in rows {
        let wanted = bytes_of(digits);
        assert!(rt; same(&tag(key, text), &wanted));
    }
    Ok(())
}

/// The test case of RFC 4231 that gives the first 16 bytes of its tag.
#[test]
fn a_tag_begins_as_in_rfc_4231(rt: HostRuntime) -> Result<(), Fail> {
    let tag = tag(&[0x0c; 20], b"Test With Truncation");
    let wanted = bytes_of(b"a3b6167473100ee06e0c796c2955552b");
    assert!(rt; tag[..16] == wanted[..16]);
    Ok(())
}

#[test]
fn a_key_hashed_ahead_gives_the_same_tags(rt: HostRuntime) -> Result<(), Fail> {
    let key = TagKey::new(&[7; 32]);
    for text in [b"".as_slice(), b"text".as_slice(), [0xdd; 150].as_slice()] {
        assert!(rt; same(&key.tag(text), &tag(&[7; 32], text)));
    }
    Ok(())
}

/// The examples of FIPS 180-4 with SHA-256, of one block and of two.
#[test]
fn digests_are_those_of_fips_180_4(rt: HostRuntime) -> Result<(), Fail> {
    let one = bytes_of(b"ba7816bf8f01cfea414140de5dae2223b00361a396177a9cb410ff61f20015ad");
    assert!(rt; tagged(b'a', b"bc") == one);
    let two = bytes_of(b"248d6a61d20638b8e5c026930c3e6039a33ce45964ff2167f6ecedd419db06c1");
    let text = b"bcdbcdecdefdefgefghfghighijhijkijkljklmklmnlmnomnopnopq";
    assert!(rt; tagged(b'a', text.as_slice()) == two);
    Ok(())
}
