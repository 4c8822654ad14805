//! Expected digests were computed by `sha256sum` and `sha512sum` from the bytes that each comment writes out; those of the hashes
//! alone are the examples of FIPS 180-4.

use realm_desc::{Rem, begin, extend_bytes, extend_words, words, words8};
use rmm_spec::Measurement;
use sha2::{Digest, Sha256, Sha512};
use std::alloc::{AllocError, Global};
use std::process::Abort;
use std::test::Fail;

// The bytes in hex, as `sha256sum` shows a digest.
fn hex(alloc: Global, bytes: &[u8]) -> Result<String, AllocError> {
    let mut text = String::new(alloc);
    for byte in bytes {
        text.push_str(format!(in alloc; "{byte:02x}")?.as_str())?;
    }
    Ok(text)
}

// The hash of a measurement, and its bytes in hex.
fn shown(alloc: Global, measurement: &Measurement) -> Result<String, AllocError> {
    match measurement {
        Measurement::Sha256(bytes) => format!(in alloc; "256 {}", hex(alloc, bytes)?),
        Measurement::Sha512(bytes) => format!(in alloc; "512 {}", hex(alloc, bytes)?),
    }
}

fn expect_shown<R: Abort + AllocGlobal>(
    rt: &R,
    measurement: &Measurement,
    text: &str,
) -> Result<(), Fail> {
    assert_eq!(rt; shown(rt.alloc(), measurement)?.as_str(), text);
    Ok(())
}

// The digest of a message, in hex.
fn expect_digest<R: Abort + AllocGlobal>(
    rt: &R,
    bytes: &[u8],
    digest: &str,
    message: &str,
) -> Result<(), Fail> {
    assert_eq!(rt; hex(rt.alloc(), bytes)?.as_str(), digest, "{message}");
    Ok(())
}

// 00 01 02 and so on up to 3f.
fn counted() -> [u8; 64] {
    let mut counted = [0; 64];
    for i in 0..64 {
        counted[i] = i as u8;
    }
    counted
}

#[test]
fn sha256_examples(rt: HostRuntime) -> Result<(), Fail> {
    let long = "abcdbcdecdefdefgefghfghighijhijkijkljklmklmnlmnomnopnopq";
    for (message, digest) in [
        (
            "",
            "e3b0c44298fc1c149afbf4c8996fb92427ae41e4649b934ca495991b7852b855",
        ),
        (
            "abc",
            "ba7816bf8f01cfea414140de5dae2223b00361a396177a9cb410ff61f20015ad",
        ),
        (
            long,
            "248d6a61d20638b8e5c026930c3e6039a33ce45964ff2167f6ecedd419db06c1",
        ),
    ] {
        expect_digest(&rt, &Sha256::digest(message), digest, message)?;
    }
    Ok(())
}

#[test]
fn sha512_examples(rt: HostRuntime) -> Result<(), Fail> {
    let long = "abcdefghbcdefghicdefghijdefghijkefghijklfghijklmghijklmn\
        hijklmnoijklmnopjklmnopqklmnopqrlmnopqrsmnopqrstnopqrstu";
    for (message, digest) in [
        (
            "",
            "cf83e1357eefb8bdf1542850d66d8007d620e4050b5715dc83f4a921d36ce9ce\
             47d0d13c5d85f2b0ff8318d2877eec2f63b931bd47417a81a538327af927da3e",
        ),
        (
            "abc",
            "ddaf35a193617abacc417349ae20413112e6fa4e89a97ea20a9eeee64b55d39a\
             2192992a274fc1a836ba3c23a3feebbd454d4423643ce80e2a9ac94fa54ca49f",
        ),
        (
            long,
            "8e959b75dae313da8cf4f72814fc143f8f7779c6eb9f7fa17299aeadb6889018\
             501d289e4900f7e4331b99dec4b5433ac7d329eeb6dd26545e96e55b874be909",
        ),
    ] {
        expect_digest(&rt, &Sha512::digest(message), digest, message)?;
    }
    Ok(())
}

#[test]
fn rim_of_a_new_realm(rt: HostRuntime) -> Result<(), Fail> {
    // 580100c400000000 2700000000000000 0100000000000000 0000000000000000
    let rim = begin(0x27, 1, 0);
    expect_shown(
        &rt,
        rim.measurement(),
        "256 39f3ce61f3cc5d6d7208f6b0fecbf6b39274b4605fe90e6ae686b056168c2241",
    )?;
    // 580100c400000000 2700000000000000 0100000000000000 0100000000000000
    let other = begin(0x27, 1, 1);
    expect_shown(
        &rt,
        other.measurement(),
        "512 fa21dedb536c68f43cf1910e3183d98cd11a79c258fc8d4b44209bd8c784100f\
         22c5f05af25312caf8efa76c16f18d060ccabb086754d143ecd78b97f585a5af",
    )?;
    // 580100c400000000 3000000000000000 0000000000000000 0100000000000000
    let wide = begin(0x30, 0, 1);
    expect_shown(
        &rt,
        wide.measurement(),
        "512 713e3079bbc5b9bab05f83a5452dce60bb614b837cece84f7f8f9a12a4f74b92\
         b9e11438b4f5b091d884cd34530d53bb404a167c07cc6e709448a98cc3af53bc",
    )?;
    Ok(())
}

#[test]
fn rim_by_words(rt: HostRuntime) -> Result<(), Fail> {
    let rim = begin(0x27, 1, 0);
    // the 32 bytes of rim, then 680100c400000000 0010000000000000 0030000000000000
    let one = extend_words(&rim, &[0xc400_0168, 0x1000, 0x3000]);
    expect_shown(
        &rt,
        one.measurement(),
        "256 4bbe749641deec900e52fc8dd986d92d57fd0a80b23a5d261b4f1b81bfa1a07c",
    )?;
    // the 32 bytes of rim, then 530100c400000000 0020000000000000 0100000000000000
    // 7766554433221100 ffeeddccbbaa9988 efcdab8967452301 1032547698badcfe
    let contents = [
        0x0011_2233_4455_6677,
        0x8899_aabb_ccdd_eeff,
        0x0123_4567_89ab_cdef,
        0xfedc_ba98_7654_3210,
    ];
    let [c0, c1, c2, c3] = contents;
    let seven = extend_words(&rim, &[0xc400_0153, 0x2000, 1, c0, c1, c2, c3]);
    expect_shown(
        &rt,
        seven.measurement(),
        "256 a644238bdeaff513ea3dcd0b346ba152512b49dafb9b4f790a29c7b14b8df471",
    )?;
    // the 32 bytes of rim alone
    let none = extend_words(&rim, &[]);
    expect_shown(
        &rt,
        none.measurement(),
        "256 830a18e956ec5533ed1b98ad468b37f2e10fa76052f243e3e1a85e94433f2097",
    )?;
    Ok(())
}

#[test]
fn rim_of_64_bytes_by_words(rt: HostRuntime) -> Result<(), Fail> {
    let rim = begin(0x27, 1, 1);
    // the 64 bytes of rim, then 680100c400000000 0010000000000000 0030000000000000
    let one = extend_words(&rim, &[0xc400_0168, 0x1000, 0x3000]);
    expect_shown(
        &rt,
        one.measurement(),
        "512 4316c6fa7b03f6cf3158716bd26eed8bd52d95852d0db946c89beded23bc251b\
         799bec21e31dc69eb0acc85435e47d546872dd7a45823ef9ca11a43b4c804a89",
    )?;
    // the 64 bytes of rim alone
    let none = extend_words(&rim, &[]);
    expect_shown(
        &rt,
        none.measurement(),
        "512 a00c611c03b00d5e32c0659d39e78da66196f749e8ff3dec1667877d4aa05c0c\
         9fadf4f9f19e330d739104f10e49aec1ac691cd39e6e94de258d870693be12c7",
    )?;
    Ok(())
}

#[test]
fn rem_by_1_64_and_3_bytes(rt: HostRuntime) -> Result<(), Fail> {
    let start = Rem::start(0);
    assert!(rt; matches!(start.measurement(), Measurement::Sha256(bytes) if *bytes == [0; 32]));
    // 32 bytes of 00, then ff
    let one = extend_bytes(&start, b"\xff");
    expect_shown(
        &rt,
        one.measurement(),
        "256 ac30a0ef79cd0b6f9bfafcd3049f3b29dab4e4036224a38f346f462ba56ada4d",
    )?;
    // the 32 bytes of one, then 00 01 02 and so on up to 3f
    let block = extend_bytes(&one, &counted());
    expect_shown(
        &rt,
        block.measurement(),
        "256 03de7e673eb51191d63376004be5292af29cb22a26d877ae914f15d27eafedc3",
    )?;
    // the 32 bytes of block, then 01 02 03
    let three = extend_bytes(&block, &[1, 2, 3]);
    expect_shown(
        &rt,
        three.measurement(),
        "256 344057e07c25a211dbbfbbb698d00e82a3f83501840f6554a4cb435d40388114",
    )?;
    Ok(())
}

#[test]
fn rem_of_64_bytes_by_1_64_and_3(rt: HostRuntime) -> Result<(), Fail> {
    let start = Rem::start(1);
    assert!(rt; matches!(start.measurement(), Measurement::Sha512(bytes) if *bytes == [0; 64]));
    // 64 bytes of 00, then ff
    let one = extend_bytes(&start, b"\xff");
    expect_shown(
        &rt,
        one.measurement(),
        "512 29ae74adda86232c476d0f8c5cd467bbef6215646a343ddcfb1b5156039a585e\
         11789751f328526407a8f8b1bb3ab83ec628dc0241be9e0d1bf9943f33ec8fd7",
    )?;
    // the 64 bytes of one, then 00 01 02 and so on up to 3f
    let block = extend_bytes(&one, &counted());
    expect_shown(
        &rt,
        block.measurement(),
        "512 bfe0e461fdc8621f58871f16f9c50cbe85c6faff47d529dd34ab7d5151f40fcd\
         77d81ce2ca97c542afbe2e7718fb28bce3d86d6b85de3af5a6bdf1be110b3e59",
    )?;
    // the 64 bytes of block, then 01 02 03
    let three = extend_bytes(&block, &[1, 2, 3]);
    expect_shown(
        &rt,
        three.measurement(),
        "512 83c0c91cc93b97aeece49b94cab367dbed547f36b49bc5b1faa76ca6d94934df\
         5fd653560cbd52703f01a90a2e5278f495fcfad27b086a69867ad96f8360d12d",
    )?;
    Ok(())
}

// Whether the measurement is of these words. Those of SHA-256 are four, and those of SHA-512 eight.
fn has_words(measurement: &Measurement, expected: &[u64]) -> bool {
    match measurement {
        Measurement::Sha256(bytes) => words(bytes).as_slice() == expected,
        Measurement::Sha512(bytes) => words8(bytes).as_slice() == expected,
    }
}

#[test]
fn words_of_measurements(rt: HostRuntime) {
    // 39f3ce61f3cc5d6d 7208f6b0fecbf6b3 9274b4605fe90e6a e686b056168c2241, each read from its last byte on
    let four = [
        0x6d5d_ccf3_61ce_f339,
        0xb3f6_cbfe_b0f6_0872,
        0x6a0e_e95f_60b4_7492,
        0x4122_8c16_56b0_86e6,
    ];
    assert!(rt; has_words(begin(0x27, 1, 0).measurement(), &four));
    // fa21dedb536c68f4 3cf1910e3183d98c d11a79c258fc8d4b 44209bd8c784100f
    // 22c5f05af25312ca f8efa76c16f18d06 0ccabb086754d143 ecd78b97f585a5af
    let eight = [
        0xf468_6c53_dbde_21fa,
        0x8cd9_8331_0e91_f13c,
        0x4b8d_fc58_c279_1ad1,
        0x0f10_84c7_d89b_2044,
        0xca12_53f2_5af0_c522,
        0x068d_f116_6ca7_eff8,
        0x43d1_5467_08bb_ca0c,
        0xafa5_85f5_978b_d7ec,
    ];
    assert!(rt; has_words(begin(0x27, 1, 1).measurement(), &eight));
}
