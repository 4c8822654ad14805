//! A realm from its making on. Expected digests were computed by `sha256sum` from the bytes that each comment writes out.

use memory_map::Pa;
use realm_desc::{HashAlgorithm, Realm, RealmState, Rec, Space};
use rmm_spec::Measurement;
use std::alloc::{AllocError, Global};

fn new_realm(space: Space) -> Realm {
    Realm::new(Pa::new(0x2000), space, 1, HashAlgorithm::Sha256)
}

// Whether the realm's initial measurement is this, as `sha256sum` or `sha512sum` shows a digest.
fn has_rim(alloc: Global, realm: &Realm, digest: &str) -> Result<bool, AllocError> {
    let rim = match realm.rim.measurement() {
        Measurement::Sha256(bytes) => hex::encode(alloc, bytes.as_slice())?,
        Measurement::Sha512(bytes) => hex::encode(alloc, bytes.as_slice())?,
    };
    Ok(rim.as_str() == digest)
}

// Counts a REC of that index with those flags, where it is the next.
fn counts(realm: &mut Realm, index: u8, flags: u64) -> bool {
    if !realm.takes_index(u64::from(index)) {
        return false;
    }
    realm.count_rec(index, flags);
    true
}

#[test]
fn rim_of_two_recs(rt: HostRuntime) -> Result<(), AllocError> {
    let mut realm = new_realm(Space::Bits39);
    // 580100c400000000 2700000000000000 0100000000000000 0000000000000000
    let made = "39f3ce61f3cc5d6d7208f6b0fecbf6b39274b4605fe90e6ae686b056168c2241";
    assert!(rt; has_rim(rt.alloc(), &realm, made)?);
    // the 32 bytes above, 5a0100c400000000 0000000000000000 0100000000000000
    let first = "a42c396228319368e7b1e21d4c3c557a6247a50bcf242fc4f8892370b922d36e";
    assert!(rt; !counts(&mut realm, 1, 0) && counts(&mut realm, 0, 1));
    assert!(rt; has_rim(rt.alloc(), &realm, first)?);
    // the 32 bytes above, 5a0100c400000000 0100000000000000 0000000000000000
    let second = "c53d5a7d11940f4179880e3c45787d3364b96125422f6d0d918e995dd831ac9c";
    assert!(rt; !counts(&mut realm, 0, 1) && counts(&mut realm, 1, 0));
    assert!(rt; has_rim(rt.alloc(), &realm, second)?);
    Ok(())
}

#[test]
fn rim_of_a_wide_realm(rt: HostRuntime) -> Result<(), AllocError> {
    // 580100c400000000 3000000000000000 0000000000000000 0000000000000000
    let made = "5fca5e5cfa95f492ad2de98798b1d78f2e9b836174de6087945670d0b0ae21c5";
    assert!(rt; has_rim(rt.alloc(), &new_realm(Space::Bits48), made)?);
    Ok(())
}

#[test]
fn rim_by_sha512(rt: HostRuntime) -> Result<(), AllocError> {
    let mut realm = Realm::new(Pa::new(0x2000), Space::Bits39, 1, HashAlgorithm::Sha512);
    // 580100c400000000 2700000000000000 0100000000000000 0100000000000000
    let made = "fa21dedb536c68f43cf1910e3183d98cd11a79c258fc8d4b44209bd8c784100f\
                22c5f05af25312caf8efa76c16f18d060ccabb086754d143ecd78b97f585a5af";
    assert!(rt; has_rim(rt.alloc(), &realm, made)?);
    // the 64 bytes above, 5a0100c400000000 0000000000000000 0100000000000000
    let first = "c6c57acf524fd481f81418dc373ab64ce494a546e83906faea93770783a186e6\
                af36b67a234fb99da6748c0415abcfef40d4ce46fabdad63897408c2c262c6f7";
    assert!(rt; counts(&mut realm, 0, 1) && has_rim(rt.alloc(), &realm, first)?);
    Ok(())
}

// Widths and levels of roots of no address space.
const NO_SPACES: [(u64, u64); 3] = [(0x27, 0), (0x30, 1), (0x28, 1)];

#[test]
fn words_that_stand_for_nothing(rt: HostRuntime) {
    assert!(rt; are_spaces() && are_algorithms());
    for (width, level) in &NO_SPACES {
        assert!(rt; Space::of(*width, *level).is_none(), "at {width:x} {level}");
    }
}

fn are_spaces() -> bool {
    matches!(Space::of(0x27, 1), Some(Space::Bits39))
        && matches!(Space::of(0x30, 0), Some(Space::Bits48))
}

fn are_algorithms() -> bool {
    matches!(HashAlgorithm::of(0), Some(HashAlgorithm::Sha256))
        && matches!(HashAlgorithm::of(1), Some(HashAlgorithm::Sha512))
        && HashAlgorithm::of(2).is_none()
}

#[test]
fn life_of_a_realm(rt: HostRuntime) {
    let mut realm = new_realm(Space::Bits39);
    assert!(rt; realm.is_new());
    realm.activate();
    assert!(rt; !realm.is_new() && realm.state == RealmState::Active);
}

#[test]
fn ninth_rec_is_refused(rt: HostRuntime) {
    let mut realm = new_realm(Space::Bits39);
    for index in 0..8 {
        assert!(rt; counts(&mut realm, index, 0), "at {index}");
    }
    assert!(rt; !counts(&mut realm, 8, 0));
}

#[test]
fn a_new_rec_waits(rt: HostRuntime) {
    let rec = Rec::new(Pa::new(0x1000), 3, 1, Pa::new(0x6000), Pa::new(0x7000));
    assert!(rt; rec.is_ready() && rec.runnable && rec.index == 3);
    assert!(rt; rec.aux0.address() == 0x6000 && rec.aux1.address() == 0x7000);
    assert!(rt; rec.request.is_none() && rec.pending.is_none());
}
