//! A REC from its first Enter on. The expected digest was computed by `sha256sum` from the bytes that its comment writes out.

use arrayvec::ArrayVec;
use memory_map::Pa;
use realm_desc::{HashAlgorithm, Space};
use rec_steps::{Command, Realm, Rec, Reply, enter, exit, realm_call, walks};
use rmm_spec::{FunctionId, Ripas};

// A realm at 1000 that was activated, and its first REC.
fn realm_and_rec() -> (Realm, Rec) {
    let mut realm = Realm::new(Pa::new(0x2000), Space::Bits39, 1, HashAlgorithm::Sha256);
    realm.activate();
    let rec = Rec::new(Pa::new(0x1000), 0, 1, Pa::new(0x4000), Pa::new(0x5000));
    (realm, rec)
}

// A command whose first three words are these.
fn command(function: FunctionId, first: u64, second: u64, third: u64) -> Command {
    let mut words = ArrayVec::new();
    words.push(first);
    words.push(second);
    words.push(third);
    Command { function, words }
}

// Whether the reply is of these words.
fn is_ok(reply: &Reply, words: &[u64]) -> bool {
    matches!(reply, Reply::Ok(given) if given.as_slice() == words)
}

// Whether the command is answered with these words, and a RIPAS is handed in exactly where it is needed.
fn gives(
    realm: &mut Realm,
    rec: &mut Rec,
    command: &Command,
    ripas: Option<Ripas>,
    words: &[u64],
) -> bool {
    walks(realm, rec, command) == ripas.is_some()
        && is_ok(&realm_call(realm, rec, command, ripas), words)
}

// Whether an Enter of the CPU is answered with these words.
fn enters(realm: &mut Realm, rec: &mut Rec, cpu: u8, words: &[u64]) -> bool {
    is_ok(&enter(realm, rec, cpu), words)
}

// Whether an Enter of the CPU is refused with this status and index.
fn is_refused(realm: &mut Realm, rec: &mut Rec, cpu: u8, fault: (u8, u8)) -> bool {
    matches!(enter(realm, rec, cpu), Reply::Err(status, index) if (status, index) == fault)
}

fn exits(rec: &mut Rec, words: &[u64]) -> bool {
    is_ok(&exit(rec), words)
}

#[test]
fn rem_extended_by_three_bytes(rt: HostRuntime) {
    let (mut realm, mut rec) = realm_and_rec();
    let extend = command(FunctionId::MeasurementExtend, 1, 3, 0xff03_0201);
    assert!(rt; gives(&mut realm, &mut rec, &extend, None, &[]));
    // 32 bytes of 00, then 01 02 03, hash to
    // 4400c1b8638ac2dc e3ce0e10b8a89117 5926ca29a7246e96 ef41aa81f11201cc,
    // of which each eight bytes are a word, read from the last on
    let digest = [
        0xdcc2_8a63_b8c1_0044,
        0x1791_a8b8_100e_cee3,
        0x966e_24a7_29ca_2659,
        0xcc01_12f1_81aa_41ef,
    ];
    let read = command(FunctionId::MeasurementRead, 1, 0, 0);
    assert!(rt; gives(&mut realm, &mut rec, &read, None, &digest));
}

#[test]
fn life_of_a_rec(rt: HostRuntime) {
    let (mut realm, mut rec) = realm_and_rec();
    assert!(rt; enters(&mut realm, &mut rec, 0, &[0]));
    assert!(rt; is_refused(&mut realm, &mut rec, 1, (3, 0)));
    assert!(rt; calls_its_host_once(&mut realm, &mut rec));
    assert!(rt; enters(&mut realm, &mut rec, 0, &[0]));
    assert!(rt; turns_off(&mut realm, &mut rec));
    assert!(rt; is_refused(&mut realm, &mut rec, 0, (2, 1)));
}

fn calls_its_host_once(realm: &mut Realm, rec: &mut Rec) -> bool {
    let call = command(FunctionId::HostCall, 0x2a, 0, 0);
    gives(realm, rec, &call, None, &[])
        && !gives(realm, rec, &call, None, &[])
        && exits(rec, &[5, 0x2a, 0, 0])
}

fn turns_off(realm: &mut Realm, rec: &mut Rec) -> bool {
    let off = command(FunctionId::SystemOff, 0, 0, 0);
    gives(realm, rec, &off, None, &[]) && exits(rec, &[3, 0x8400_0008, 0, 0])
}

#[test]
fn ripas_change(rt: HostRuntime) {
    let (mut realm, mut rec) = realm_and_rec();
    assert!(rt; enters(&mut realm, &mut rec, 0, &[0]));
    let set = command(FunctionId::IpaStateSet, 0x1000, 0x3000, 1);
    assert!(rt; gives(&mut realm, &mut rec, &set, None, &[]));
    assert!(rt; exits(&mut rec, &[4, 0x1000, 0x3000, 1]));
    assert!(rt; enters(&mut realm, &mut rec, 0, &[0x1000]));
    let get = command(FunctionId::IpaStateGet, 0x2000, 0, 0);
    assert!(rt; gives(&mut realm, &mut rec, &get, Some(Ripas::Ram), &[1]));
}
