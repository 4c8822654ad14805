//! The limits of a machine, and where its granules begin.

use memory_map::{Config, Ipa, Pa, granule_at};
use rmm_spec::Version;
use std::process::Abort;
use std::test::Fail;

// How many granules and CPUs a machine has, and whether it is allowed.
type Limit = (u64, u64, bool);

const LIMITS: [Limit; 6] = [
    (0, 1, false),
    (1, 0, false),
    (1, 1, true),
    (4096, 8, true),
    (4097, 8, false),
    (4096, 9, false),
];

#[test]
fn limits(rt: HostRuntime) {
    for limit in &LIMITS {
        expect_limit(&rt, limit);
    }
}

fn expect_limit<R: Abort + AllocGlobal>(rt: &R, limit: &Limit) {
    let (granules, cpus, is_allowed) = *limit;
    assert!(rt;
        Config::new(granules, cpus).is_some() == is_allowed,
        "at {granules} {cpus}"
    );
}

// How many granules and CPUs a machine of a version has, and whether it is allowed.
type Limits = (u64, u64, u64, bool);

const VERSIONS: [Limits; 7] = [
    (4096, 8, 1, true),
    (4096, 8, 2, true),
    (4096, 8, 0, false),
    (4096, 8, 3, false),
    (4097, 8, 2, false),
    (4096, 9, 2, false),
    (0, 1, 2, false),
];

#[test]
fn versions(rt: HostRuntime) {
    for limits in &VERSIONS {
        expect_limits(&rt, limits);
    }
    assert!(rt; is_first(Config::new(4, 2)) && is_first(Config::with_version(4, 2, 1)));
    assert!(rt; is_second(Config::with_version(4, 2, 2)));
}

fn expect_limits<R: Abort + AllocGlobal>(rt: &R, limits: &Limits) {
    let (granules, cpus, version, is_allowed) = *limits;
    assert!(rt;
        Config::with_version(granules, cpus, version).is_some() == is_allowed,
        "at {granules} {cpus} {version}"
    );
}

fn is_first(config: Option<Config>) -> bool {
    matches!(config, Some(config) if matches!(config.version(), Version::One))
}

fn is_second(config: Option<Config>) -> bool {
    match config {
        Some(config) => {
            matches!(config.version(), Version::Two) && config.granules() == 4 && config.cpus() == 2
        }
        None => false,
    }
}

const LARGE: [Limit; 6] = [
    (0, 1, false),
    (1, 1, true),
    (4097, 1, true),
    (1_048_576, 8, true),
    (1_048_577, 1, false),
    (1_048_576, 9, false),
];

#[test]
fn large(rt: HostRuntime) -> Result<(), Fail> {
    for limit in &LARGE {
        expect_large(&rt, limit);
    }
    let config = Config::large(1_048_576, 1).ok_or("within the limits")?;
    assert!(rt; matches!(config.version(), Version::Large) && ends_at_4_gib(&config));
    Ok(())
}

fn expect_large<R: Abort + AllocGlobal>(rt: &R, limit: &Limit) {
    let (granules, cpus, is_allowed) = *limit;
    assert!(rt;
        Config::large(granules, cpus).is_some() == is_allowed,
        "at {granules} {cpus}"
    );
}

fn ends_at_4_gib(config: &Config) -> bool {
    granule_at(config, 0xffff_f000).is_some() && granule_at(config, 0x1_0000_0000).is_none()
}

#[test]
fn four_granules(rt: HostRuntime) -> Result<(), Fail> {
    let config = Config::new(4, 2).ok_or("within the limits")?;
    assert!(rt; config.granules() == 4 && config.cpus() == 2);
    assert!(rt; has_its_last(&config) && has_no_others(&config));
    Ok(())
}

fn has_its_last(config: &Config) -> bool {
    matches!(granule_at(config, 0x3000), Some(granule) if granule.address() == 0x3000)
}

fn has_no_others(config: &Config) -> bool {
    granule_at(config, 0x1001).is_none()
        && granule_at(config, 0x4000).is_none()
        && granule_at(config, 0xffff_ffff_ffff_f000).is_none()
}

#[test]
fn addresses(rt: HostRuntime) {
    assert_eq!(rt; Pa::new(0x2000).address(), 0x2000);
    assert_eq!(rt; Ipa::new(0x2000).address(), 0x2000);
}
