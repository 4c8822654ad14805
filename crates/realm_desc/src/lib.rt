//! Realms and their RECs as the machine and the monitor keep them, how each command changes one, and their measurements (DEN0137, FIPS 180-4).
//! It promises that a value is the record of the definitions, that each method is its row's test or its row's change, and that a measurement is
//! the function of its arguments that `rmm_spec` defines in `specs/Measure.antt`, over SHA-256 or SHA-512. The layout of what is hashed is our own.
//! Fields are public, and a type keeps the one fact that ties two: a REC's auxiliary granules are two. A change that not every record allows requires
//! its row's test. Nothing takes memory, waits or fails; addresses are in bytes. Granules' cells, RECs' steps, the machine and the core stand on it.
#![tactic(auto)]

mod feed;
mod hash_algorithm;
mod known;
mod measurement_words;
mod pending_exit;
mod realm;
mod realm_built;
mod realm_measured;
mod realm_update;
mod rec;
mod rec_pending;
mod rec_request;
mod rec_running;
mod rec_update;
mod rem;
mod rim;
mod ripas_request;
mod space;

pub use hash_algorithm::HashAlgorithm;
pub use measurement_words::{words, words8};
pub use pending_exit::PendingExit;
pub use realm::{RECS, Realm};
pub use rec::Rec;
pub use rem::{Rem, extend_bytes};
pub use rim::{Rim, begin, extend_words};
pub use ripas_request::RipasRequest;
pub use rmm_spec::{RealmState, Ripas};
pub use space::Space;
