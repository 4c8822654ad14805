//! Whether a cell is the same as another.

ghost use Rattle.std.specs.Prelude.{◌≡◌, IsTrue};
ghost use Rattle.granule_cells.specs.OneCell.{cell_seen};
ghost use Rattle.spec_machine.specs.Unmeasured.{unmeasured_realm};

use granule_cells::CellView;
use realm_desc::{HashAlgorithm, PendingExit, Realm, Rec, Rem, RipasRequest, Space};
use rmm_spec::Measurement;

/// Whether two cells are the same.
pub(crate) fn same_cell(one: CellView<'_>, other: CellView<'_>) -> bool
    ensures { IsTrue result → cell_seen one.entry ≡ cell_seen other.entry }
{
    match one {
        CellView::Undelegated => matches!(other, CellView::Undelegated),
        CellView::Delegated => matches!(other, CellView::Delegated),
        CellView::RecAux => matches!(other, CellView::RecAux),
        CellView::Data => matches!(other, CellView::Data),
        CellView::Rd(realm) => match other {
            CellView::Rd(second) => same_realm(realm, second),
            _ => false,
        },
        CellView::Rec(rec) => match other {
            CellView::Rec(second) => same_rec(rec, second),
            _ => false,
        },
        CellView::Rtt(table) => match other {
            CellView::Rtt(second) => table.is_same(second),
            _ => false,
        },
    }
}

fn same_realm(one: &Realm, other: &Realm) -> bool
    ensures { IsTrue result → one.now ≡ other.now }
{
    same_but_measurements(one, other) && have_same_measurements(one, other)
}

#[tactic(auto, unfolding(realm_desc::specs::View::realm_record))]
fn have_same_measurements(one: &Realm, other: &Realm) -> bool
    ensures rim { IsTrue result → one.now.rim ≡ other.now.rim }
    ensures rems { IsTrue result → one.now.rems ≡ other.now.rems }
{
    same_measurement(one.rim.measurement(), other.rim.measurement())
        && have_same_rems(&one.rems, &other.rems)
}

/// Whether all is the same but what was measured.
#[tactic(auto, unfolding(realm_desc::specs::View::realm_record))]
pub(crate) fn same_but_measurements(one: &Realm, other: &Realm) -> bool
    ensures { IsTrue result → unmeasured_realm one.now ≡ unmeasured_realm other.now }
{
    one.state == other.state
        && same_space(one.space, other.space)
        && one.vmid == other.vmid
        && same_algorithm(one.algorithm, other.algorithm)
        && one.root == other.root
        && one.next_index == other.next_index
}

fn have_same_rems(one: &[Rem], other: &[Rem]) -> bool
    ensures { IsTrue result → one.now ≡ other.now }
{
    if one.len() != other.len() {
        return false;
    }
    for index in 0..one.len() {
        if !same_rem(&one[index], &other[index]) {
            return false;
        }
    }
    true
}

fn same_rem(one: &Rem, other: &Rem) -> bool
    ensures { IsTrue result → one.now ≡ other.now }
{
    same_measurement(one.measurement(), other.measurement())
}

fn same_measurement(one: &Measurement, other: &Measurement) -> bool
    ensures { IsTrue result → one.now ≡ other.now }
{
    match one {
        Measurement::Sha256(bytes) => match other {
            Measurement::Sha256(second) => bytes == second,
            Measurement::Sha512(_) => false,
        },
        Measurement::Sha512(bytes) => match other {
            Measurement::Sha512(second) => bytes == second,
            Measurement::Sha256(_) => false,
        },
    }
}

fn same_algorithm(one: HashAlgorithm, other: HashAlgorithm) -> bool
    ensures { IsTrue result → one ≡ other }
{
    match one {
        HashAlgorithm::Sha256 => matches!(other, HashAlgorithm::Sha256),
        HashAlgorithm::Sha512 => matches!(other, HashAlgorithm::Sha512),
    }
}

fn same_space(one: Space, other: Space) -> bool
    ensures { IsTrue result → one ≡ other }
{
    match one {
        Space::Bits39 => matches!(other, Space::Bits39),
        Space::Bits48 => matches!(other, Space::Bits48),
    }
}

#[tactic(auto, unfolding(realm_desc::specs::View::rec_record))]
fn same_rec(one: &Rec, other: &Rec) -> bool
    ensures { IsTrue result → one.now ≡ other.now }
{
    one.owner == other.owner
        && one.index == other.index
        && one.aux0 == other.aux0
        && one.aux1 == other.aux1
        && one.runnable == other.runnable
        && one.cpu == other.cpu
        && same_request(one.request, other.request)
        && same_exit(one.pending, other.pending)
}

fn same_request(one: Option<RipasRequest>, other: Option<RipasRequest>) -> bool
    ensures { IsTrue result → one ≡ other }
{
    match (one, other) {
        (None, None) => true,
        (Some(one), Some(other)) => {
            one.base == other.base && one.top == other.top && one.ripas == other.ripas
        }
        _ => false,
    }
}

fn same_exit(one: Option<PendingExit>, other: Option<PendingExit>) -> bool
    ensures { IsTrue result → one ≡ other }
{
    match (one, other) {
        (None, None) => true,
        (Some(PendingExit::Psci(one)), Some(PendingExit::Psci(other))) => one == other,
        (Some(PendingExit::RipasChange), Some(PendingExit::RipasChange)) => true,
        (Some(PendingExit::HostCall(one)), Some(PendingExit::HostCall(other))) => one == other,
        _ => false,
    }
}
