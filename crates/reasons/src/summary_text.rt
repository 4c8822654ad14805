//! The summary of a linearization, as lines.

use crate::explanation::Summary;
use crate::facts_text::TagText;
use crate::owner_rows::OwnerRow;
use rmm_spec::Tag;
use std::fmt;

/// The roles that a granule has in a realm.
const ROLES: [Tag; 5] = [Tag::Rd, Tag::Rtt, Tag::Rec, Tag::RecAux, Tag::Data];

impl fmt::Display for Summary {
    fn fmt<W: fmt::Write>(&self, f: &mut fmt::Formatter<W>) -> fmt::Result {
        write_counts(f, self)?;
        let rows = self.owners.as_slice();
        for row in rows {
            if row.tag == Tag::Rd {
                write_realm(f, rows, row)?;
            }
        }
        Ok(())
    }
}

// How many calls, CPUs and granules there are.
fn write_counts<W: fmt::Write>(f: &mut fmt::Formatter<W>, summary: &Summary) -> fmt::Result {
    let (count, calls, cpus) = (summary.count, summary.calls, summary.cpus);
    let rows = summary.owners.as_slice();
    let granules = rows.len();
    let host = count_of(rows, Tag::Undelegated);
    let delegated = count_of(rows, Tag::Delegated);
    write!(
        f,
        "calls: {calls}, of them {count} in the order\nCPUs: {cpus}\n"
    )?;
    write!(
        f,
        "granules at the end: {granules}, of them {host} UNDELEGATED and {delegated} DELEGATED\n"
    )
}

// The realm whose descriptor a row has, with its granules by role.
fn write_realm<W: fmt::Write>(
    f: &mut fmt::Formatter<W>,
    rows: &[OwnerRow],
    realm: &OwnerRow,
) -> fmt::Result {
    let rd = realm.granule.address();
    write!(f, "realm at {rd:x}:")?;
    for role in ROLES {
        let count = rows
            .iter()
            .filter(|row| row.tag == role && row.realm == Some(realm.granule))
            .count();
        let role = TagText(role);
        if count > 0 {
            write!(f, " {role} {count}")?;
        }
    }
    f.write_str("\n")
}

fn count_of(rows: &[OwnerRow], tag: Tag) -> usize {
    rows.iter().filter(|row| row.tag == tag).count()
}
