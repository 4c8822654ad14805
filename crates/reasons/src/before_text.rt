//! The state before a step, as lines.

use crate::before::{GranuleBefore, RealmBefore, RecBefore, StateBefore, WalkBefore};
use crate::facts_text::{PendingText, RequestText, StateText, TagText};
use std::fmt;

impl fmt::Display for StateBefore {
    fn fmt<W: fmt::Write>(&self, f: &mut fmt::Formatter<W>) -> fmt::Result {
        f.write_str("before the step:\n")?;
        for granule in &self.granules {
            write!(f, "{granule}")?;
        }
        write_if(f, self.realm.as_ref())?;
        write_if(f, self.rec.as_ref())?;
        write_if(f, self.walk.as_ref())
    }
}

// What is there, if anything is.
fn write_if<W: fmt::Write, T: fmt::Display>(
    f: &mut fmt::Formatter<W>,
    there: Option<&T>,
) -> fmt::Result {
    match there {
        Some(there) => write!(f, "{there}"),
        None => Ok(()),
    }
}

impl fmt::Display for GranuleBefore {
    fn fmt<W: fmt::Write>(&self, f: &mut fmt::Formatter<W>) -> fmt::Result {
        let granule = self.granule;
        let Some(tag) = self.tag else {
            return write!(f, "    {granule:x} is no granule\n");
        };
        let tag = TagText(tag);
        match self.rd {
            Some(rd) if rd != granule => {
                write!(f, "    {granule:x} is {tag}, of the realm at {rd:x}\n")
            }
            _ => write!(f, "    {granule:x} is {tag}\n"),
        }
    }
}

impl fmt::Display for RealmBefore {
    fn fmt<W: fmt::Write>(&self, f: &mut fmt::Formatter<W>) -> fmt::Result {
        let (rd, width, level, vmid) = (self.rd, self.width, self.start_level, self.vmid);
        let (algo, root, next_index) = (self.algo, self.root, self.next_index);
        let state = StateText(self.state);
        write!(
            f,
            "    the realm at {rd:x} is {state}: width={width:x} start_level={level:x} "
        )?;
        write!(
            f,
            "vmid={vmid:x} algo={algo:x} root={root:x} next_index={next_index:x}\n"
        )
    }
}

impl fmt::Display for RecBefore {
    fn fmt<W: fmt::Write>(&self, f: &mut fmt::Formatter<W>) -> fmt::Result {
        let (rec, rd, index) = (self.rec, self.rd, self.index);
        write!(
            f,
            "    the REC at {rec:x} has index {index:x} in the realm at {rd:x}"
        )?;
        match self.cpu {
            Some(cpu) => write!(f, ", runs on CPU {cpu}")?,
            None if self.runnable => f.write_str(", can be entered")?,
            None => f.write_str(", isn't runnable")?,
        }
        if let Some(pending) = self.pending {
            let pending = PendingText(pending);
            write!(f, ", waits to leave for {pending}")?;
        }
        if let Some(request) = self.request {
            let request = RequestText(request);
            write!(f, ", asked for {request}")?;
        }
        f.write_str("\n")
    }
}

impl fmt::Display for WalkBefore {
    fn fmt<W: fmt::Write>(&self, f: &mut fmt::Formatter<W>) -> fmt::Result {
        let ipa = self.ipa;
        for entry in &self.entries {
            write!(f, "    the entry for {ipa:x} at {entry}\n")?;
        }
        Ok(())
    }
}
