//! The machine, what it answers to a command, and its steps.

ghost use Rattle.std.specs.Prelude.{◌≡◌};

use crate::fault::FlatFault;
use crate::kept::{Kept, Spot};
use command_rows::{Sight, answer_inside, answer_outside, reached_change};
use memory_map::{Config, GRANULE_BYTES};
use realm_desc::Rec;
use rmm_spec::{Accepted, Call, Command, Entry, Refusal, Reply, Tag};
use std::alloc::Global;
use std::collections::HashMap;

/// A state of the machine. Granules of which nothing is kept are the host's.
#[derive(Drop)]
pub struct FlatMachine {
    pub(crate) config: Config,
    pub(crate) granules: HashMap<u64, Kept>,
    pub(crate) tables: HashMap<Spot, u64>,
    pub(crate) leaves: HashMap<Spot, Entry>,
}

impl FlatMachine {
    ghost use Rattle.std.specs.Prelude.{◌≡◌, IsTrue};
    ghost use Rattle.rmm_spec.specs.declared.tag.Tag.TheVariants as tag;
    ghost use Rattle.rmm_spec.specs.Lookup.{has_tag, rec_at};
    ghost use Rattle.command_rows.specs.Answers.{IsOwned};
    ghost use Rattle.flat_machine.specs.Flat.{state_of};

    /// A machine of that size in which every granule is the host's.
    pub fn new(alloc: Global, config: Config) -> FlatMachine {
        FlatMachine {
            config,
            granules: HashMap::new(alloc),
            tables: HashMap::new(alloc),
            leaves: HashMap::new(alloc),
        }
    }

    /// What the rows answer to the command of this CPU.
    #[tactic(auto, using(command_rows::proofs::Outcomes::inside))]
    pub fn outcome(
        &self,
        cpu: u8,
        command: &Command,
    ) -> Result<Result<Accepted, Refusal>, FlatFault> {
        let call = command.call();
        let Some(rec) = self.rec_inside(cpu) else {
            if !self.can_answer(&call) {
                return Err(FlatFault::Missing);
            }
            return Ok(answer_outside(self, cpu, &call));
        };
        if !self.has_tag(rec, Tag::Rec) {
            return Err(FlatFault::Missing);
        }
        if !self.is_owned(rec) {
            return Err(FlatFault::Missing);
        }
        Ok(answer_inside(self, rec, &call))
    }

    /// Takes one step: whether the reply is the command's. Where it is, the command's change is made.
    pub fn offer(&mut self, cpu: u8, command: &Command, reply: &Reply) -> Result<bool, FlatFault> {
        let change = match self.outcome(cpu, command)? {
            Err(refusal) => return Ok(*reply == refusal.reply()),
            Ok(Accepted::Done { words, change }) => {
                if words_of(reply) != Some(words.as_slice()) {
                    return Ok(false);
                }
                change
            }
            Ok(Accepted::Reaches(stretch)) => match words_of(reply) {
                Some([top]) if self.is_reached(&stretch, *top) => reached_change(&stretch, *top),
                _ => return Ok(false),
            },
        };
        self.changed(&change)?;
        Ok(true)
    }

    // The REC that runs on the CPU, where one does.
    fn rec_inside(&self, cpu: u8) -> Option<u64> {
        for number in 0..self.config.granules() {
            let address = number.wrapping_mul(GRANULE_BYTES);
            if let Some(rec) = self.rec(address) {
                if rec.cpu == Some(cpu) {
                    return Some(address);
                }
            }
        }
        None
    }

    // Whether a REC, if one is there, has its realm.
    #[tactic(auto, unfolding(rmm_spec::specs::Lookup::rec_at))]
    fn is_owned(&self, rec: u64) -> bool
        ensures { IsTrue result → IsTrue (has_tag (state_of self.now) rec tag.Rec)
            → IsTrue (has_tag (state_of self.now) (rec_at (state_of self.now) rec).owner tag.Rd) }
    {
        match self.rec(rec) {
            Some(found) => self.has_tag(owner(&found), Tag::Rd),
            None => true,
        }
    }

    // Whether the REC that a command enters, if one is there, has its realm.
    fn can_answer(&self, call: &Call) -> bool
        ensures { IsTrue result → IsOwned (state_of self.now) call.now }
    {
        match *call {
            Call::RecEnter { rec } => self.is_owned(rec),
            _ => true,
        }
    }
}

// The realm that a REC belongs to, by the address of its descriptor.
#[tactic(auto, unfolding(realm_desc::specs::View::rec_record))]
fn owner(rec: &Rec) -> u64
    ensures { result ≡ rec.now.owner }
{
    rec.owner.address()
}

// The words of a reply, where the command was carried out.
fn words_of(reply: &Reply) -> Option<&[u64]> {
    match reply {
        Reply::Ok(words) => Some(words.as_slice()),
        Reply::Err(..) | Reply::Misplaced => None,
    }
}
