//! What an accepted command makes of a REC and of its realm.

use crate::reply::reply_words;
use arrayvec::ArrayVec;
use realm_desc::{Realm, Rec};
use rmm_spec::{Accepted, Change, RealmChange, RealmUpdate, RecChange, RecUpdate, Reply};

/// The words of the reply, and what becomes of the two records. Where they lie doesn't matter for either.
#[derive(Drop)]
pub struct RecStep {
    pub words: ArrayVec<u64, 10>,
    pub realm: Option<RealmUpdate>,
    pub rec: Option<RecUpdate>,
}

impl RecStep {
    ghost use Rattle.std.specs.Prelude.{◌≡◌, ◌≤◌, length, [], Some, None};
    ghost use Rattle.rec_steps.specs.Answers.{accepted_at, change_at, realm_after, rec_after, IsStep};

    /// Nothing changes, and the reply has these words.
    pub(crate) fn read(words: &[u64]) -> RecStep
        requires { length words.now ≤ 10 }
        ensures { result ≡ record { words = record { items = words.now }; realm = None; rec = None } }
    {
        RecStep {
            words: reply_words(words),
            realm: None,
            rec: None,
        }
    }

    /// The REC is updated, and the reply has no words.
    pub(crate) fn of_rec(update: RecUpdate) -> RecStep
        ensures { result ≡ record { words = record { items = [] }; realm = None; rec = Some update } }
    {
        RecStep {
            words: ArrayVec::new(),
            realm: None,
            rec: Some(update),
        }
    }

    /// What it changes of the realm and the REC at these addresses.
    pub fn change(&self, rd: u64, rec: u64) -> Change
        ensures { result ≡ change_at rd rec self.now.realm self.now.rec }
    {
        match (self.realm, self.rec) {
            (None, None) => Change::Unchanged,
            (realm, update) => Change::RecordsChanged {
                realm: realm.map(|update| RealmChange { rd, update }),
                rec: update.map(|update| RecChange { rec, update }),
            },
        }
    }

    /// The step of the realm and the REC at these addresses, as the definitions accept it.
    #[inline(never)]
    pub fn accepted(self, rd: u64, rec: u64) -> Accepted
        ensures { result ≡ accepted_at rd rec self }
    {
        let change = self.change(rd, rec);
        Accepted::Done {
            words: self.words,
            change,
        }
    }

    /// Makes the step, and returns its reply.
    pub(crate) fn apply(self, realm: &mut Realm, rec: &mut Rec) -> Reply
        requires { IsStep self }
        ensures reply { result ≡ Reply.Ok self.words }
        ensures realm { realm.new ≡ realm_after self.realm realm.old }
        ensures rec { rec.new ≡ rec_after self.rec rec.old }
    {
        if let Some(update) = self.realm {
            realm.update(update);
        }
        self.apply_to_rec(rec)
    }

    /// Makes what the step changes of the REC, and returns its reply.
    pub(crate) fn apply_to_rec(self, rec: &mut Rec) -> Reply
        requires { IsStep self }
        ensures reply { result ≡ Reply.Ok self.words }
        ensures rec { rec.new ≡ rec_after self.rec rec.old }
    {
        if let Some(update) = self.rec {
            rec.update(update);
        }
        Reply::Ok(self.words)
    }
}
