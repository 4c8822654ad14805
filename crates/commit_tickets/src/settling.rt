//! A CPU makes the change that it committed.

ghost use Rattle.std.specs.Prelude.{◌≡◌, None, IsTrue, IsSomeAnd};
ghost use Rattle.world_laws.specs.Replaced.{replaced_all};
ghost use Rattle.command_core.specs.Changed.{AreHeld, fits_cells, given_of, new_cells, new_place};
ghost use Rattle.command_core.specs.Foreseen as spec;
ghost use Rattle.command_core.specs.Rooms.{IsRoomFor};
ghost use Rattle.command_core.specs.Seen.{place_of};
ghost use Rattle.granule_lock.specs.HeldCells.{hold_cells};
ghost use Rattle.commit_tickets.specs.Drafts.{IsEnteredOn};

use crate::draft::{Draft, change_of};
use crate::site::Site;
use crate::token::CpuToken;
use granule_lock::Hold;
use rmm_spec::Reply;

/// Makes the change of a draft that `enter` put into the journal for this token and this hold, of what is held and of the token's
/// place, and returns its reply. The journal isn't needed. It takes no memory. The draft owes nothing then, and can be discarded or drafted anew.
pub(crate) fn settle<S: Site>(draft: &mut Draft, token: &mut CpuToken<S>, hold: &mut Hold) -> Reply
    requires entered { IsEnteredOn draft.old token.old.cpu (hold_cells hold.old) }
    requires held { AreHeld (hold_cells hold.old) (spec.change_of draft.old.answer) }
    requires fits { IsTrue (fits_cells (hold_cells hold.old) (spec.change_of draft.old.answer)) }
    requires room { IsSomeAnd draft.old.room (IsRoomFor (spec.change_of draft.old.answer)) }
    ensures reply { result ≡ given_of draft.old.answer }
    ensures cells { hold_cells hold.new ≡ replaced_all (hold_cells hold.old) (new_cells (hold_cells hold.old) (spec.change_of draft.old.answer)) }
    ensures place { place_of token.new.place ≡ new_place (hold_cells hold.old) (place_of token.old.place) (spec.change_of draft.old.answer) }
    ensures token { token.new ≡ record token.old { place = token.new.place } }
    ensures settled { draft.new.entered ≡ None }
{
    let Some(room) = draft.room.take() else {
        unreachable!()
    };
    hold.apply(&mut token.place, change_of(&draft.answer), room);
    draft.entered = None;
    draft.reply().to_reply()
}
