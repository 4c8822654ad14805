//! Why a verdict is as it is, as values and texts: conditions as tests of a state, a line's wrong field, granules' owners. `explain` stands on it.
//! It promises that a command is refused for the first condition of its list that fails, and accepted where none does; that a test passes on a
//! machine exactly where it does by the definitions, and asks of a word the command's at that place; that owners are the state's, texts end, and an
//! explanation's verdict is the one that `verdict_of` names; and, of a malformed line, that the fields before the place are those of some line of the
//! grammar, what is reported as expected there is exactly what some such line has after them, and the line has none of it (`specs/Wrong.antt`).
#![tactic(auto)]

mod asked;
mod asked_text;
mod before;
mod before_text;
mod condition_text;
mod deciding;
mod explanation;
mod explanation_text;
mod facts;
mod facts_text;
mod flaw;
mod laws;
mod levels;
mod line_parts;
mod lists;
mod named_call;
mod own_lists;
mod owner_rows;
mod passing;
mod place;
mod reading;
mod reply_text;
mod shown;
mod since;
mod since_text;
mod source;
mod summary_text;
mod test;
mod wanted;
mod wanted_text;
mod word_lists;
mod word_text;
mod writing;
mod wrong_part;

pub use asked::Asked;
pub use asked_text::{AskedText, command_word};
pub use before::{GranuleBefore, RealmBefore, RecBefore, StateBefore, WalkBefore};
pub use condition_text::{condition_name, condition_of};
pub use deciding::failing_test;
pub use explanation::{BadLine, Cause, Deciding, Explanation, RefusedLine, Summary, WrongWord};
pub use facts::{EntryRead, Fact};
pub use facts_text::{PendingText, RipasText, StateText, TagText};
pub use flaw::{Flaw, Misplaced};
pub use laws::{conditions_decide, words_are_asked};
pub use levels::entry_size;
pub use line_parts::{
    wrong_in_certificate_line, wrong_in_command, wrong_in_event, wrong_in_header,
};
pub use named_call::{EarlierStep, NamedCall, UnfinishedCall};
pub use owner_rows::{OwnerRow, owner_report};
pub use passing::{is_standing, passes};
pub use place::{rec_inside, rec_inside_or_none};
pub use reading::{is_there, read};
pub use shown::Shown;
pub use since::{LateCommit, Since};
pub use source::{Source, source_of};
pub use test::{EntryKind, RealmTest, RecTest, Test, WalkTest, WordTest};
pub use wanted::{Role, Wanted};
pub use word_text::reply_word;
pub use writing::CallText;
pub use wrong_part::WrongPart;
