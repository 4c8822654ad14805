//! Commits on cells that were taken from granules.

ghost use Rattle.std.specs.Prelude.{◌≡◌, ◌<◌, IsTrue};
ghost use Rattle.rmm_spec.specs.Lookup.{is_granule};
ghost use Rattle.granule_lock.specs.HeldCells.{hold_cells};
ghost use Rattle.granule_lock.specs.Locked.{AreGranules};

use arrayvec::ArrayVec;
use command_core::{CpuPlace, Next, next_lock};
use command_log::CommandLog;
use commit_tickets::{CommitFault, CpuToken, Done, Journal, Site, commit};
use granule_lock::{Granules, Hold, free_all, lock_for};
use memory_map::{Config, Pa};
use rmm_spec::{Command, FunctionId, Reply, Tag};
use std::alloc::Global;
use std::marker::Brand;
use std::sync::Wait;
use std::sync::ledger::Blank;
use std::test::Fail;

/// What came of a commit, or nothing where the hold isn't what the command's plan asks for.
type Answer = Option<Result<Done, CommitFault>>;

fn delegate(address: u64) -> Command {
    let mut words = ArrayVec::new();
    words.push(address);
    Command {
        function: FunctionId::GranuleDelegate,
        words,
    }
}

/// Whether the command was committed under this ticket with this reply.
fn is_done(answer: &Answer, ticket: usize, reply: &Reply) -> bool {
    match answer {
        Some(Ok(done)) => done.ticket == ticket && done.reply == *reply,
        _ => false,
    }
}

fn ok() -> Reply {
    Reply::Ok(ArrayVec::new())
}

/// Whether a granule was delegated, and nothing else committed.
fn is_one_delegate(mine: &CommandLog<usize>, ticket: usize, address: u64, reply: &Reply) -> bool {
    match mine.get(0) {
        Some(only) => {
            mine.len() == 1
                && only.mark == ticket
                && only.command.to_command() == delegate(address)
                && only.reply.is(reply)
        }
        None => false,
    }
}

/// A hold of one granule.
fn hold_of<R: Wait>(rt: &R, granules: &Granules, address: u64) -> Hold
    requires { IsTrue (is_granule granules.now.granules address) }
    ensures { AreGranules granules.now.granules (hold_cells result) }
{
    let mut hold = Hold::new();
    granules.take(rt, &mut hold, Pa::new(address));
    hold
}

/// Gives home all that is held.
fn give_home<R: Wait>(rt: &R, granules: &Granules, mut hold: Hold)
    requires { AreGranules granules.now.granules (hold_cells hold) }
{
    free_all(rt, granules, &mut hold);
    hold.end();
}

/// Delegates a granule on what is held.
fn delegate_on<S: Site>(
    alloc: Global,
    config: &Config,
    journal: &mut Journal<S>,
    token: &mut CpuToken<S>,
    hold: &mut Hold,
    address: u64,
) -> Answer
    requires size { config.now ≡ S.config }
    requires granules { AreGranules S.config.granules (hold_cells hold.old) }
    ensures { AreGranules S.config.granules (hold_cells hold.new) }
{
    let command = delegate(address);
    match next_lock(config, &command, &token.place(), None, hold.pairs()) {
        Next::Ready => Some(commit(alloc, journal, token, hold, &command)),
        _ => None,
    }
}

/// Delegates a granule on the cells of one machine, and then on those of another. Whether the second commit disagrees, and
/// nothing is left of it in journal, token and cells.
#[tactic(auto, unfolding(rmm_spec::specs::Lookup::is_granule))]
fn disagrees_elsewhere<S: Site, R: Wait>(
    rt: &R,
    alloc: Global,
    config: &Config,
    journal: &mut Journal<S>,
    token: &mut CpuToken<S>,
    granules: &Granules,
    others: &Granules,
) -> bool
    requires size { config.now ≡ S.config }
    requires four { S.config.granules ≡ 4 }
    requires granules { granules.now.granules ≡ S.config.granules }
    requires others { others.now.granules ≡ S.config.granules }
{
    let mut hold = hold_of(rt, granules, 0x1000);
    let first = delegate_on(alloc, config, journal, token, &mut hold, 0x1000);
    let mut other = hold_of(rt, others, 0x1000);
    let second = delegate_on(alloc, config, journal, token, &mut other, 0x1000);
    let tags = (tag_of(&hold, 0x1000), tag_of(&other, 0x1000));
    give_home(rt, granules, hold);
    give_home(rt, others, other);
    is_done(&first, 0, &ok())
        && matches!(&second, Some(Err(CommitFault::Disagrees)))
        && tags == (Some(Tag::Delegated), Some(Tag::Undelegated))
        && journal.len() == 1
        && token.mine().len() == 1
}

fn tag_of(hold: &Hold, address: u64) -> Option<Tag> {
    Some(hold.pairs().cell(Pa::new(address))?.tag())
}

/// Whether that is so on the granules of two new machines.
fn disagrees_on_new<S: Site, R: Wait>(
    rt: &R,
    alloc: Global,
    config: &Config,
    journal: &mut Journal<S>,
    token: &mut CpuToken<S>,
) -> Result<bool, Fail>
    requires size { config.now ≡ S.config }
    requires four { S.config.granules ≡ 4 }
{
    let granules = Granules::new(alloc, config)?;
    let others = Granules::new(alloc, config)?;
    Ok(disagrees_elsewhere(rt, alloc, config, journal, token, &granules, &others))
}

/// Whether that is so with the last token.
fn disagrees_with<S: Site, R: Wait>(
    rt: &R,
    alloc: Global,
    config: &Config,
    journal: &mut Journal<S>,
    mut tokens: Vec<CpuToken<S>>,
) -> Result<bool, Fail>
    requires size { config.now ≡ S.config }
    requires four { S.config.granules ≡ 4 }
{
    let mut token = tokens.pop().ok_or("a token")?;
    disagrees_on_new(rt, alloc, config, journal, &mut token)
}

/// Whether that is so on a new journal.
fn delegate_twice<S: Site, R: Wait>(
    rt: &R,
    alloc: Global,
    blank: Blank,
    config: Config,
) -> Result<bool, Fail>
    requires name { blank.name ≡ S.name }
    requires parts { blank.parts ≡ S.parts }
    requires one_each { blank.parts ≡ config.cpus }
    requires granules { config ≡ S.config }
    requires four { config.granules ≡ 4 }
{
    let (mut journal, tokens) = Journal::<S>::new(alloc, blank, config)?;
    disagrees_with(rt, alloc, &config, &mut journal, tokens)
}

#[test]
fn other_cells_disagree(rt: HostRuntime) -> Result<(), Fail> {
    let config = Config::new(4, 1).ok_or("a machine of this size")?;
    assert!(rt; delegate_twice::<Brand, _>(&rt, rt.alloc(), Blank::new(1), config)?);
    Ok(())
}

/// Three commits of two CPUs, the first of which is stopped after its first. Whether they are answered as they should be.
fn answers_of_two<S: Site>(
    alloc: Global,
    config: &Config,
    journal: &mut Journal<S>,
    first: &mut CpuToken<S>,
    second: &mut CpuToken<S>,
    low: &mut Hold,
    high: &mut Hold,
) -> bool
    requires size { config.now ≡ S.config }
    requires low { AreGranules S.config.granules (hold_cells low.old) }
    requires high { AreGranules S.config.granules (hold_cells high.old) }
    ensures low { AreGranules S.config.granules (hold_cells low.new) }
    ensures high { AreGranules S.config.granules (hold_cells high.new) }
{
    let one = delegate_on(alloc, config, journal, first, low, 0x1000);
    let two = delegate_on(alloc, config, journal, second, low, 0x1000);
    first.stop();
    let three = delegate_on(alloc, config, journal, first, high, 0x2000);
    is_done(&one, 0, &ok()) && is_done(&two, 1, &Reply::Err(1, 0)) && is_done(&three, 2, &ok())
}

/// Whether the journal and the tokens have what they should then.
fn are_listed<S: Site>(journal: &Journal<S>, first: &CpuToken<S>, second: &CpuToken<S>) -> bool {
    journal.len() == 3
        && first.cpu() == 0
        && first.is_stopped()
        && first.mine().len() == 2
        && is_one_delegate(second.mine(), 1, 0x1000, &Reply::Err(1, 0))
}

/// Whether both is so on these granules.
#[tactic(auto, unfolding(rmm_spec::specs::Lookup::is_granule))]
fn commit_on<S: Site, R: Wait>(
    rt: &R,
    alloc: Global,
    config: &Config,
    journal: &mut Journal<S>,
    first: &mut CpuToken<S>,
    second: &mut CpuToken<S>,
    granules: &Granules,
) -> bool
    requires size { config.now ≡ S.config }
    requires four { S.config.granules ≡ 4 }
    requires granules { granules.now.granules ≡ S.config.granules }
{
    let mut low = hold_of(rt, granules, 0x1000);
    let mut high = hold_of(rt, granules, 0x2000);
    let are_right = answers_of_two(alloc, config, journal, first, second, &mut low, &mut high);
    give_home(rt, granules, low);
    give_home(rt, granules, high);
    are_right && are_listed(journal, first, second)
}

/// Whether both is so on new granules.
fn commit_on_new<S: Site, R: Wait>(
    rt: &R,
    alloc: Global,
    config: &Config,
    journal: &mut Journal<S>,
    first: &mut CpuToken<S>,
    second: &mut CpuToken<S>,
) -> Result<bool, Fail>
    requires size { config.now ≡ S.config }
    requires four { S.config.granules ≡ 4 }
{
    let granules = Granules::new(alloc, config)?;
    Ok(commit_on(rt, alloc, config, journal, first, second, &granules))
}

/// Whether both is so with the last two tokens.
fn commit_with<S: Site, R: Wait>(
    rt: &R,
    alloc: Global,
    config: &Config,
    journal: &mut Journal<S>,
    mut tokens: Vec<CpuToken<S>>,
) -> Result<bool, Fail>
    requires size { config.now ≡ S.config }
    requires four { S.config.granules ≡ 4 }
{
    let mut second = tokens.pop().ok_or("a token for CPU 1")?;
    let mut first = tokens.pop().ok_or("a token for CPU 0")?;
    commit_on_new(rt, alloc, config, journal, &mut first, &mut second)
}

/// Whether both is so on a new journal.
fn commits_of_two<S: Site, R: Wait>(
    rt: &R,
    alloc: Global,
    blank: Blank,
    config: Config,
) -> Result<bool, Fail>
    requires name { blank.name ≡ S.name }
    requires parts { blank.parts ≡ S.parts }
    requires one_each { blank.parts ≡ config.cpus }
    requires two { config.cpus ≡ 2 }
    requires granules { config ≡ S.config }
    requires four { config.granules ≡ 4 }
{
    let (mut journal, mut tokens) = Journal::<S>::new(alloc, blank, config)?;
    journal.audit(tokens.as_mut_slice());
    commit_with(rt, alloc, &config, &mut journal, tokens)
}

#[test]
fn both_delegate_one_granule(rt: HostRuntime) -> Result<(), Fail> {
    let config = Config::new(4, 2).ok_or("a machine of this size")?;
    assert!(rt; commits_of_two::<Brand, _>(&rt, rt.alloc(), Blank::new(2), config)?);
    Ok(())
}

/// Locks the second granule of a machine for its delegation. Returns whether that one alone was taken.
fn takes_one<R: Wait>(rt: &R, granules: &Granules, config: &Config) -> bool
    requires { granules.now.granules ≡ config.now.granules }
{
    let command = delegate(0x1000);
    let mut hold = Hold::new();
    lock_for(
        rt,
        granules,
        config,
        &CpuPlace::Outside,
        &command,
        &mut hold,
    );
    let is_alone = matches!(hold.pairs().held(), [only] if *only == Pa::new(0x1000));
    give_home(rt, granules, hold);
    is_alone
}

/// The same on a machine of four granules, while each other one is held elsewhere.
#[tactic(auto, unfolding(rmm_spec::specs::Lookup::is_granule))]
fn locks_beside<R: Wait>(rt: &R, alloc: Global, config: Config) -> Result<bool, Fail>
    requires { config.granules ≡ 4 }
{
    let granules = Granules::new(alloc, &config)?;
    let first = hold_of(rt, &granules, 0);
    let third = hold_of(rt, &granules, 0x2000);
    let fourth = hold_of(rt, &granules, 0x3000);
    let is_alone = takes_one(rt, &granules, &config);
    give_home(rt, &granules, first);
    give_home(rt, &granules, third);
    give_home(rt, &granules, fourth);
    Ok(is_alone)
}

#[test]
fn plan_asks_for_nothing_else(rt: HostRuntime) -> Result<(), Fail> {
    let config = Config::new(4, 1).ok_or("a machine of this size")?;
    assert!(rt; locks_beside(&rt, rt.alloc(), config)?);
    Ok(())
}
