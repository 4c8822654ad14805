//! Names, each with the tag that is needed there.

ghost use Rattle.std.specs.Prelude.{◌≡◌, ◌∷◌, [], ◌==◌};
ghost use Rattle.rmm_spec.specs.Lookup.{tag_number};
ghost use Rattle.rmm_spec.specs.Step.Terms as spec;
ghost use Rattle.command_words.specs.Names.{names_of};

use crate::name_list::{Name, Names};
use rmm_spec::Tag;

impl Names {
    ghost use Rattle.std.specs.Prelude.{◌≡◌};
    ghost use Rattle.command_words.specs.Names.{names_of};

    pub fn as_slice(&self) -> &[Name]
        ensures { result.now ≡ names_of self.now }
    {
        &self.list[..self.count]
    }
}

/// A name.
#[inline(always)]
pub fn needed(granule: u64, tag: Tag) -> Name
    ensures { result ≡ spec.needed granule tag }
{
    Name { granule, tag }
}

/// No names, with one that fills the list.
#[inline(always)]
pub(crate) fn none() -> Names
    ensures { names_of result ≡ [] }
{
    let unused = needed(0, Tag::Undelegated);
    Names {
        list: [unused, unused, unused, unused],
        count: 0,
    }
}

/// One name.
#[inline(always)]
pub fn one(first: Name) -> Names
    ensures { names_of result ≡ first ∷ [] }
{
    Names {
        list: [first, first, first, first],
        count: 1,
    }
}

/// Two names.
#[inline(always)]
pub fn two(first: Name, second: Name) -> Names
    ensures { names_of result ≡ first ∷ second ∷ [] }
{
    Names {
        list: [first, second, second, second],
        count: 2,
    }
}

/// Three names.
#[inline(always)]
pub(crate) fn three(first: Name, second: Name, third: Name) -> Names
    ensures { names_of result ≡ first ∷ second ∷ third ∷ [] }
{
    Names {
        list: [first, second, third, third],
        count: 3,
    }
}

/// Four names.
#[inline(always)]
pub(crate) fn four(first: Name, second: Name, third: Name, fourth: Name) -> Names
    ensures { names_of result ≡ first ∷ second ∷ third ∷ fourth ∷ [] }
{
    Names {
        list: [first, second, third, fourth],
        count: 4,
    }
}

/// Whether two tags are one.
pub fn is_tag(tag: Tag, other: Tag) -> bool
    ensures { result ≡ (tag_number tag == tag_number other) }
{
    number_of(tag) == number_of(other)
}

// A tag's place among them.
fn number_of(tag: Tag) -> u8
    ensures { result ≡ tag_number tag }
{
    match tag {
        Tag::Undelegated => 0,
        Tag::Delegated => 1,
        Tag::Rd => 2,
        Tag::Rec => 3,
        Tag::RecAux => 4,
        Tag::Data => 5,
        Tag::Rtt => 6,
    }
}
