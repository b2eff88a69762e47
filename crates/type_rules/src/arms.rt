//! Which arm each tag of a union has in a `tagcase`.
ghost use Rattle.std.specs.Prelude.{◌≡◌, ◌≤◌, ◌++◌, ◌∷◌, [], ℕ, Bool, true, false, List, length, IfOk, IfErr, IfSome, Some, None, Ok, Err, if◌then◌else◌};
ghost use Rattle.std.specs.Option.{option_map};
ghost use Rattle.type_rules.specs.Parts.{tag_at, tags_at};
ghost use Rattle.type_rules.specs.Arms.{is_free, has_arm, have_arms, are_all_named, choices_of, chosen, agrees, gives_arm, IsArm, IsNoArm, IsFaultOf};

use crate::fault::TypeFault;
use crate::lookups::{member_in_union, tags_of};
use flow_value::{NoMemory, Seq};
use indexmap::IndexMap;
use sisal_tree::Named;
use std::alloc::Global;
use type_table::{Member, Types};
use typed_tree::Choice;

// The rule of `tagcase`.
const TAGCASE: u8 = 18;

/// Which arm each tag of a union has.
#[derive(Drop)]
pub struct Choices {
    /// The type of the union.
    pub union: usize,
    /// For each tag that has an arm its place in the union, and that of the arm.
    pub arms: IndexMap<u32, u32>,
}

impl Choices {
    /// No tag has an arm; none where the type is no union. Takes no memory.
    pub fn new(alloc: Global, types: &Types, union: usize) -> Option<Choices>
        ensures arms { option_map (λ c. c.arms.entries) result ≡ option_map (λ ms. []) (tags_at types.now union) }
        ensures union { IfSome result (λ c. c.union ≡ union) }
    {
        match tags_of(types, union) {
            Some(_) => {
                let arms = IndexMap::new(alloc);
                Some(Choices { union, arms })
            }
            None => None,
        }
    }

    /// The type of the content of an arm of these tags, which has this place among the arms. It
    /// breaks rule 18 at a tag that the union has not or that an arm has before, on the tag's line,
    /// and at contents of two types, on the arm's line; the first of these is told.
    pub fn arm(
        &mut self,
        types: &Types,
        tags: &[Named],
        arm: u32,
        line: u32,
    ) -> Result<usize, TypeFault>
        requires { 1 ≤ length tags.now }
        ensures content { IfOk result (λ ty. IsArm types.now self.old arm line tags.now ty self.new.arms.entries) }
        ensures refused { IfErr result (λ e. IsNoArm types.now self.old arm line tags.now e) }
        ensures union { self.new.union ≡ self.old.union }
    {
        content_of(self.union, &mut self.arms, types, tags, arm, line)
    }

    /// Whether each tag has an arm.
    pub fn are_all_named(&self, types: &Types) -> bool
        ensures { result ≡ are_all_named types.now self.now.union self.now.arms.entries }
    {
        match tags_of(types, self.union) {
            Some(tags) => have_arms(&self.arms, types, self.union, tags),
            None => true,
        }
    }

    /// The tags that have an arm, in the order in which they got it.
    pub fn into_choices(self, alloc: Global) -> Result<Seq<Choice>, NoMemory>
        ensures { IfOk result (λ choices. choices ≡ choices_of self.arms.entries) }
    {
        let Choices { union: _, arms } = self;
        let mut choices = Seq::with_room(alloc, arms.len())?;
        for (tag, arm) in arms.iter() {
            choices.add(Choice {
                tag: *tag,
                arm: *arm,
            })?;
        }
        Ok(choices)
    }
}

/// Whether a tag has no arm.
fn is_free(arms: &IndexMap<u32, u32>, tag: u32) -> bool
    ensures { result ≡ is_free arms.now.entries tag }
{
    !arms.contains_key(&tag)
}

/// Whether the first tag of a name has an arm.
fn has_arm(arms: &IndexMap<u32, u32>, types: &Types, union: usize, name: u32) -> bool
    ensures { result ≡ has_arm arms.now.entries (tag_at types.now union name) }
{
    match member_in_union(types, union, name) {
        Some((place, _)) => !is_free(arms, place),
        None => false,
    }
}

/// Whether these tags of a union have arms.
fn have_arms(arms: &IndexMap<u32, u32>, types: &Types, union: usize, tags: &[Member]) -> bool
    ensures { result ≡ have_arms types.now union arms.now.entries tags.now }
{
    for tag in tags {
        if !has_arm(arms, types, union, tag.name) {
            return false;
        }
    }
    true
}

/// Gives a tag without an arm this one.
fn give(arms: &mut IndexMap<u32, u32>, tag: u32, arm: u32) -> Result<bool, NoMemory>
    ensures free { IfOk result (λ b. b ≡ is_free arms.old.entries tag) }
    ensures arms { IfOk result (λ b. arms.new.entries ≡ (if b then arms.old.entries ++ (tag, arm) ∷ [] else arms.old.entries)) }
{
    if !is_free(arms, tag) {
        return Ok(false);
    }
    arms.insert(tag, arm)?;
    Ok(true)
}

/// Gives a tag its arm: the type of its content, where the union has the tag and it has no arm yet.
fn choose(
    union: usize,
    arms: &mut IndexMap<u32, u32>,
    types: &Types,
    tag: u32,
    arm: u32,
) -> Result<Option<usize>, NoMemory>
    ensures { IfOk result (λ o. option_map (λ ty. (ty, arms.new.entries)) o ≡ chosen types.now union arms.old.entries arm tag) }
{
    match member_in_union(types, union, tag) {
        Some((place, content)) => {
            let is_given = give(arms, place, arm)?;
            Ok(if is_given { Some(content) } else { None })
        }
        None => Ok(None),
    }
}

/// Whether a content is of the type of those before it, where there is one.
fn agrees(before: Option<usize>, ty: usize) -> bool
    ensures { result ≡ agrees before ty }
{
    match before {
        Some(other) => other == ty,
        None => true,
    }
}

/// Gives tags their arm: the type of their contents.
fn content_of(
    union: usize,
    arms: &mut IndexMap<u32, u32>,
    types: &Types,
    tags: &[Named],
    arm: u32,
    line: u32,
) -> Result<usize, TypeFault>
    requires { 1 ≤ length tags.now }
    ensures content { IfOk result (λ ty. gives_arm types.now union arm line None arms.old.entries tags.now ≡ Ok (Some ty, arms.new.entries)) }
    ensures refused { IfErr result (λ e. IsFaultOf e (gives_arm types.now union arm line None arms.old.entries tags.now)) }
{
    let mut content = None;
    for tag in tags {
        let Some(ty) = choose(union, arms, types, tag.name, arm)? else {
            return Err(TypeFault::Rule {
                rule: TAGCASE,
                line: tag.line,
            });
        };
        if !agrees(content, ty) {
            return Err(TypeFault::Rule {
                rule: TAGCASE,
                line,
            });
        }
        content = Some(ty);
    }
    match content {
        Some(ty) => Ok(ty),
        None => unreachable!(),
    }
}
