// The information sets, numbered by their first use.
ghost use Rattle.std.specs.Prelude.{◌≡◌, ◌+◌, ◌<◌, [], ◌∷◌, ◌++◌, not, if◌then◌else◌, length, map, option_map, IfOk, OnOk};
ghost use Rattle.std.specs.List.{position_or_len, list_any, AllByRecursion};
ghost use Rattle.game_core.specs.Spacing.{IsShortToken};
ghost use Rattle.game_core.specs.TokenList.{bare};
ghost use Rattle.file_parts.specs.Parsing.{Parses};
ghost use Rattle.written_trees.specs.Described.{same_set};
ghost use Rattle.written_trees.specs.Building.{partial_count, finished_set};
ghost use Rattle.tree_grammar.specs.Uses.{partial_set};
ghost use Rattle.tree_grammar.specs.TreeParsing.{parse_first_list, parse_later_list, parse_set};
ghost use Rattle.std.specs.Option.{option_or, unwrap_or};

use crate::actions::{first_list, later_list};
use crate::kinds::EfgKind;
use crate::pieces::positive;
use file_parts::{PartStop, optional_text, unexpected};
use game_core::{Action, InfoSet, Name, Spanned, copied};
use indexmap::IndexSet;
use std::alloc::{AllocError, AllocFailed, Global};
use std::marker::Model;

// What tells a set from others: chance and each player number their sets separately.
#[derive(Clone, Copy, Debug, PartialEq, Eq, Hash)]
struct SetKey {
    // The owner, and nothing for chance.
    owner: Option<u32>,
    // The number that the file gives it.
    label: u64,
}

// A set as far as it was used.
#[derive(Drop)]
struct KeptSet {
    // The owner, and nothing for chance.
    owner: Option<u32>,
    // The number that the file gives it.
    label: u64,
    // Its first name, where one came.
    name: Option<Name>,
    // The actions of its first use.
    actions: Vec<Action>,
    // The nodes that use it.
    members: Vec<u32>,
}

/// The information sets that were read so far, in the order of their first use. Callers see them as
/// a list of sets, each with its owner, the number that the file gives it, its first name, the
/// actions of its first use and the nodes that use it. The number of a set among them counts from
/// 0.
#[derive(Drop)]
pub struct Sets {
    // What tells them apart: always the keys of the sets.
    keys: IndexSet<SetKey>,
    // The sets.
    list: Vec<KeptSet>,
}

impl Model for Sets {
    ghost use Rattle.std.specs.Prelude.{List};
    ghost use Rattle.std.specs.Coded.{coded_list};
    ghost use Rattle.written_trees.specs.Building.{PartialSet};
    ghost use Rattle.tree_grammar.specs.UseCodes.{code_of_partial_set};

    ghost Value = { List PartialSet };

    ghost coded = { coded_list code_of_partial_set };

    ghost use Rattle.tree_grammar.specs.Uses.{partial_sets, AreSets};

    ghost view = { partial_sets };

    ghost invariant = { AreSets };
}

impl Sets {
    /// No sets.
    pub fn new(alloc: Global) -> Sets
        ensures { result ≡ [] }
    {
        Sets {
            keys: IndexSet::new(alloc),
            list: Vec::new(alloc),
        }
    }

    /// How many actions the set with this number among them, from 0, has. It is 0 at an end, which
    /// has no set, and where there is no such set.
    pub fn count(&self, set: Option<u32>) -> usize
        ensures { result ≡ partial_count self.now set }
    {
        match set {
            None => 0,
            Some(set) => match self.list.get(set as usize) {
                Some(set) => set.actions.len(),
                None => 0,
            },
        }
    }

    /// The sets of the whole tree; one without a name gets the empty one.
    ///
    /// # Errors
    ///
    /// Memory ran out.
    pub fn finish(self, alloc: Global) -> Result<Vec<InfoSet>, AllocError>
        ensures { IfOk result (λ v. v.items ≡ map finished_set self) }
    {
        let Sets { list, .. } = self;
        let mut finished = Vec::new(alloc);
        for set in list {
            let name = or_empty(alloc, set.name);
            finished.push(InfoSet::new(set.owner, set.label, name, set.actions, set.members))?;
        }
        Ok(finished)
    }
}

/// The name that came, and else the empty one.
pub(crate) fn or_empty(alloc: Global, name: Option<Name>) -> Name
    ensures { result ≡ unwrap_or name [] }
{
    match name {
        Some(name) => name,
        None => Name::new(Vec::new(alloc)),
    }
}

/// A name of its own, where one came.
pub(crate) fn optional_name(alloc: Global, name: Option<&Name>) -> Result<Option<Name>, AllocError>
    ensures { IfOk result (λ copy. copy ≡ option_map (λ t. t.now) name.entry) }
{
    match name {
        Some(name) => Ok(Some(copied(alloc, name)?)),
        None => Ok(None),
    }
}

// A set of a first use by this node, with the actions that come; and the tokens after them.
fn first_use<'a>(
    alloc: Global,
    key: SetKey,
    name: Option<&Name>,
    node: u32,
    tokens: &'a [Spanned],
) -> Result<(KeptSet, &'a [Spanned]), PartStop<EfgKind>>
    ensures read { Parses (λ x. (x.0.actions.items, bare x.1.now)) result
        (parse_first_list key.owner key.label (bare tokens.now)) }
    ensures set { IfOk result
        (λ x. partial_set x.0
        ≡ record {
          owner = key.owner;
          label = key.label;
          name = option_map (λ t. t.now) name.entry;
          actions = x.0.actions.items;
          members = node ∷ [];
        }) }
{
    let (actions, rest) = first_list(alloc, tokens, key.owner, key.label)?;
    let name = optional_name(alloc, name)?;
    let members = Vec::from_slice(alloc, &[node])?;
    let set = KeptSet {
        owner: key.owner,
        label: key.label,
        name,
        actions,
        members,
    };
    Ok((set, rest))
}

// The tokens after a later use of a set by this node, which is noted.
fn later_use<'a>(
    alloc: Global,
    set: &mut KeptSet,
    name: Option<&Name>,
    node: u32,
    tokens: &'a [Spanned],
) -> Result<&'a [Spanned], PartStop<EfgKind>>
    ensures read { Parses (λ rest. (tt, bare rest.now)) result
        (parse_later_list set.old.owner set.old.actions.items (bare tokens.now)) }
    ensures set { OnOk result
        (partial_set set.new
        ≡ record {
          owner = set.old.owner;
          label = set.old.label;
          name = option_or set.old.name (option_map (λ t. t.now) name.entry);
          actions = set.old.actions.items;
          members = set.old.members.items ++ node ∷ [];
        }) }
{
    let rest = later_list(tokens, set.owner, set.actions.as_slice())?;
    if set.name.is_none() {
        set.name = optional_name(alloc, name)?;
    }
    set.members.push(node)?;
    Ok(rest)
}

// The place of this key among those that are known, and whether it is new. It is known afterwards.
fn placed(known: &mut IndexSet<SetKey>, key: SetKey) -> Result<(usize, bool), AllocFailed<SetKey>>
    ensures place { IfOk result (λ x. x.0
        ≡ position_or_len (λ k. same_set (key.owner, key.label)
        (k.owner, k.label)) known.old.keys) }
    ensures within { IfOk result (λ x. x.0 < length known.old.keys + (if x.1 then 1 else 0)) }
    ensures added { IfOk result (λ x. x.1
        ≡ not (list_any (λ k. same_set (key.owner, key.label) (k.owner, k.label)) known.old.keys)) }
    ensures keys { IfOk result (λ x. known.new.keys
        ≡ (if x.1 then known.old.keys ++ key ∷ [] else known.old.keys)) }
{
    known.insert_full(key)
}

/// The set that comes at the node with this number from 0, of this owner, a player from 0 or
/// nothing for chance: the sets with that use, the set's number among them from 0, and the tokens
/// after it. The set is new where none of that owner has the number that comes.
///
/// # Errors
///
/// The fault's kind and how many tokens are left there; or memory ran out.
pub fn read_set<'a>(
    alloc: Global,
    sets: Sets,
    owner: Option<u32>,
    node: u32,
    tokens: &'a [Spanned],
) -> Result<(Sets, u32, &'a [Spanned]), PartStop<EfgKind>>
    requires few { length sets < 4294967295 }
    requires short { AllByRecursion IsShortToken (bare tokens.now) }
    ensures { Parses (λ x. ((x.0, x.1), bare x.2.now)) result
        (parse_set node sets owner (bare tokens.now)) }
{
    let Some((label, following)) = positive(tokens) else {
        return Err(unexpected(EfgKind::Node, tokens));
    };
    let (name, following) = optional_text(following);
    let key = SetKey { owner, label };
    let Sets { mut keys, mut list } = sets;
    let (place, is_new) = placed(&mut keys, key)?;
    if is_new {
        let (set, rest) = first_use(alloc, key, name, node, following)?;
        list.push(set)?;
        Ok((Sets { keys, list }, place as u32, rest))
    } else {
        let rest = later_use(alloc, &mut list[place], name, node, following)?;
        Ok((Sets { keys, list }, place as u32, rest))
    }
}
