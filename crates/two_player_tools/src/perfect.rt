// Behaviour that is found subgame by subgame, from the last to the first.
ghost use Rattle.std.specs.Prelude.{
  ◌≡◌,
  ◌≢◌,
  ◌<◌,
  ◌≤◌,
  ◌+◌,
  ◌*◌,
  ◌⊎◌,
  ℕ,
  [],
  All,
  IfErr,
  IfOk,
  Ok,
  OnOk,
  length,
  map,
  slice_index,
  slice_index_or,
};
ghost use Rattle.answers.specs.Answers.{Gives, map_ok, refused_by};
ghost use Rattle.rational.specs.Sum.{entry_at};
ghost use Rattle.behaviour_profile.specs.EntryStarts.{AreBehaviourEntries};
ghost use Rattle.behaviour_profile.specs.ListedBehaviour.{HasProbabilities};
ghost use Rattle.game_core.specs.TreeGame.{game_of_tree};
ghost use Rattle.game_theory.specs.Behaviour.{Behaviour as TreeBehaviour, payoff};
ghost use Rattle.game_theory.specs.Lines.{listed};
ghost use Rattle.game_theory.specs.TreeEntries.{tree_entries};
ghost use Rattle.subgames.specs.CutTrees.{IsCutAt};
ghost use Rattle.subgames.specs.FoundSubgames.{AreSubgamesOf};
ghost use Rattle.subgames.specs.Roots.{IsSubgameRoot};
ghost use Rattle.two_player_tools.specs.KnownCuts.{AreKeptTo, AreSolvedFrom, IsRoomFor, worth_in};
ghost use Rattle.two_player_tools.specs.Perfect.{
  IsStoppedAt,
  cut_entries_in,
  entries_by,
  in_subgame,
  entry_payoffs_fit,
  perfect_in,
  perfect_text,
  worth_refusal,
};
ghost use Rattle.two_player_tools.specs.TwoPlayers.{tree_form_within, rows_by};

use crate::entries::plan_behaviour;
use crate::forms::{Method, tree_form_within, two_players_of};
use crate::pivoting::equilibrium_in;
use crate::solving::solve;
use answers::Memory;
use behaviour_profile::{Behaviour, starts_of};
use frac128::Frac;
use game_core::{Tree, trees_are_game_trees};
use ne_printer::line;
use perfect_recall::find_recall;
use pure_payoffs::PayoffStop;
use refusals::{Refusal, Site};
use sequence_data::SeqForm;
use std::alloc::Global;
use subgames::{Cut, Subgames, sets_stand_in_one_cut};
use verdicts::behaviour_payoffs;
use zero_sum_lp::NotConstant;

/// What is known once the cuts at some of the nodes where subgames begin are solved.
#[derive(Drop)]
pub struct Known {
    /// For each node and each player what the node is worth.
    pub worth: Vec<Frac>,
    /// For each set the probability of each action.
    pub lists: Vec<Vec<Frac>>,
}

// A cut's behaviour, and what it pays each player, which is left out at the tree's root.
#[derive(Drop)]
struct SolvedCut {
    behaviour: Behaviour,
    payoffs: Vec<Frac>,
}

// The behaviour of a tree that its linear program gives.
fn program_behaviour(alloc: Global, tree: &Tree, form: &SeqForm) -> Result<Behaviour, Refusal>
    requires { tree_form_within (rows_by Method.LinearProgram) tree.now (Ok form.now) }
    ensures answer { Gives Refusal.Memory (entries_by Method.LinearProgram tree.now) result }
    ensures entries { IfOk result (AreBehaviourEntries tree.now) }
{
    let solved = solve(alloc, form)?;
    let plans = &solved.plans;
    plan_behaviour(alloc, tree, form, plans.one(), plans.two())
}

// The behaviour of a tree that its complementarity problem gives.
fn pivot_behaviour(alloc: Global, tree: &Tree, form: &SeqForm) -> Result<Behaviour, Refusal>
    requires { tree_form_within (rows_by Method.Complementarity) tree.now (Ok form.now) }
    ensures answer { Gives Refusal.Memory (entries_by Method.Complementarity tree.now) result }
    ensures entries { IfOk result (AreBehaviourEntries tree.now) }
{
    let plans = equilibrium_in(alloc, form)?;
    plan_behaviour(alloc, tree, form, plans.one(), plans.two())
}

// The behaviour of a tree that a method finds by the tree's form.
fn form_behaviour(
    alloc: Global,
    method: Method,
    tree: &Tree,
    form: &SeqForm,
) -> Result<Behaviour, Refusal>
    requires { tree_form_within (rows_by method) tree.now (Ok form.now) }
    ensures answer { Gives Refusal.Memory (entries_by method tree.now) result }
    ensures entries { IfOk result (AreBehaviourEntries tree.now) }
{
    match method {
        Method::LinearProgram => program_behaviour(alloc, tree, form),
        Method::Complementarity => pivot_behaviour(alloc, tree, form),
    }
}

// The behaviour that a method finds for a tree.
fn behaviour_by(alloc: Global, method: Method, tree: &Tree) -> Result<Behaviour, Refusal>
    requires { length tree.now.players ≡ 2 }
    ensures answer { Gives Refusal.Memory (entries_by method tree.now) result }
    ensures entries { IfOk result (AreBehaviourEntries tree.now) }
{
    let form = tree_form_within(alloc, method, tree)?;
    form_behaviour(alloc, method, tree, &form)
}

// The number in the whole tree of a node of a cut.
fn whole_node(nodes: &[u32], node: u32) -> u32
    ensures { result ≡ slice_index nodes.now node }
{
    nodes.get(node as usize).copied().unwrap_or(0)
}

// A refusal in the cut at a node, as it is told of the whole tree.
fn in_subgame(root: u32, nodes: &[u32], refusal: Refusal) -> Refusal
    ensures { result ≡ in_subgame root nodes.now refusal }
{
    match refusal {
        Refusal::Range { site, unfit } => Refusal::SubgameRange {
            node: root,
            site,
            unfit,
        },
        Refusal::NotConstant(sums) => Refusal::NotConstant(NotConstant {
            first: whole_node(nodes, sums.first),
            second: whole_node(nodes, sums.second),
            ..sums
        }),
        other => other,
    }
}

// What a behaviour pays each player in the cut at a node.
fn payoffs_of(
    alloc: Global,
    root: u32,
    cut: &Tree,
    behaviour: &Behaviour,
) -> Result<Vec<Frac>, Refusal>
    requires entries { AreBehaviourEntries cut.now behaviour.now }
    ensures payoffs { (b : TreeBehaviour) → let t = game_of_tree cut.now in
        behaviour.now ≡ tree_entries t b
        → IfOk result (λ payoffs. payoffs.items ≡ listed t.players (payoff t b)) }
    ensures stops { Gives Refusal.Memory
        (refused_by (worth_refusal root) (entry_payoffs_fit cut.now behaviour.now))
        (map_ok result (λ _. tt)) }
{
    match behaviour_payoffs(alloc, cut, behaviour) {
        Ok(payoffs) => Ok(payoffs),
        Err(PayoffStop::Range { player, unfit }) => Err(Refusal::SubgameRange {
            node: root,
            site: Site::PlayerValue { player },
            unfit,
        }),
        Err(PayoffStop::Memory) => Err(Refusal::Memory),
    }
}

// The solution of the cut at a node.
fn solve_cut(alloc: Global, method: Method, root: u32, cut: &Cut) -> Result<SolvedCut, Refusal>
    requires { length cut.now.tree.players ≡ 2 }
    ensures answer { Gives Refusal.Memory (cut_entries_in method root cut.now)
        (map_ok result (λ solved. solved.behaviour)) }
    ensures entries { IfOk result (λ solved. AreBehaviourEntries cut.now.tree solved.behaviour) }
    ensures payoffs { (b : TreeBehaviour) → let t = game_of_tree cut.now.tree in
        IfOk result (λ solved. root ≢ 0 → solved.behaviour ≡ tree_entries t b
        → solved.payoffs.items ≡ listed t.players (payoff t b)) }
    ensures none { IfOk result (λ solved. root ≡ 0 → length solved.payoffs.items ≡ 0) }
{
    let behaviour = match behaviour_by(alloc, method, cut.tree()) {
        Ok(behaviour) => behaviour,
        Err(refusal) => return Err(in_subgame(root, cut.nodes(), refusal)),
    };
    let payoffs = if root == 0 {
        Vec::new(alloc)
    } else {
        payoffs_of(alloc, root, cut.tree(), &behaviour)?
    };
    Ok(SolvedCut { behaviour, payoffs })
}

// Keeps what a node is worth to each player.
fn keep_worth(worth: &mut [Frac], root: u32, payoffs: &[Frac])
    requires { root * length payoffs.now + length payoffs.now ≤ length worth.old }
    ensures as_many { length worth.new ≡ length worth.old }
    ensures kept { (i : ℕ) → i < length payoffs.now
        → entry_at worth.new (root * length payoffs.now + i) ≡ entry_at payoffs.now i }
    ensures others { (k : ℕ) → (k < root * length payoffs.now)
        ⊎ (root * length payoffs.now + length payoffs.now ≤ k)
        → entry_at worth.new k ≡ entry_at worth.old k }
{
    let start = root as usize * payoffs.len();
    worth[start..start + payoffs.len()].copy_from_slice(payoffs);
}

// Keeps the probabilities at the players' sets of a cut.
fn keep_lists(
    alloc: Global,
    lists: &mut [Vec<Frac>],
    cut: &Cut,
    behaviour: &Behaviour,
) -> Result<(), Memory>
    requires entries { AreBehaviourEntries cut.now.tree behaviour.now }
    requires sets { length cut.now.sets ≡ length cut.now.tree.sets }
    requires differ { (r q : ℕ) → r < length cut.now.sets → q < length cut.now.sets
        → slice_index cut.now.sets r ≡ slice_index cut.now.sets q → r ≡ q }
    requires within { All (λ s. s < length lists.old) cut.now.sets }
    requires room { (r : ℕ) → r < length cut.now.sets
        → length (slice_index_or (map (λ v. v.items) lists.old) (slice_index cut.now.sets r) [])
        ≡ (game_of_tree cut.now.tree).actions r }
    ensures { (b : TreeBehaviour) → behaviour.now ≡ tree_entries (game_of_tree cut.now.tree) b
        → OnOk result (AreKeptTo cut.now (length cut.now.tree.sets) b
        (map (λ v. v.items) lists.old) (map (λ v. v.items) lists.new)) }
{
    let tree = cut.tree();
    let starts = starts_of(alloc, tree)?;
    for set in 0..tree.sets().len() {
        if tree.owner(set).is_some() {
            let number = cut.sets()[set] as usize;
            let probabilities = behaviour.at_set(tree, &starts, set as u32);
            lists[number].as_mut_slice().copy_from_slice(probabilities);
        }
    }
    Ok(())
}

// Solves a cut and keeps its solution, where the cuts at later nodes are solved.
fn solve_and_keep(
    alloc: Global,
    method: Method,
    tree: &Tree,
    root: u32,
    cut: &Cut,
    known: &mut Known,
) -> Result<(), Refusal>
    requires two { length tree.now.players ≡ 2 }
    requires within { root < length tree.now.nodes }
    requires root { IsSubgameRoot (game_of_tree tree.now) root }
    requires cut { IsCutAt tree.now root (worth_in tree.now known.old) cut.now.nodes cut.now.sets
        cut.now.tree }
    requires later { AreSolvedFrom method tree.now (root + 1) known.old }
    ensures solved { OnOk result (AreSolvedFrom method tree.now root known.new) }
    ensures stops { IfErr result (λ r. (r ≡ Refusal.Memory)
        ⊎ IsStoppedAt method tree.now (worth_in tree.now known.old) root r) }
{
    tree.stands_for_game_tree();
    trees_are_game_trees();
    sets_stand_in_one_cut();
    let solved = solve_cut(alloc, method, root, cut)?;
    keep_lists(alloc, known.lists.as_mut_slice(), cut, &solved.behaviour)?;
    keep_worth(known.worth.as_mut_slice(), root, solved.payoffs.as_slice());
    Ok(())
}

// Solves the cut at a node where a subgame begins, where those at later such nodes are solved.
fn solve_at(
    alloc: Global,
    method: Method,
    tree: &Tree,
    subgames: &Subgames,
    root: u32,
    known: &mut Known,
) -> Result<(), Refusal>
    requires two { length tree.now.players ≡ 2 }
    requires subgames { AreSubgamesOf tree.now subgames.now }
    requires within { root < length tree.now.nodes }
    requires root { IsSubgameRoot (game_of_tree tree.now) root }
    requires later { AreSolvedFrom method tree.now (root + 1) known.old }
    ensures solved { OnOk result (AreSolvedFrom method tree.now root known.new) }
    ensures stops { IfErr result (λ r. (r ≡ Refusal.Memory)
        ⊎ IsStoppedAt method tree.now (worth_in tree.now known.old) root r) }
{
    let cut = subgames.cut_at(alloc, tree, root, known.worth.as_slice())?;
    solve_and_keep(alloc, method, tree, root, &cut, known)
}

// Room for the probabilities at each set of a tree.
fn room_for_lists(alloc: Global, tree: &Tree) -> Result<Vec<Vec<Frac>>, Memory>
    ensures { IfOk result (λ lists. HasProbabilities (game_of_tree tree.now)
        (map (λ v. v.items) lists.items)) }
{
    let mut lists = Vec::with_capacity(alloc, tree.sets().len())?;
    for set in 0..tree.sets().len() {
        lists.push(vec![in alloc; Frac::zero(); tree.action_count(set)]?)?;
    }
    Ok(lists)
}

// Room for what is known of a tree.
fn known_of(alloc: Global, tree: &Tree) -> Result<Known, Memory>
    requires two { length tree.now.players ≡ 2 }
    ensures { IfOk result (IsRoomFor tree.now) }
{
    tree.stands_for_game_tree();
    let worth = vec![in alloc; Frac::zero(); tree.nodes().len() * tree.players().len()]?;
    let lists = room_for_lists(alloc, tree)?;
    Ok(Known { worth, lists })
}

// The behaviour that solves the cut wherever a subgame begins, in the room for what is known.
fn solve_all(
    alloc: Global,
    method: Method,
    tree: &Tree,
    subgames: &Subgames,
    known: &mut Known,
) -> Result<Behaviour, Refusal>
    requires two { length tree.now.players ≡ 2 }
    requires subgames { AreSubgamesOf tree.now subgames.now }
    requires room { IsRoomFor tree.now known.old }
    ensures { Gives Refusal.Memory (perfect_in method tree.now) result }
{
    let mut root = tree.nodes().len() as u32;
    while root > 0 {
        root -= 1;
        if subgames.begins_at(root) {
            solve_at(alloc, method, tree, subgames, root, known)?;
        }
    }
    Ok(Behaviour::from_lists(alloc, tree, known.lists.as_slice())?)
}

// The behaviour that solves the cut wherever a subgame begins.
fn perfect_in(alloc: Global, method: Method, tree: &Tree) -> Result<Behaviour, Refusal>
    requires two { length tree.now.players ≡ 2 }
    ensures { Gives Refusal.Memory (perfect_in method tree.now) result }
{
    let subgames = Subgames::find(alloc, tree)?;
    let mut known = known_of(alloc, tree)?;
    solve_all(alloc, method, tree, &subgames, &mut known)
}

/// The line of the behaviour on a tree that a method finds subgame by subgame.
pub(crate) fn perfect_text(alloc: Global, method: Method, tree: &Tree) -> Result<Vec<u8>, Refusal>
    ensures { Gives Refusal.Memory (perfect_text method tree.now)
        (map_ok result (λ text. text.items)) }
{
    two_players_of(tree.players().len() as u32)?;
    find_recall(alloc, tree)?;
    let behaviour = perfect_in(alloc, method, tree)?;
    Ok(line(alloc, behaviour.entries())?)
}
