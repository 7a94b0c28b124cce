// The resolutions that a room has found.
ghost use Rattle.std.specs.Prelude.{◌≡◌, ◌<◌, All, IfOk, OnOk, ℕ, length, map};
ghost use Rattle.mx_graph.specs.Record.{is_in};
ghost use Rattle.mx_state_res.specs.Numbered.{AreAdded, AreKnown};
ghost use Rattle.mx_states.specs.Numbered.{state_at};
ghost use Rattle.mx_receipt.specs.Receipt.{resolve_in};
ghost use Rattle.mx_receipt.specs.Resolutions.{AreRight};

use crate::room_states::version_in;
use lru::LruCache;
use mx_graph::{Graph, graph_is_sound};
use mx_state_res::{KeptResolution, resolve_keeping, resolve_numbered};
use mx_states::{StateNo, States};
use std::alloc::{AllocError, Global};
use std::hash::{Hash, Hasher};
use std::num::NonZeroUsize;

// The most resolutions that a room keeps.
const MOST_RESOLUTIONS: usize = 256;

/// Some states of a room, each once and rising.
#[derive(Debug, PartialEq, Eq, Drop)]
pub(crate) struct StateList {
    numbers: Vec<StateNo>,
}

impl Hash for StateList {
    ghost use Rattle.std.specs.Hash.{on_Alike, same_Alike};
    ghost use Rattle.std.specs.Prelude.{refl};
    ghost use Rattle.std.proofs.lemmas.Bool.Decides.{Decides-eqb};
    ghost use Rattle.std.proofs.lemmas.Slice.Eq.{slice_eq-Decides};
    ghost use Rattle.mx_receipt.specs.Resolutions.{hashed};

    ghost hash_input = { λ list. hashed list.numbers.items };

    ghost respects_eq = { (on_Alike (λ list. list.numbers.items)
        (same_Alike hashed (λ xs ys. slice_eq-Decides Decides-eqb xs ys _ refl))).fed };

    // Their count and the last one alone, which take no time that grows with the list: of lists that are resolved one after
    // another few have both alike, and at most so many lists are compared as are kept.
    fn hash<H: Hasher>(&self, state: &mut H) {
        state.write_usize(self.numbers.len());
        if let Some(last) = self.numbers.last() {
            last.hash(state);
        }
    }
}

/// The resolutions that a room has found: those that were last asked for, at most 256.
#[derive(Debug, Drop)]
pub(crate) struct ResolutionCache {
    // The number of a state, by those of the states that resolve to it.
    resolutions: LruCache<StateList, StateNo>,
    // What is kept of the last one of many states.
    last: Option<KeptResolution>,
}

impl ResolutionCache {
    ghost use Rattle.std.specs.Prelude.{◌≡◌, ◌⊎◌, Contains, IfOk, IfSome, None, [], ℕ};
    ghost use Rattle.mx_receipt.specs.declared.resolution_cache.StateList.{StateList as Listed};

    /// A cache with no resolutions.
    pub fn new(alloc: Global) -> Result<ResolutionCache, AllocError>
        ensures entries { IfOk result (λ cache. cache.resolutions.entries ≡ []) }
        ensures last { IfOk result (λ cache. cache.last ≡ None) }
    {
        let most = NonZeroUsize::new(MOST_RESOLUTIONS).unwrap();
        let resolutions = LruCache::sparse(alloc, most)?;
        Ok(ResolutionCache {
            resolutions,
            last: None,
        })
    }

    /// The state that these states resolve to, where it is there. It takes no memory.
    fn get(&mut self, list: &StateList) -> Option<StateNo>
        ensures found { IfSome result (λ state. (key : Listed)
            × Contains self.old.resolutions.entries (key, state) × (key.numbers.items ≡ list.now.numbers.items)) }
        ensures stay { (e : Listed × ℕ) → Contains self.new.resolutions.entries e
            → Contains self.old.resolutions.entries e }
        ensures last { self.new.last ≡ self.old.last }
    {
        self.resolutions.get(list).copied()
    }

    /// Puts the state that these states resolve to. Where no memory is left it is not put.
    fn put(&mut self, mut list: StateList, state: StateNo)
        ensures entries { (e : Listed × ℕ) → Contains self.new.resolutions.entries e
            → Contains self.old.resolutions.entries e ⊎ ((e.0.numbers.items ≡ list.numbers.items) × (e.1 ≡ state)) }
        ensures last { self.new.last ≡ self.old.last }
    {
        // The list was made for a number of each event.
        list.numbers.shrink_to_fit();
        drop(self.resolutions.put(list, state));
    }

    /// Gives up all resolutions. It takes no memory.
    pub fn clear(&mut self)
        ensures entries { self.new.resolutions.entries ≡ [] }
        ensures last { self.new.last ≡ None }
    {
        self.resolutions.clear();
        self.last = None;
    }
}

/// These numbers, each once and rising. It takes no memory.
pub(crate) fn each_once(numbers: Vec<StateNo>) -> Vec<StateNo>
    ensures { (n : ℕ) → is_in result.items n ≡ is_in numbers.items n }
{
    // Events that come later mostly have later states, and then there is nothing to sort.
    if numbers.is_sorted_by(|one, next| one < next) {
        return numbers;
    }
    sorted_once(numbers)
}

fn sorted_once(mut numbers: Vec<StateNo>) -> Vec<StateNo>
    ensures { (n : ℕ) → is_in result.items n ≡ is_in numbers.items n }
{
    // Neighbours are often equal, and then there is little to sort.
    numbers.dedup();
    numbers.sort_unstable();
    numbers.dedup();
    numbers
}

/// The one state that some of a room's states resolve to, by its number: it is looked up, and resolved where it is not
/// there. What is kept of the last one may tell it. See [`resolve_keeping`].
pub(crate) fn resolve_cached(
    alloc: Global,
    graph: &Graph,
    states: &mut States,
    resolutions: &mut ResolutionCache,
    numbers: Vec<StateNo>,
) -> Result<StateNo, AllocError>
    requires numbers { All (λ number. number < length states.old) numbers.items }
    requires known { AreKnown graph.now states.old }
    requires right { AreRight graph.now states.old resolutions.old }
    ensures resolved { IfOk result (λ state. state_at states.new state
        ≡ resolve_in graph.now (map (state_at states.old) numbers.items)) }
    ensures below { IfOk result (λ state. state < length states.new) }
    ensures added { AreAdded graph.now states.old states.new }
    ensures right { OnOk result (AreRight graph.now states.new resolutions.new) }
{
    if numbers.len() < 2 {
        let state = resolve_numbered(version_in(graph), alloc, graph, states, &numbers)?;
        return Ok(state);
    }
    let list = StateList { numbers };
    if let Some(state) = resolutions.get(&list) {
        return Ok(state);
    }
    let state = resolve_keeping(
        version_in(graph),
        alloc,
        graph,
        states,
        &list.numbers,
        &mut resolutions.last,
    )?;
    resolutions.put(list, state);
    Ok(state)
}
