// Trees of the events at keys, which share what they have alike.
ghost use Rattle.std.specs.Prelude.{◌≡◌, ◌≤◌, ◌<◌, ◌+◌, ◌%◌, ◌++◌, ◌∷◌, ◌==◌, [], ℕ, All, cond, IfOk, OnErr, OnOk, length, unwrap_or};
ghost use Rattle.std.specs.FinMap.Entries.{find};
ghost use Rattle.std.specs.Ordering.{nat_cmp};
ghost use Rattle.mx_states.specs.KeyTrees.{AreLower, IsLonger, at, at_key, below as below_in, halved, root as root_of};

use crate::states::key_numbers::KeyNo;
use mx_graph::EventNo;
use std::alloc::{AllocError, Global};
use std::marker::Model;

// So many trees are kept at most.
const MOST_TREES: usize = 4_294_967_295;

// The number of a tree among those that are kept, from 1; 0 is that of the tree with no event.
#[derive(Clone, Copy, Debug)]
pub(crate) struct TreeNo {
    number: u32,
}

impl Model for TreeNo {
    ghost use Rattle.std.specs.Prelude.{ℕ};

    ghost Value = { ℕ };

    ghost view = { λ n. n.number };

    ghost inverse = { λ n. record { number = n } };
}

impl TreeNo {
    // The tree with no event.
    pub(crate) fn empty() -> TreeNo
        ensures { result ≡ 0 }
    {
        TreeNo { number: 0 }
    }

    // The tree at a place of those that are kept.
    fn at(place: usize) -> TreeNo
        requires { place < 4294967295 }
        ensures { result ≡ place + 1 }
    {
        TreeNo {
            number: place as u32 + 1,
        }
    }

    fn index(self) -> usize
        ensures { result ≡ self }
    {
        self.number as usize
    }
}

// A tree of the events at places from 1: that at place 1, and the trees of the even and of the odd places from 2, each
// of which is halved there. So the lower a place is, the fewer trees lead to it.
#[derive(Clone, Copy, Debug)]
pub(crate) struct KeyTree {
    event: Option<EventNo>,
    even: TreeNo,
    odd: TreeNo,
}

fn root(trees: &[KeyTree], tree: TreeNo) -> KeyTree
    requires { tree ≤ length trees.now }
    ensures { result ≡ root_of trees.now tree }
{
    let number = tree.index();
    if number == 0 {
        return KeyTree {
            event: None,
            even: TreeNo::empty(),
            odd: TreeNo::empty(),
        };
    }
    trees[number - 1]
}

// The tree in which a place from 2 is looked up.
fn below(tree: &KeyTree, place: usize) -> TreeNo
    ensures { result ≡ below_in tree.now place }
{
    if place % 2 == 0 { tree.even } else { tree.odd }
}

fn with_below(tree: &KeyTree, place: usize, below: TreeNo) -> KeyTree
    ensures event { result.event ≡ tree.now.event }
    ensures even { result.even ≡ cond (place % 2 == 0) below tree.now.even }
    ensures odd { result.odd ≡ cond (place % 2 == 0) tree.now.odd below }
{
    if place % 2 == 0 {
        KeyTree {
            event: tree.event,
            even: below,
            odd: tree.odd,
        }
    } else {
        KeyTree {
            event: tree.event,
            even: tree.even,
            odd: below,
        }
    }
}

// The event at a key. The time is logarithmic in the key's number.
pub(crate) fn event_at(trees: &[KeyTree], tree: TreeNo, key: KeyNo) -> Option<EventNo>
    requires lower { AreLower trees.now }
    requires tree { tree ≤ length trees.now }
    ensures { result ≡ at_key trees.now tree key }
{
    let mut under = tree;
    let mut place = key.index() + 1;
    while place > 1 {
        under = below(&root(trees, under), place);
        place /= 2;
    }
    root(trees, under).event
}

fn push_tree(trees: &mut Vec<KeyTree>, tree: KeyTree) -> Result<TreeNo, AllocError>
    ensures number { IfOk result (λ number. number ≡ length trees.old.items + 1) }
    ensures ok { OnOk result (trees.new.items ≡ trees.old.items ++ tree ∷ []) }
    ensures err { OnErr result (trees.new.items ≡ trees.old.items) }
{
    let place = trees.len();
    if place >= MOST_TREES {
        return Err(AllocError);
    }
    trees.push(KeyTree {
        event: tree.event,
        even: tree.even,
        odd: tree.odd,
    })?;
    Ok(TreeNo::at(place))
}

// Adds the tree that is another one with an event at a place, or with none there.
pub(crate) fn put_at(
    trees: &mut Vec<KeyTree>,
    tree: TreeNo,
    place: usize,
    event: Option<EventNo>,
) -> Result<TreeNo, AllocError>
    requires lower { AreLower trees.old.items }
    requires tree { tree ≤ length trees.old.items }
    requires place { 1 ≤ place }
    ensures more { IsLonger trees.old.items trees.new.items }
    ensures lower { AreLower trees.new.items }
    ensures tree { IfOk result (λ made. made ≤ length trees.new.items) }
    ensures put { IfOk result (λ made. (n : ℕ) → 1 ≤ n
        → at trees.new.items made n ≡ cond (n == place) event (at trees.old.items tree n)) }
{
    let whole = root(trees, tree);
    if place == 1 {
        let changed = KeyTree {
            event,
            even: whole.even,
            odd: whole.odd,
        };
        return push_tree(trees, changed);
    }
    let under = put_at(trees, below(&whole, place), place / 2, event)?;
    let changed = with_below(&whole, place, under);
    push_tree(trees, changed)
}

// What is put at the places from 2 that leave this remainder by 2, each of which is halved.
fn puts_below(
    alloc: Global,
    puts: &[(usize, Option<EventNo>)],
    remainder: usize,
) -> Result<Vec<(usize, Option<EventNo>)>, AllocError>
    ensures { IfOk result (λ below. below.items ≡ halved remainder puts.now) }
{
    let mut below = Vec::new(alloc);
    for &(place, event) in puts {
        if place > 1 && place % 2 == remainder {
            below.push((place / 2, event))?;
        }
    }
    Ok(below)
}

// What is put at the first place, or else what stands there.
fn put_first(puts: &[(usize, Option<EventNo>)], usual: Option<EventNo>) -> Option<EventNo>
    ensures { result ≡ unwrap_or (find nat_cmp 1 puts.now) usual }
{
    for &(place, event) in puts {
        if place == 1 {
            return event;
        }
    }
    usual
}

// Adds the tree that is another one with all of these put, of which each part is made once.
pub(crate) fn put_all(
    alloc: Global,
    trees: &mut Vec<KeyTree>,
    tree: TreeNo,
    puts: &[(usize, Option<EventNo>)],
) -> Result<TreeNo, AllocError>
    requires lower { AreLower trees.old.items }
    requires tree { tree ≤ length trees.old.items }
    requires places { All (λ put. 1 ≤ put.0) puts.now }
    ensures more { IsLonger trees.old.items trees.new.items }
    ensures lower { AreLower trees.new.items }
    ensures tree { IfOk result (λ made. made ≤ length trees.new.items) }
    ensures put { IfOk result (λ made. (n : ℕ) → 1 ≤ n
        → at trees.new.items made n ≡ unwrap_or (find nat_cmp n puts.now) (at trees.old.items tree n)) }
{
    if puts.is_empty() {
        return Ok(tree);
    }
    let whole = root(trees, tree);
    let at_even = puts_below(alloc, puts, 0)?;
    let at_odd = puts_below(alloc, puts, 1)?;
    let even = put_all(alloc, trees, whole.even, &at_even)?;
    let odd = put_all(alloc, trees, whole.odd, &at_odd)?;
    let changed = KeyTree {
        event: put_first(puts, whole.event),
        even,
        odd,
    };
    push_tree(trees, changed)
}
