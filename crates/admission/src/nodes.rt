// Stacks of kinds as nodes: a cell holds the node below it times 256 and the letter that lies on that; node 0 is the empty stack.
ghost use Rattle.std.specs.Prelude.{◌≡◌, ◌+◌, ◌*◌, ◌-◌, ◌/◌, ◌%◌, ◌<◌, get_or, set};
ghost use Rattle.slices.specs.Same.{same};
ghost use Rattle.admission.specs.Nodes.{letter_of, top, below, stacked, lowered, Kept, replaced, cell_of, given_cells, given_node};

use slices::get_or;

// A number put at a place, nowhere past the end.
fn put(numbers: &mut [u32], at: usize, number: u32)
    ensures { numbers.new ≡ set numbers.old at number }
{
    if at < numbers.len() {
        numbers[at] = number;
    }
}

// The letter that a node's cell says, 0 for the empty stack.
#[tactic(auto, unfolding(crate::specs::Nodes::letter_of))]
fn letter_of(cell: u32, node: usize) -> u32
    ensures { result ≡ letter_of cell node }
{
    if ((cell / 256) as usize) < node {
        return cell % 256;
    }
    0
}

// The letter on top of a node.
#[tactic(auto, unfolding(crate::specs::Nodes::top))]
pub(crate) fn top(cells: &[u32], node: usize) -> u32
    ensures { result ≡ top cells.now node }
{
    letter_of(get_or(cells, node, 0), node)
}

// The node below a node.
#[tactic(auto, unfolding(crate::specs::Nodes::below))]
pub(crate) fn below(cells: &[u32], node: usize) -> usize
    ensures { result ≡ below cells.now node }
{
    if top(cells, node) == 0 {
        return 0;
    }
    (get_or(cells, node, 0) / 256) as usize
}

// The node below so many of the topmost kinds.
#[tactic(auto, using(crate::proofs::Stacks::lowered_end))]
pub(crate) fn lowered(cells: &[u32], node: usize, taken: usize) -> usize
    ensures { result ≡ lowered taken cells.now node }
{
    let mut at = node;
    for _ in 0..taken {
        at = below(cells, at);
    }
    at
}

// Whether two nodes hold the same kinds: both are walked down until they meet.
#[tactic(auto, using(crate::proofs::Stacks::same_differ, crate::proofs::Stacks::same_end, crate::proofs::Stacks::same_less, crate::proofs::Stacks::same_turn, crate::proofs::Stacks::same_meet))]
pub(crate) fn same(cells: &[u32], one: usize, other: usize) -> bool
    ensures { result ≡ same (stacked cells.now one) (stacked cells.now other) }
{
    let mut left = one;
    let mut right = other;
    while left != right {
        let one = get_or(cells, left, 0);
        let other = get_or(cells, right, 0);
        let letter = letter_of(one, left);
        if letter != letter_of(other, right) {
            return false;
        }
        if letter == 0 {
            return true;
        }
        left = (one / 256) as usize;
        right = (other / 256) as usize;
    }
    true
}

// Of the cells of two nodes the lower replaces the other: with the same letter, that is the one with the lower node below it.
#[tactic(auto, unfolding(crate::specs::Nodes::replaced))]
fn replace(cells: &mut [u32], left: usize, right: usize, one: u32, other: u32)
    ensures { cells.new ≡ replaced cells.old left right one other }
{
    if one < other {
        put(cells, right, one);
    } else {
        put(cells, left, other);
    }
}

// Two nodes that hold the same kinds are merged: on the way down, until they meet, both get the same cell.
#[tactic(auto, using(crate::proofs::Stacks::merge_less, crate::proofs::Stacks::merge_kept, crate::proofs::Stacks::merge_alike))]
fn merge(cells: &mut [u32], one: usize, other: usize)
    requires { stacked cells.old one ≡ stacked cells.old other }
    ensures { Kept cells.old cells.new }
{
    let mut left = one;
    let mut right = other;
    while left != right {
        let one = get_or(cells, left, 0);
        let other = get_or(cells, right, 0);
        if letter_of(one, left) == 0 {
            return;
        }
        replace(cells, left, right, one, other);
        left = (one / 256) as usize;
        right = (other / 256) as usize;
    }
}

// Whether two nodes hold the same kinds. Then they are merged, so that no later walk goes their way again.
#[tactic(auto, using(slices::proofs::Equality::same_equal))]
pub(crate) fn compare_and_merge(cells: &mut [u32], one: usize, other: usize) -> bool
    ensures { (result ≡ same (stacked cells.old one) (stacked cells.old other)) × Kept cells.old cells.new }
{
    if !same(cells, one, other) {
        return false;
    }
    merge(cells, one, other);
    true
}

// The cell of a letter on a node.
#[tactic(auto, unfolding(crate::specs::Nodes::cell_of))]
fn cell_of(node: usize, letter: u32) -> u32
    ensures { result ≡ cell_of node letter }
{
    (node % 16777216) as u32 * 256 + letter % 256
}

// A letter put on a node, as the node `at`; nothing for 0.
#[tactic(auto, unfolding(crate::specs::Nodes::given_node, crate::specs::Nodes::given_cells))]
pub(crate) fn give(cells: &mut [u32], at: usize, node: usize, letter: u32) -> usize
    ensures { (result ≡ given_node at node letter) × (cells.new ≡ given_cells cells.old at node letter) }
{
    if letter == 0 {
        return node;
    }
    put(cells, at, cell_of(node, letter));
    at
}
