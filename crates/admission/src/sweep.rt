// The sweep over the elements of a program, which notes the label of each place where one starts.
ghost use Rattle.std.specs.Prelude.{◌≡◌, ◌+◌, ◌-◌, ◌≤◌, ◌<◌, length, get_or, set};
ghost use Rattle.admission.specs.Marks.{nodes_of, loops_of};
ghost use Rattle.admission.specs.Noted.{Fresh, Swept};
ghost use Rattle.admission.specs.Sweep.{word_after, count, height_after, outlined, plan_change, plan, noted_cells, noted_nodes, stepped, step_plan, step};

use crate::changes::element_change;
use crate::elements::Change;
use crate::finding::{Sizes, element_at};
use crate::marks::{Mark, loops_at, node_at, put_mark};
use crate::nodes::{below, give, lowered, same, top};
use crate::{Plan, Program, Step};
use labels::Element;

// The open loops after an element.
#[tactic(auto, unfolding(crate::specs::Sweep::word_after))]
fn word_after(
    cells: &[u32],
    marks: &[Mark],
    element: Element,
    next: usize,
    node: usize,
    word: u32,
) -> Option<u32>
    ensures { result ≡ word_after cells.now (nodes_of marks.now) element next node word }
{
    let outer = word / 65536;
    let inner = (word % 65536) as usize;
    match element {
        Element::Kinds(_) | Element::JumpIfFalse(_) => Some(word),
        Element::Do if word < 65536 => Some(word * 65536 + (next % 65536) as u32),
        Element::Loop if inner != 0 && same(cells, node, node_at(marks, inner)) => Some(outer),
        Element::LoopIndex if inner != 0 => Some(word),
        Element::NoRule | Element::Do | Element::Loop | Element::LoopIndex => None,
    }
}

// How many kinds a letter is.
#[tactic(auto, unfolding(crate::specs::Sweep::count))]
fn count(letter: u32) -> usize
    ensures { (result ≡ count letter) × (result ≤ 1) }
{
    usize::from(letter != 0)
}

// How many kinds there are after a change.
#[tactic(auto, unfolding(crate::specs::Sweep::height_after))]
fn height_after(here: Step, taken: usize, low: u32, high: u32) -> usize
    ensures { result ≡ height_after here.height taken low high }
{
    here.height.saturating_sub(taken) + count(low) + count(high)
}

// What is to be noted behind an element that changes the kinds so.
#[tactic(auto, unfolding(crate::specs::Sweep::plan_change, crate::specs::Sweep::plan_loops))]
fn plan_change(
    cells: &[u32],
    marks: &[Mark],
    word: u32,
    element: Element,
    next: usize,
    here: Step,
    node: usize,
    change: Option<Change>,
) -> Option<Plan>
    ensures { outlined result ≡ plan_change cells.now (nodes_of marks.now) word element next here.height node change }
{
    let Change { taken, low, top } = change?;
    let after = height_after(here, taken, low, top);
    if 1000 < after {
        return None;
    }
    let word = word_after(cells, marks, element, next, node, word)?;
    Some(Plan {
        node: lowered(cells, node, taken),
        low,
        top,
        word,
        height: after,
    })
}

// What is to be noted behind an element.
#[tactic(auto, unfolding(crate::specs::Sweep::plan))]
fn plan(cells: &[u32], marks: &[Mark], element: Element, here: Step, next: usize) -> Option<Plan>
    ensures { outlined result ≡ plan cells.now (nodes_of marks.now) (loops_of marks.now) element here.at next here.height }
{
    let node = node_at(marks, here.at);
    let lower = below(cells, node);
    let third = top(cells, below(cells, lower));
    let change = element_change(
        element,
        here.height,
        top(cells, node),
        top(cells, lower),
        third,
    );
    plan_change(
        cells,
        marks,
        loops_at(marks, here.at),
        element,
        next,
        here,
        node,
        change,
    )
}

// A label noted at a place, its letters as the nodes from `free` on. The plan's parts, and not the plan lent: that is 5 percent slower (measured).
#[tactic(auto, unfolding(crate::specs::Sweep::noted_cells, crate::specs::Sweep::noted_nodes, crate::specs::Sweep::noted_node))]
fn note(
    cells: &mut [u32],
    marks: &mut [Mark],
    here: Step,
    next: usize,
    node: usize,
    low: u32,
    high: u32,
    word: u32,
)
    ensures { (cells.new ≡ noted_cells cells.old here.free node low high) × (nodes_of marks.new ≡ noted_nodes (nodes_of marks.old) here.free next node low high) × (loops_of marks.new ≡ set (loops_of marks.old) next word) }
{
    let middle = give(cells, here.free, node, low);
    let last = give(cells, here.free + count(low), middle, high);
    put_mark(marks, next, (last % 131072) as u32 + 1, word);
}

// What was planned for an element is noted behind it.
#[tactic(auto, unfolding(crate::specs::Sweep::step_plan))]
fn step_plan(
    cells: &mut [u32],
    marks: &mut [Mark],
    here: Step,
    next: usize,
    plan: Option<Plan>,
) -> Option<Step>
    requires { (here.at < next) × (next ≤ 65535) }
    ensures { stepped result cells.new (nodes_of marks.new) (loops_of marks.new) ≡ step_plan cells.old (nodes_of marks.old) (loops_of marks.old) here.free next (outlined plan) }
{
    let Plan {
        node,
        low,
        top,
        word,
        height,
    } = plan?;
    note(cells, marks, here, next, node, low, top, word);
    Some(Step {
        at: next,
        height,
        free: here.free + count(low) + count(top),
    })
}

// The element at a place: the label that it gives the next is noted there.
#[tactic(auto, unfolding(crate::specs::Sweep::step, crate::specs::Sweep::step_found), using(crate::proofs::Turns::found_inside))]
fn step(
    cells: &mut [u32],
    marks: &mut [Mark],
    sizes: &Sizes,
    program: Program<'_>,
    here: Step,
) -> Option<Step>
    ensures { stepped result cells.new (nodes_of marks.new) (loops_of marks.new) ≡ step cells.old (nodes_of marks.old) (loops_of marks.old) program.entry.code.now here.at here.height here.free }
{
    // not `?`: slower (measured, see `node_at`)
    match element_at(sizes, program.code, here.at) {
        None => None,
        Some((element, next)) => {
            let plan = plan(&*cells, &*marks, element, here, next);
            step_plan(cells, marks, here, next, plan)
        }
    }
}

// The sweep from byte 0 with the empty label, over arrays in which nothing is noted.
pub(crate) fn sweep(
    cells: &mut [u32],
    marks: &mut [Mark],
    sizes: &Sizes,
    program: Program<'_>,
) -> Result<usize, usize>
    requires { Fresh (length (loops_of marks.old)) program.code.now cells.old (nodes_of marks.old) (loops_of marks.old) }
    ensures { Swept program.entry.code.now cells.new (nodes_of marks.new) (loops_of marks.new) result }
{
    put_mark(marks, 0, 1, 0);
    let mut here = Step {
        at: 0,
        height: 0,
        free: 1,
    };
    while here.at < program.code.len() {
        let next = step(cells, marks, sizes, program, here);
        here = next.ok_or(here.at)?;
    }
    Ok(here.height)
}
