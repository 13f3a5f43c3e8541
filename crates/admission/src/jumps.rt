// The jumps of a program whose labels are noted: each one's target has the label that stands behind the jump.
ghost use Rattle.std.specs.Prelude.{◌≡◌, ℕ, ◌≤◌, length};
ghost use Rattle.labels.specs.Faults.{Ended};
ghost use Rattle.admission.specs.Marks.{nodes_of, loops_of};
ghost use Rattle.admission.specs.Nodes.{Kept};
ghost use Rattle.admission.specs.Noted.{Tells, Jumps};
ghost use Rattle.admission.specs.Jumps.{same_label, right_jump};

use crate::finding::{Sizes, element_at};
use crate::marks::{Mark, loops_at, node_at, node_mark};
use crate::nodes::compare_and_merge;
use labels::Element;

// Whether an element starts at a place and has the label of another. Then the nodes of both are merged.
#[tactic(auto, unfolding(crate::specs::Jumps::same_label))]
fn same_label(cells: &mut [u32], marks: &[Mark], place: usize, other: usize) -> bool
    ensures { (result ≡ same_label cells.old (nodes_of marks.now) (loops_of marks.now) place other) × Kept cells.old cells.new }
{
    node_mark(marks, place) != 0
        && loops_at(marks, place) == loops_at(marks, other)
        && compare_and_merge(cells, node_at(marks, place), node_at(marks, other))
}

// Whether an element is no jump, or a jump whose target has the label of the place behind it.
#[tactic(auto, unfolding(crate::specs::Jumps::right_jump))]
fn right_jump(cells: &mut [u32], marks: &[Mark], element: Element, next: usize) -> bool
    ensures { (result ≡ right_jump cells.old (nodes_of marks.now) (loops_of marks.now) element next) × Kept cells.old cells.new }
{
    match element {
        Element::JumpIfFalse(target) => same_label(cells, marks, target, next),
        Element::NoRule | Element::Kinds(_) | Element::Do | Element::Loop | Element::LoopIndex =>
            true,
    }
}

// The first wrong jump. No element is cut where each has a rule.
pub(crate) fn wrong_jump(
    cells: &mut [u32],
    marks: &[Mark],
    sizes: &Sizes,
    code: &[u8],
) -> Result<(), usize>
    requires { Ended code.now × ((place : ℕ) → Tells code.now cells.old (nodes_of marks.now) (loops_of marks.now) place) }
    ensures { Jumps code.now result × Kept cells.old cells.new }
{
    let mut at = 0;
    while at < code.len() {
        let (element, next) = element_at(sizes, code, at).ok_or(at)?;
        if !right_jump(cells, marks, element, next) {
            return Err(at);
        }
        at = next;
    }
    Ok(())
}
