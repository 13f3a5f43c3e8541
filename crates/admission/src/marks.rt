// What is noted of the places of a program.
ghost use Rattle.std.specs.Prelude.{◌≡◌, ◌-◌, get_or, set};
ghost use Rattle.admission.specs.Answer.{Zeros};
ghost use Rattle.admission.specs.Marks.{nodes_of, loops_of};

// Of a place: its label's node and 1 (0: no element starts there), and its open loops as a word.
#[derive(Clone, Copy)]
pub struct Mark {
    pub node: u32,
    pub loops: u32,
}

// Nothing is noted of any place.
pub(crate) fn unmarked<const N: usize>() -> [Mark; N]
    ensures { Zeros N (nodes_of result) × Zeros N (loops_of result) }
{
    [Mark { node: 0, loops: 0 }; N]
}

// A place's node and 1, 0 past the end.
#[tactic(auto, using(crate::proofs::Notes::node_inside, crate::proofs::Notes::node_outside))]
pub(crate) fn node_mark(marks: &[Mark], at: usize) -> u32
    ensures { result ≡ get_or (nodes_of marks.now) at 0 }
{
    // not a whole mark, which would have to wait until both its numbers are written (20 percent slower, measured)
    if at < marks.len() {
        return marks[at].node;
    }
    0
}

// A place's open loops, 0 past the end.
#[tactic(auto, using(crate::proofs::Notes::loops_inside, crate::proofs::Notes::loops_outside))]
pub(crate) fn loops_at(marks: &[Mark], at: usize) -> u32
    ensures { result ≡ get_or (loops_of marks.now) at 0 }
{
    if at < marks.len() {
        return marks[at].loops;
    }
    0
}

// The node of a place's label.
pub(crate) fn node_at(marks: &[Mark], at: usize) -> usize
    ensures { result ≡ get_or (nodes_of marks.now) at 0 - 1 }
{
    // not saturating_sub, nor `?` in `step`: with them the sweep over opcodes in no order takes 3 percent longer each (measured)
    let mark = node_mark(marks, at) as usize;
    if mark == 0 {
        return 0;
    }
    mark - 1
}

// A place noted, nowhere past the end.
#[tactic(auto, using(crate::proofs::Notes::node_set, crate::proofs::Notes::loops_set, crate::proofs::Notes::node_past, crate::proofs::Notes::loops_past))]
pub(crate) fn put_mark(marks: &mut [Mark], at: usize, node: u32, loops: u32)
    ensures { (nodes_of marks.new ≡ set (nodes_of marks.old) at node) × (loops_of marks.new ≡ set (loops_of marks.old) at loops) }
{
    if at < marks.len() {
        marks[at] = Mark { node, loops };
    }
}
