// The decision on a program: the sweep, the jumps, the end.
ghost use Rattle.std.specs.Prelude.{◌≡◌, ◌*◌, ◌≤◌, ◌<◌, length, Ok};
ghost use Rattle.labels.specs.Check.{admission};
ghost use Rattle.admission.specs.Marks.{nodes_of, loops_of};
ghost use Rattle.admission.specs.Noted.{Fresh, Swept};
ghost use Rattle.admission.specs.Answer.{Zeros, written, answer, answered};

use crate::Program;
use crate::finding::{Sizes, make_sizes};
use crate::jumps::wrong_jump;
use crate::marks::{Mark, loops_at, node_at, unmarked};
use crate::nodes::{below, top};
use crate::sweep::sweep;
use errors::Refusal;

// An array of zeros.
fn zeros<const N: usize>() -> [u32; N]
    ensures { Zeros N result }
{
    [0u32; N]
}

// The kinds from a node down, so many of them, written bottom first.
fn write_kinds(kinds: &mut [u8; 1000], cells: &[u32], node: usize, height: usize)
    requires { height ≤ 1000 }
    ensures { kinds.new ≡ written height cells.now node kinds.old }
{
    let mut at = node;
    for place in (0..height).rev() {
        kinds[place] = (top(cells, at) % 256) as u8;
        at = below(cells, at);
    }
}

// The answer on a program whose elements all have a rule.
fn finish(
    kinds: &mut [u8; 1000],
    cells: &mut [u32],
    marks: &[Mark],
    sizes: &Sizes,
    program: Program<'_>,
    height: usize,
) -> Result<usize, Refusal>
    requires { Swept program.code.now cells.old (nodes_of marks.now) (loops_of marks.now) (Ok height) }
    ensures { answer result kinds.new ≡ answered (admission program.entry.code.now) kinds.old }
{
    wrong_jump(cells, marks, sizes, program.code).map_err(Refusal::NotAdmitted)?;
    if loops_at(marks, program.code.len()) != 0 {
        return Err(Refusal::NotAdmitted(program.code.len()));
    }
    write_kinds(kinds, cells, node_at(marks, program.code.len()), height);
    Ok(height)
}

// The answer on a program, over arrays in which nothing is noted.
fn over(
    kinds: &mut [u8; 1000],
    cells: &mut [u32],
    marks: &mut [Mark],
    program: Program<'_>,
) -> Result<usize, Refusal>
    requires { Fresh (length (loops_of marks.old)) program.code.now cells.old (nodes_of marks.old) (loops_of marks.old) }
    ensures { answer result kinds.new ≡ answered (admission program.entry.code.now) kinds.old }
{
    let sizes = make_sizes();
    let height = sweep(cells, marks, &sizes, program).map_err(Refusal::NotAdmitted)?;
    finish(kinds, cells, marks, &sizes, program, height)
}

// The answer on a program, over local arrays: two cells and a mark for each place of the program, its length included.
fn decide_in<const CELLS: usize, const PLACES: usize>(
    kinds: &mut [u8; 1000],
    program: Program<'_>,
) -> Result<usize, Refusal>
    requires { (length program.code.now < PLACES) × (PLACES ≤ 65536) × (CELLS ≡ 2 * PLACES) }
    ensures { answer result kinds.new ≡ answered (admission program.entry.code.now) kinds.old }
{
    let mut cells = zeros::<CELLS>();
    let mut marks = unmarked::<PLACES>();
    over(kinds, &mut cells, &mut marks, program)
}

// The answer on a program. Most have at most 1,023 bytes, and zeros take time; for any other the arrays are 1 MB of the stack.
pub(crate) fn decide(kinds: &mut [u8; 1000], program: Program<'_>) -> Result<usize, Refusal>
    ensures { answer result kinds.new ≡ answered (admission program.entry.code.now) kinds.old }
{
    if program.code.len() <= 1023 {
        return decide_in::<2048, 1024>(kinds, program);
    }
    decide_in::<131072, 65536>(kinds, program)
}
