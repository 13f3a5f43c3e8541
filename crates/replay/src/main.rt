// Reads a batch of cases from standard input, and prints what each call of each case does.
#![tactic(auto)]

ghost use Rattle.std.specs.Prelude.{◌*◌, ◌≤◌, length, IfOk};

use report::Report;
use std::io;
use std::rt::Stdout;

// Bytes of a batch: the place of the first one, and how many there are.
#[derive(Clone, Copy)]
struct Part {
    start: usize,
    size: usize,
}

// A case as it stands in a batch: its image, its program, the place of its calls and how many of them are whole; and its end, or the place
// where the form of its calls is broken.
#[derive(Clone, Copy)]
struct Case {
    image: Part,
    program: Part,
    calls: usize,
    count: usize,
    end: Result<usize, usize>,
}

// Room for a batch, and for one save. In a function of its own: where `main` itself makes it, the check runs out of stack.
fn room() -> [u8; 1048576] {
    [0u8; 1048576]
}

// Writes a line beside the listing.
fn show_report(out: Stdout, report: Report) {
    let mut line = [0u8; 4096];
    if let Ok(length) = report::report_line(&mut line, report) {
        streams::write(out, slices::part(&line, 0, length));
    }
}

// The size in the four little-endian bytes at a place, and the place behind them; where the batch ends before, the place.
fn size_at(batch: &[u8], at: usize) -> Result<(usize, usize), usize>
    ensures { IfOk result (λ p. p.1 ≤ length batch.now) }
{
    let rest = batch.get(at..).ok_or(at)?;
    let size = rest.first_chunk::<4>().ok_or(at)?;
    Ok((u32::from_le_bytes(*size) as usize, at + 4))
}

// The bytes behind their size at a place, and the place behind them; where the batch ends before, the place of the size or of the bytes.
fn part_at(batch: &[u8], at: usize) -> Result<(Part, usize), usize> {
    let (size, start) = size_at(batch, at)?;
    if batch.len() - start < size {
        return Err(start);
    }
    Ok((Part { start, size }, start + size))
}

// Where the form of a call is broken: at its verb, or behind it.
fn broken_call(batch: &[u8], at: usize) -> usize {
    match batch.get(at) {
        Some(0..=3) => at + 1,
        _ => at,
    }
}

// How many of so many calls are whole, up to the first that is not.
fn whole_calls(calls: &[u8], count: usize) -> usize
    ensures { result * 9 ≤ length calls.now }
{
    calls
        .chunks_exact(9)
        .take(count)
        .take_while(|call| matches!(call.first(), Some(0..=3)))
        .count()
}

// The case at a place, or the place where its form is broken before its calls.
fn case_at(batch: &[u8], at: usize) -> Result<Case, usize>
    ensures { IfOk result (λ case. case.calls ≤ length batch.now) }
{
    let (image, second) = part_at(batch, at)?;
    let (program, third) = part_at(batch, second)?;
    let (count, calls) = size_at(batch, third)?;
    let whole = whole_calls(&batch[calls..], count);
    let behind = calls + whole * 9;
    let end = if whole < count {
        Err(broken_call(batch, behind))
    } else {
        Ok(behind)
    };
    Ok(Case {
        image,
        program,
        calls,
        count: whole,
        end,
    })
}

// Performs a case.
fn perform(
    out: Stdout,
    stack: &mut [u64; 1000],
    memory: &mut [u8],
    pool: &mut [u8],
    ends: &mut [u32; 1024],
    save: &mut [u8],
    batch: &mut [u8],
    case: Case,
)
    requires { case.calls ≤ length batch.old }
{
    let (head, calls) = batch.split_at_mut(case.calls);
    printer::shows::own(
        out,
        stack,
        memory,
        pool,
        ends,
        save,
        slices::part(head, case.image.start, case.image.size),
        slices::part(head, case.program.start, case.program.size),
        calls,
        0,
        case.count,
        true,
    );
}

// Performs the case at a place, and says where the next one starts, or where the form is broken.
fn perform_at(
    out: Stdout,
    stack: &mut [u64; 1000],
    memory: &mut [u8],
    pool: &mut [u8],
    ends: &mut [u32; 1024],
    save: &mut [u8],
    batch: &mut [u8],
    at: usize,
    number: usize,
) -> Result<usize, usize> {
    let case = case_at(batch, at)?;
    show_report(out, Report::Case(number));
    perform(out, stack, memory, pool, ends, save, batch, case);
    case.end
}

// Performs the cases of a batch, of which there are no more than bytes.
fn replay(
    out: Stdout,
    stack: &mut [u64; 1000],
    memory: &mut [u8],
    pool: &mut [u8],
    ends: &mut [u32; 1024],
    save: &mut [u8],
    batch: &mut [u8],
) {
    let mut at = 0;
    for number in 0..batch.len() {
        if batch.len() <= at {
            return;
        }
        match perform_at(out, stack, memory, pool, ends, save, batch, at, number) {
            Ok(next) => at = next,
            Err(place) => {
                show_report(out, Report::BadBatch(place));
                return;
            }
        }
    }
}

fn main(rt: HostRuntime) -> io::Result<()> {
    let mut batch = room();
    let length = streams::read(rt.stdin(), &mut batch)?;
    let mut stack = [0u64; 1000];
    let mut memory = [0u8; 65536];
    let mut pool = [0u8; 65536];
    let mut ends = [0u32; 1024];
    let mut save = room();
    replay(
        rt.stdout(),
        &mut stack,
        &mut memory,
        &mut pool,
        &mut ends,
        &mut save,
        &mut batch[..length],
    );
    Ok(())
}
