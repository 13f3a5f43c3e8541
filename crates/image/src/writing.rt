// Writing: a task's record is written from a place on.
ghost use Rattle.std.specs.Prelude.{◌≡◌, ◌∷◌, ◌++◌};
ghost use Rattle.slices.specs.Numbers.{little_endian};
ghost use Rattle.image.specs.Image.{record_of, body, header};
ghost use Rattle.image.specs.Slots.{saved_task};
ghost use Rattle.image.specs.Writing.{put, puts};

use slices::places::on;
use storage::{Task, TaskId};

// Writes bytes from a place on, as far as the buffer reaches, and answers the place behind them.
#[tactic(auto, unfolding(crate::specs::Walking::on), using(crate::proofs::Puts::put_is))]
fn put(save: &mut [u8], bytes: &[u8], at: usize) -> usize
    ensures { put result save.new ≡ puts save.old at bytes.now }
{
    slices::writes::write(save, bytes, at);
    on(save.len(), at, bytes.len())
}

// The first 14 bytes of a kind 2 record.
#[tactic(auto, unfolding(slices::specs::Numbers::little_endian))]
fn opening(body: usize, id: TaskId, count: u8, state: u8, title: usize) -> [u8; 14]
    ensures { result ≡ little_endian 4 body ++ little_endian 2 2 ++ little_endian 4 id.0 ++ count ∷ state ∷ little_endian 2 title }
{
    let [b0, b1, b2, b3, ..] = body.to_le_bytes();
    let [i0, i1, i2, i3] = id.0.to_le_bytes();
    let [t0, t1, ..] = title.to_le_bytes();
    [b0, b1, b2, b3, 2, 0, i0, i1, i2, i3, count, state, t0, t1]
}

// A kind 1 record.
#[tactic(auto, unfolding(slices::specs::Numbers::little_endian, crate::specs::Image::header, crate::specs::Image::record_of))]
fn heading(next_id: TaskId, count: usize) -> [u8; 14]
    ensures { result ≡ header next_id.0 count }
{
    let [n0, n1, n2, n3] = next_id.0.to_le_bytes();
    let [c0, c1, c2, c3, ..] = count.to_le_bytes();
    [8, 0, 0, 0, 1, 0, n0, n1, n2, n3, c0, c1, c2, c3]
}

// Writes a task's record from a place on, and answers the place behind it.
pub(crate) fn write_record(save: &mut [u8], instructions: &[u8], task: Task, at: usize) -> usize
    ensures { put result save.new ≡ puts save.old at (record_of 2 (body (saved_task task instructions.now))) }
{
    // a copy of the title alone: where the task's own is read, the whole task is copied (measured)
    let held = task.title;
    let title = slices::part(&held, 0, task.title_len);
    let body = 8 + title.len() + instructions.len();
    let first = opening(body, task.id, task.state.len, task.state.state, title.len());
    let behind = put(save, &first, at);
    let behind_title = put(save, title, behind);
    put(save, instructions, behind_title)
}

// Writes the kind 1 record at the buffer's start.
pub fn write_header(save: &mut [u8], next_id: TaskId, count: usize) -> usize
    ensures { put result save.new ≡ puts save.old 0 (header next_id.0 count) }
{
    let first = heading(next_id, count);
    put(save, &first, 0)
}
