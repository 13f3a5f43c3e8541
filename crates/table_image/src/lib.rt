// The loops that carry the lent table of tasks: it is measured and saved, a slot to a turn.
#![tactic(auto)]

pub mod creation;
pub mod loading;

ghost use Rattle.std.specs.Prelude.{◌≡◌, length};
ghost use Rattle.image.specs.Table.{saved_table, save_table};
ghost use Rattle.table_image.specs.Loops.{measures};
ghost use Rattle.table_image.specs.Tables.{held, measured_as};

use errors::Refusal;
use image::{steps, writing};
use storage::{Task, TaskId};

// The pool's bytes and entries in use.
#[derive(Drop)]
pub struct InUse {
    pub bytes: usize,
    pub entries: usize,
}

// Measures the image of a table: its size, counted no further than the limit, and its tasks; or the first refusal.
pub(crate) fn measure_table(
    table: &mut [Task],
    pool: &mut [u8],
    ends: &mut [u32; 1024],
    entries: usize,
    limit: usize,
) -> Result<(usize, usize), Refusal>
    ensures { held (measured_as result) table.new pool.new ends.new ≡ held (measures (length table.old) 0 table.old pool.old ends.old entries limit 0 14) table.old pool.old ends.old }
{
    let mut size = 14;
    let mut count = 0;
    for &task in table.iter() {
        size = image::sizes::measure_slot(pool, ends, task, entries, limit, size)?;
        count += usize::from(task.living);
    }
    Ok((size, count))
}

// Saves a table: each living slot by id, where all of them can be saved and fit.
pub fn save_table(
    table: &mut [Task],
    pool: &mut [u8],
    ends: &mut [u32; 1024],
    save: &mut [u8],
    entries: usize,
    next_id: TaskId,
) -> Result<usize, Refusal>
    ensures { held (saved_table result save.new) table.new pool.new ends.new ≡ held (save_table next_id.0 table.old pool.old ends.old entries save.old) table.old pool.old ends.old }
{
    let limit = save.len() + 1;
    let (size, count) = measure_table(table, pool, ends, entries, limit)?;
    if save.len() < size {
        return Err(Refusal::SaveBufferTooShort);
    }
    writing::write_header(save, next_id, count);
    let mut at = 14;
    for &task in table.iter() {
        at = steps::save_slot(pool, ends, save, task, at);
    }
    Ok(size)
}
