// A whole table loaded from an image: a record to a turn, its instructions interned.
ghost use Rattle.std.specs.Prelude.{◌≡◌, length, replicate};
ghost use Rattle.storage.specs.Tasks.{blank};
ghost use Rattle.image.specs.Writing.{stepped};
ghost use Rattle.table_image.specs.Loops.{load_record, load_records};
ghost use Rattle.table_image.specs.Tables.{in_use, loading};

use crate::InUse;
use image::reading::read_record;
use image::{LoadedRecord, Record};
use pools::InstructionsRef;
use pools::interning::intern_instructions;
use storage::Task;
use storage::ids::slot_of;

// A record of the image is read, and its instructions are interned.
fn load_record(
    pool: &mut [u8],
    ends: &mut [u32; 1024],
    image: &[u8],
    at: usize,
    bytes: usize,
    entries: usize,
) -> LoadedRecord
    ensures { stepped result pool.new ends.new ≡ load_record pool.old ends.old image.now at bytes entries }
{
    let reference = InstructionsRef(entries.min(1024) as u32);
    let Record { task, start, end } = read_record(image, at, reference);
    let instructions = slices::part(image, start, end.saturating_sub(start));
    match intern_instructions(pool, ends, bytes, entries, instructions) {
        Ok((_, used)) => LoadedRecord {
            task,
            end,
            bytes: used,
            entries: entries + 1,
        },
        Err(_) => LoadedRecord {
            task,
            end,
            bytes,
            entries,
        },
    }
}

// Loads so many records of an image into a table whose slots are blanked first, and answers the pool in use.
pub fn load_table(
    table: &mut [Task],
    pool: &mut [u8],
    ends: &mut [u32; 1024],
    image: &[u8],
    bytes: usize,
    entries: usize,
    count: u32,
) -> InUse
    ensures { loading table.new pool.new ends.new result ≡ load_records count image.now 14 (loading (replicate (length table.old) blank) pool.old ends.old (in_use bytes entries)) }
{
    table::slots::clear_all(table);
    let mut used = InUse { bytes, entries };
    let mut at = 14;
    for _ in 0..count {
        let record = load_record(pool, ends, image, at, used.bytes, used.entries);
        table::put(table, slot_of(record.task.id), record.task);
        at = record.end;
        used = InUse {
            bytes: record.bytes,
            entries: record.entries,
        };
    }
    used
}
