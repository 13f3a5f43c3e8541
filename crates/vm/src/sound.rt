// Whether a machine is sound with what is lent to it, 26: the table, the lengths, the frames and the pool's entries.
ghost use Rattle.std.specs.Prelude.{◌≡◌, length};
ghost use Rattle.machine.specs.Sound.{record_tested, names, sound_frames, sound_lengths, sound_record, tested, sound_world};

use inlinevec::{Frame, Frames};
use machine::Machine;
use storage::Task;

// Whether a frame names an entry.
fn names(frame: Frame, entries: usize) -> bool
    ensures { result ≡ names frame entries }
{
    (frame.entry.0 as usize) < entries
}

// Whether there is a frame, and each names an entry.
#[tactic(auto, unfolding(machine::specs::Sound::sound_frames))]
fn sound_frames(frames: Frames, entries: usize) -> bool
    ensures { result ≡ sound_frames frames entries }
{
    match frames.count {
        1 => names(frames.first, entries),
        2 => names(frames.first, entries) && names(frames.second, entries),
        _ => false,
    }
}

// Whether no length is above its capacity or its buffer.
#[tactic(auto, unfolding(machine::specs::Sound::sound_lengths))]
fn sound_lengths(memory: usize, pool: usize, save: usize, machine: Machine) -> bool
    ensures { result ≡ sound_lengths memory pool save machine }
{
    machine.height <= 1000
        && machine.loops.count <= 2
        && machine.memory <= memory
        && machine.pool <= 65536
        && machine.pool <= pool
        && machine.saved <= save
}

// Whether a record is sound beside its table.
#[tactic(auto, unfolding(machine::specs::Sound::sound_record))]
fn sound_record(
    memory: &mut [u8],
    pool: &mut [u8],
    ends: &mut [u32; 1024],
    save: &mut [u8],
    machine: Machine,
    table_sound: bool,
) -> bool
    ensures { record_tested result memory.new pool.new ends.new save.new ≡ record_tested (sound_record (length memory.old) (length pool.old) ends.old (length save.old) machine table_sound) memory.old pool.old ends.old save.old }
{
    table_sound
        && sound_lengths(memory.len(), pool.len(), save.len(), machine)
        && sound_frames(machine.frames, machine.entries)
        && pools::end_to_end(ends, machine.pool, machine.entries)
}

// Whether a machine is sound with what is lent to it.
pub fn sound(
    table: &mut [Task],
    memory: &mut [u8],
    pool: &mut [u8],
    ends: &mut [u32; 1024],
    save: &mut [u8],
    machine: Machine,
) -> bool
    ensures { tested result table.new memory.new pool.new ends.new save.new ≡ tested (sound_world table.old memory.old pool.old ends.old save.old machine) table.old memory.old pool.old ends.old save.old }
{
    let table_sound = table::slots::sound(table, machine.next_id, machine.count);
    sound_record(memory, pool, ends, save, machine, table_sound)
}
