// Titles: the bytes that a vector gives, within the memory in use, and those of a record.
ghost use Rattle.std.specs.Prelude.{◌≡◌};
ghost use Rattle.machine.specs.Titles.{within, title_length};

use errors::Refusal;
use storage::Task;
use values::FatPointer;

// Whether a vector lies in the memory in use.
#[tactic(auto, unfolding(machine::specs::Titles::within, memory::specs::Change::inside))]
pub(crate) fn within(memory: &[u8], pointer: FatPointer) -> Result<(), Refusal>
    ensures { result ≡ within memory.now pointer }
{
    if pointer.offset as usize + pointer.size as usize <= memory.len() {
        return Ok(());
    }
    Err(Refusal::MSliceOutOfBounds {
        index: pointer.offset,
        size: pointer.size as u32,
    })
}

// The length of a record's title.
pub(crate) fn title_length(task: Task) -> usize
    ensures { result ≡ title_length task }
{
    task.title_len.min(128)
}
