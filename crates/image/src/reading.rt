// Reading: an image is tested, then read a record at a time.
ghost use Rattle.std.specs.Prelude.{◌≡◌, ◌≤◌, ◌<◌, length, drop};
ghost use Rattle.image.specs.Image.{headed, read_from, read_image};
ghost use Rattle.image.specs.Reading.{image_result};
ghost use Rattle.image.specs.Walking.{front, walked, read_record};

use crate::numbers::{u16_at, u32_at};
use crate::{Record, SoundImage};
use errors::Refusal;
use pools::InstructionsRef;
use slices::get_or;
use slices::places::on;
use storage::{TaskId, TaskState};

// The record at the front of some bytes.
#[tactic(auto, unfolding(crate::specs::Walking::front, crate::specs::Image::good))]
fn front(bytes: &[u8], next_id: TaskId, low: u32) -> Option<(TaskId, usize, usize)>
    ensures { result ≡ front next_id.0 low bytes.now }
{
    let body = u32_at(bytes, 0) as usize;
    // the first tests of a record, before the rest of it is read
    if bytes.len() < 6 + body || u16_at(bytes, 4) != 2 || body < 8 {
        return None;
    }
    let id = TaskId(u32_at(bytes, 6));
    let title = u16_at(bytes, 12);
    if low <= id.0
        && id.0 < next_id.0
        && get_or(bytes, 11, 0) < get_or(bytes, 10, 0)
        && title <= 128
        && 8 + title <= body
        && utf8::is_utf8(slices::part(bytes, 14, title))
    {
        return Some((id, 6 + body, body - 8 - title));
    }
    None
}

// Whether the image starts with a right kind 1.
#[tactic(auto, unfolding(crate::specs::Image::headed))]
fn is_headed(image: &[u8]) -> bool
    ensures { result ≡ headed image.now }
{
    let body = u32_at(image, 0) as usize;
    6 + body <= image.len() && u16_at(image, 4) == 1 && body == 8 && u32_at(image, 6) <= 256
}

// The records behind the header.
fn walk(image: &[u8], next_id: TaskId) -> Result<(usize, u32, usize), usize>
    requires { (14 ≤ length image.now) × (next_id.0 ≤ 256) }
    ensures { result ≡ walked 0 0 0 (read_from (length image.now) next_id.0 0 14 (drop 14 image.now)) }
{
    let mut at: usize = 14;
    let mut low: u32 = 0;
    let mut count: usize = 0;
    let mut sum: usize = 0;
    while at < image.len() {
        let Some((id, size, instructions)) = front(&image[at..], next_id, low) else {
            return Err(at);
        };
        low = id.0 + 1;
        at += size;
        sum += instructions;
        count += 1;
    }
    Ok((count, low, sum))
}

// Tests an image: what it holds, or the place of the first record that is cut or breaks a rule.
pub fn test_image(image: &[u8]) -> Result<SoundImage, Refusal>
    ensures { result ≡ image_result (read_image image.now) }
{
    if image.is_empty() {
        return Ok(SoundImage {
            next_id: TaskId(0),
            count: 0,
            s_len: 0,
            instructions: 0,
        });
    }
    if !is_headed(image) {
        return Err(Refusal::BadImage(0));
    }
    let next_id = TaskId(u32_at(image, 6));
    // A match: with `map_err` and `?` the proof did not close.
    match walk(image, next_id) {
        Ok((count, s_len, instructions)) if count == u32_at(image, 10) as usize => {
            Ok(SoundImage {
                next_id,
                count: count as u32,
                s_len,
                instructions,
            })
        }
        Ok(_) => Err(Refusal::BadImage(0)),
        Err(place) => Err(Refusal::BadImage(place)),
    }
}

// The record at a place of the image, its instructions to be named by a reference.
#[tactic(auto, unfolding(crate::specs::Walking::on), using(crate::proofs::Records::read_is))]
pub fn read_record(image: &[u8], at: usize, reference: InstructionsRef) -> Record
    ensures { result ≡ read_record image.now at reference }
{
    let length = image.len();
    let record = slices::part(image, at, length);
    let title_size = u16_at(record, 12);
    let title = slices::part(record, 14, title_size);
    let state = TaskState {
        len: get_or(record, 10, 0),
        state: get_or(record, 11, 0),
    };
    let id = TaskId(u32_at(record, 6));
    let task = storage::task_types::new_task(id, title, state, reference);
    Record {
        task,
        start: on(length, at, 14 + title_size),
        end: on(length, at, 6 + u32_at(record, 0) as usize),
    }
}
