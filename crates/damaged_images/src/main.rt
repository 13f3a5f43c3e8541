// Tests images, and every cut and every one-byte change of them, and prints what the test answers.
#![tactic(auto)]

ghost use Rattle.std.specs.Prelude.{◌<◌, length};

use errors::Refusal;
use image::SoundImage;
use image::reading::test_image;
use std::io;
use std::rt::Stdout;

fn say(out: Stdout, text: &[u8]) {
    streams::write(out, text);
}

// What the test answers as one number: 0 for a sound image, else 1 more than the place of refusal 25.
fn answer(image: &[u8]) -> usize {
    match test_image(image) {
        Err(Refusal::BadImage(place)) => place.wrapping_add(1),
        _ => 0,
    }
}

// The numbers of a sound image, or the refusal.
fn say_whole(out: Stdout, image: &[u8]) {
    let _ = match test_image(image) {
        Ok(
            SoundImage {
                next_id,
                count,
                s_len,
                instructions,
            },
        ) => {
            let next_id = next_id.0;
            println!(out; "sound {next_id} {count} {s_len} {instructions}")
        }
        Err(refusal) => {
            let number = errors::number_of(refusal);
            let place = answer(image).wrapping_sub(1);
            println!(out; "refused {number} {place}")
        }
    };
}

// Every cut of an image.
fn say_cuts(out: Stdout, image: &[u8]) {
    say(out, b"cuts");
    for end in 0..image.len() {
        let now = answer(&image[..end]);
        let _ = print!(out; " {now}");
    }
    say(out, b"\n");
}

// One byte of an image given each value in turn: the first value of each run of equal answers, and the answer.
fn say_changes(out: Stdout, image: &mut [u8], at: usize)
    requires { at < length image.old }
{
    let _ = print!(out; "at {at}");
    let held = image[at];
    let mut last = None;
    for value in 0..=u8::MAX {
        image[at] = value;
        let now = answer(image);
        if last != Some(now) {
            let _ = print!(out; " {value} {now}");
        }
        last = Some(now);
    }
    image[at] = held;
    say(out, b"\n");
}

// An image, its cuts and its changes.
fn case(out: Stdout, image: &mut [u8]) {
    say_whole(out, image);
    say_cuts(out, image);
    for at in 0..image.len() {
        say_changes(out, image, at);
    }
}

// An image is one byte that counts the bytes behind it; images follow each other to the end.
fn run(out: Stdout, input: &mut [u8]) {
    let mut rest = &mut *input;
    while let Some((first, behind)) = rest.split_first_mut() {
        let Some((image, next)) = behind.split_at_mut_checked(usize::from(*first)) else {
            return;
        };
        case(out, image);
        rest = next;
    }
}

fn main(rt: HostRuntime) -> io::Result<()> {
    let mut input = [0u8; 65536];
    let n = streams::read(rt.stdin(), &mut input)?;
    run(rt.stdout(), &mut input[..n]);
    Ok(())
}
