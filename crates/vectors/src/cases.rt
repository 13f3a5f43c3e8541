// One case: its first byte says which leaf it is for.
use errors::{Details, Refusal};
use memory::ElementIndex;
use pools::InstructionsRef;
use slices::get_or;
use std::rt::Stdout;
use values::{FatPointer, ValueType, boxing};

// So many bytes from a place on, zeros past the end.
fn bytes_at<const N: usize>(case: &[u8], at: usize) -> [u8; N] {
    let held = slices::part(case, at, N);
    let mut bytes = [0u8; N];
    bytes[..held.len()].copy_from_slice(held);
    bytes
}

// Two bytes, the lowest first.
fn half(case: &[u8], at: usize) -> u16 {
    u16::from_le_bytes(bytes_at(case, at))
}

// Four bytes, the lowest first.
fn number(case: &[u8], at: usize) -> u32 {
    u32::from_le_bytes(bytes_at(case, at))
}

// Eight bytes, the lowest first.
fn word(case: &[u8], at: usize) -> u64 {
    u64::from_le_bytes(bytes_at(case, at))
}

fn say(out: Stdout, text: &[u8]) {
    streams::write(out, text);
}

fn say_refusal(out: Stdout, refusal: Refusal) {
    let number = errors::number_of(refusal);
    let _ = match errors::details_of(refusal) {
        Details::Nothing => println!(out; "refused {number}"),
        Details::One(a) => println!(out; "refused {number} {a}"),
        Details::Two(a, b) => println!(out; "refused {number} {a} {b}"),
    };
}

fn say_value(out: Stdout, answer: Result<u64, Refusal>) {
    match answer {
        Ok(value) => {
            let _ = println!(out; "value {value:016x}");
        }
        Err(refusal) => say_refusal(out, refusal),
    }
}

fn say_bytes(out: Stdout, bytes: &[u8]) {
    for byte in bytes {
        let _ = print!(out; "{byte:02x}");
    }
    say(out, b"\n");
}

// u: whether bytes are UTF-8.
fn case_utf8(out: Stdout, case: &[u8]) {
    let valid = utf8::is_utf8(slices::part(case, 1, 255));
    let _ = println!(out; "{valid}");
}

// b: boxing a number, calldata, a bool or a vector.
fn case_box(out: Stdout, case: &[u8]) {
    let a = number(case, 2);
    let size = half(case, 6);
    let boxed = match get_or(case, 1, 0) {
        0 => Ok(boxing::to_u32_val(a)),
        1 => Ok(boxing::to_calldata_val(InstructionsRef(a))),
        2 => Ok(boxing::to_bool_val(a == 1)),
        3 => boxing::to_vec_val(a as usize, size, 4),
        _ => boxing::to_vec_val(a as usize, size, 6),
    };
    say_value(out, boxed);
}

fn say_type(out: Stdout, kind: Option<ValueType>) {
    match kind {
        Some(ValueType::U32) => say(out, b"U32\n"),
        Some(ValueType::String) => say(out, b"String\n"),
        Some(ValueType::CallData) => say(out, b"CallData\n"),
        Some(ValueType::Boolean) => say(out, b"Bool\n"),
        Some(ValueType::VecU32) => say(out, b"VecU32\n"),
        Some(ValueType::Null) => say(out, b"Null\n"),
        None => say_refusal(out, Refusal::InvalidType),
    }
}

// w: what a word is: as a number, its tag, its pointer, its type.
fn case_word(out: Stdout, case: &[u8]) {
    let v = word(case, 1);
    let low = values::to_u32(v);
    let _ = print!(out; "number {low}\ntag ");
    match values::tag_of(v) {
        Ok(tag) => {
            let _ = println!(out; "{tag}");
        }
        Err(refusal) => say_refusal(out, refusal),
    }
    say(out, b"pointer ");
    match values::to_fat_pointer(v) {
        Ok(FatPointer { offset, size }) => {
            let _ = println!(out; "{offset} {size}");
        }
        Err(refusal) => say_refusal(out, refusal),
    }
    say(out, b"type ");
    say_type(out, values::kinds::get_value_type(v));
}

// c: two words calculated with.
fn case_pair(out: Stdout, case: &[u8]) {
    let a = word(case, 1);
    let b = word(case, 9);
    say(out, b"mul ");
    say_value(out, values::calculations::mul_checked(a, b));
    say(out, b"muli ");
    say_value(
        out,
        values::calculations::mul_checked_i(a, values::to_u32(b)),
    );
    say(out, b"eq ");
    say_value(out, values::comparison::value_eq(a, b));
    say(out, b"neq ");
    say_value(out, values::comparison::value_neq(a, b));
    say(out, b"lt ");
    say_value(out, values::comparison::value_cmp(a, b, true));
    say(out, b"gt ");
    say_value(out, values::comparison::value_cmp(a, b, false));
}

// p: where an allocation would go, at any length in use.
fn case_place(out: Stdout, case: &[u8]) {
    let used = number(case, 2) as usize;
    say_value(
        out,
        memory::allocation::vector(used, half(case, 6), get_or(case, 1, 0)),
    );
}

// a: an allocation in a memory of 32 bytes that held EE.
fn case_alloc(out: Stdout, case: &[u8]) {
    let mut bytes = [0xEEu8; 32];
    let used = usize::from(get_or(case, 2, 0));
    match memory::allocation::alloc(
        &mut bytes,
        slices::part(case, 5, 250),
        used,
        half(case, 3),
        get_or(case, 1, 0),
    ) {
        Ok((value, end)) => {
            let _ = print!(out; "used {end} ");
            say_value(out, Ok(value));
        }
        Err(refusal) => say_refusal(out, refusal),
    }
    say_bytes(out, &bytes);
}

// m: a change in a memory of 16 bytes that holds EE.
fn case_change(out: Stdout, case: &[u8]) {
    let mut bytes = [0xEEu8; 16];
    let pointer = FatPointer {
        offset: u32::from(get_or(case, 2, 0)),
        size: half(case, 3),
    };
    let index = ElementIndex(number(case, 5));
    match memory::change::mut_vec(
        &mut bytes,
        pointer,
        index,
        number(case, 9),
        u64::from(get_or(case, 1, 0)),
    ) {
        Ok(()) => say(out, b"changed\n"),
        Err(refusal) => say_refusal(out, refusal),
    }
    say_bytes(out, &bytes);
}

pub(crate) fn case(out: Stdout, case: &[u8]) {
    match get_or(case, 0, 0) {
        b'u' => case_utf8(out, case),
        b'b' => case_box(out, case),
        b'w' => case_word(out, case),
        b'c' => case_pair(out, case),
        b'p' => case_place(out, case),
        b'a' => case_alloc(out, case),
        b'm' => case_change(out, case),
        _ => say(out, b"no such case\n"),
    }
}
