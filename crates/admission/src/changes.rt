// What an element makes of the kinds, from the letters of the three topmost (0: there is none).
ghost use Rattle.std.specs.Prelude.{◌≡◌};
ghost use Rattle.labels.specs.Labels.{letter};
ghost use Rattle.admission.specs.Changes.{take_one, take_two, create, compare, change_vector, move_kinds, exchange_change, element_change};

use crate::elements::Change;
use labels::{Element, Exchange, Kind};

// The letters of the kinds.
const NUMBER: u32 = b'N' as u32;

const CALLDATA: u32 = b'C' as u32;

const BOOLEAN: u32 = b'B' as u32;

const TEXT: u32 = b'S' as u32;

const NUMBERS: u32 = b'V' as u32;

// The letter of a kind.
fn letter(kind: Kind) -> u32
    ensures { result ≡ letter kind }
{
    match kind {
        Kind::Number => NUMBER,
        Kind::Calldata => CALLDATA,
        Kind::Boolean => BOOLEAN,
        Kind::Text => TEXT,
        Kind::Numbers => NUMBERS,
    }
}

// Takes one kind, and gives one or nothing.
#[tactic(auto, unfolding(crate::specs::Changes::take_one))]
fn take_one(wanted: u32, first: u32, given: u32) -> Option<Change>
    ensures { result ≡ take_one wanted first given }
{
    (wanted == first).then_some(Change {
        taken: 1,
        low: given,
        top: 0,
    })
}

// Takes N and another kind below it, and gives one or nothing.
#[tactic(auto, unfolding(crate::specs::Changes::take_two))]
fn take_two(wanted: u32, first: u32, second: u32, given: u32) -> Option<Change>
    ensures { result ≡ take_two wanted first second given }
{
    // one test after the other: joined by &&, the sweep takes 2 to 7 percent longer (measured)
    if first != NUMBER {
        return None;
    }
    if wanted != second {
        return None;
    }
    Some(Change {
        taken: 2,
        low: given,
        top: 0,
    })
}

// T_CREATE takes S N C.
#[tactic(auto, unfolding(crate::specs::Changes::create))]
fn create(first: u32, second: u32, third: u32) -> Option<Change>
    ensures { result ≡ create first second third }
{
    (first == CALLDATA && second == NUMBER && third == TEXT).then_some(Change {
        taken: 3,
        low: 0,
        top: 0,
    })
}

// EQ and NEQ: two alike, to B.
#[tactic(auto, unfolding(crate::specs::Changes::compare))]
fn compare(first: u32, second: u32) -> Option<Change>
    ensures { result ≡ compare first second }
{
    (second != 0 && first == second).then_some(Change {
        taken: 2,
        low: BOOLEAN,
        top: 0,
    })
}

// M_MUTA: S or V, N, N; the vector stays.
#[tactic(auto, unfolding(crate::specs::Changes::change_vector))]
fn change_vector(first: u32, second: u32, third: u32) -> Option<Change>
    ensures { result ≡ change_vector first second third }
{
    match third {
        TEXT | NUMBERS => take_two(NUMBER, first, second, 0),
        _ => None,
    }
}

// So many kinds are taken and two are given, if there is this one.
#[tactic(auto, unfolding(crate::specs::Changes::move_kinds))]
fn move_kinds(needed: u32, taken: usize, low: u32, top: u32) -> Option<Change>
    ensures { result ≡ move_kinds needed taken low top }
{
    (needed != 0).then_some(Change { taken, low, top })
}

// An exchange of kinds, of which there are so many.
#[tactic(auto, unfolding(crate::specs::Changes::exchange_change))]
fn exchange_change(
    exchange: Exchange,
    height: usize,
    first: u32,
    second: u32,
    third: u32,
) -> Option<Change>
    ensures { result ≡ exchange_change exchange height first second third }
{
    match exchange {
        Exchange::Unchanged => Some(Change {
            taken: 0,
            low: 0,
            top: 0,
        }),
        Exchange::Adds(kind) => Some(Change {
            taken: 0,
            low: letter(kind),
            top: 0,
        }),
        Exchange::Takes(kind) => take_one(letter(kind), first, 0),
        Exchange::Turns { taken, given } => take_one(letter(taken), first, letter(given)),
        Exchange::Joins(kind) => take_two(NUMBER, first, second, letter(kind)),
        Exchange::Creates => create(first, second, third),
        Exchange::Gets(kind) if height < 1000 => take_one(NUMBER, first, letter(kind)),
        Exchange::Sets(kind) if height < 1000 => take_two(letter(kind), first, second, 0),
        Exchange::Gets(_) | Exchange::Sets(_) => None,
        Exchange::Dup => move_kinds(first, 0, first, 0),
        Exchange::Swap => move_kinds(second, 2, first, second),
        Exchange::Drop => move_kinds(first, 1, 0, 0),
        Exchange::Compares => compare(first, second),
        Exchange::Changes => change_vector(first, second, third),
    }
}

// An element of a program.
#[tactic(auto, unfolding(crate::specs::Changes::element_change))]
pub(crate) fn element_change(
    element: Element,
    height: usize,
    first: u32,
    second: u32,
    third: u32,
) -> Option<Change>
    ensures { result ≡ element_change element height first second third }
{
    match element {
        Element::NoRule => None,
        Element::Kinds(exchange) => exchange_change(exchange, height, first, second, third),
        Element::Do => take_two(NUMBER, first, second, 0),
        Element::Loop => Some(Change {
            taken: 0,
            low: 0,
            top: 0,
        }),
        Element::LoopIndex => Some(Change {
            taken: 0,
            low: NUMBER,
            top: 0,
        }),
        Element::JumpIfFalse(_) => take_one(BOOLEAN, first, 0),
    }
}
