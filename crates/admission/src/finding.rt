// The element at a place of a program, by a table of operand sizes.
ghost use Rattle.std.specs.Prelude.{◌≡◌, ◌<◌, length, get_or};
ghost use Rattle.bytecode.specs.Operands.{operand, Follows};
ghost use Rattle.labels.specs.Elements.{joined, tag_kind, field_kind, with_kind, field_element, jump_element, moving_element, plain_element, whole_element};
ghost use Rattle.labels.specs.declared.Kind.TheVariants.{Number};
ghost use Rattle.labels.specs.declared.Exchange.TheVariants.{Adds, Turns, Gets, Sets};
ghost use Rattle.admission.specs.Found.{found, found_by, Follows-prop};

use bytecode::extents::{extent_by, operand_sizes};
use bytecode::opcodes::*;
use bytecode::operands::prepare_u32_from_be_checked;
use labels::{Element, Exchange, Kind};
use slices::get_or;

// The table of operand sizes.
#[derive(Drop)]
pub(crate) struct Sizes {
    table: [u8; 256],
    ghost right: { Follows table } by { Follows-prop table },
}

pub(crate) fn make_sizes() -> Sizes {
    Sizes {
        table: operand_sizes(),
    }
}

// The kind of a vector's tag.
#[tactic(auto, unfolding(labels::specs::Elements::tag_kind))]
fn tag_kind(tag: u8) -> Option<Kind>
    ensures { result ≡ tag_kind tag }
{
    match tag {
        4 => Some(Kind::Text),
        6 => Some(Kind::Numbers),
        _ => None,
    }
}

// The kind of a task's field.
#[tactic(auto, unfolding(labels::specs::Elements::field_kind))]
fn field_kind(field: u8) -> Option<Kind>
    ensures { result ≡ field_kind field }
{
    match field {
        0 => Some(Kind::Text),
        1 => Some(Kind::Number),
        2 => Some(Kind::Calldata),
        _ => None,
    }
}

// M_STI.
#[tactic(auto, unfolding(labels::specs::Elements::with_kind))]
fn m_sti_element(tag: u8) -> Element
    ensures { result ≡ with_kind Adds (tag_kind tag) }
{
    tag_kind(tag).map_or(Element::NoRule, |kind| Element::Kinds(Exchange::Adds(kind)))
}

// M_ST.
#[tactic(auto, unfolding(labels::specs::Elements::with_kind))]
fn m_st_element(tag: u8) -> Element
    ensures { result ≡ with_kind (Turns Number) (tag_kind tag) }
{
    tag_kind(tag).map_or(
        Element::NoRule,
        |given| Element::Kinds(Exchange::Turns {
            taken: Kind::Number,
            given,
        }),
    )
}

// PUSH_TASK_FIELD joined to T_GET_FIELD.
#[tactic(auto, unfolding(labels::specs::Elements::with_kind))]
fn get_element(field: u8) -> Element
    ensures { result ≡ with_kind Gets (field_kind field) }
{
    field_kind(field).map_or(Element::NoRule, |kind| Element::Kinds(Exchange::Gets(kind)))
}

// PUSH_TASK_FIELD joined to T_SET_FIELD.
#[tactic(auto, unfolding(labels::specs::Elements::with_kind))]
fn set_element(field: u8) -> Element
    ensures { result ≡ with_kind Sets (field_kind field) }
{
    field_kind(field).map_or(Element::NoRule, |kind| Element::Kinds(Exchange::Sets(kind)))
}

// PUSH_TASK_FIELD, joined or lone.
#[tactic(auto, unfolding(labels::specs::Elements::field_element))]
#[inline(always)]
fn field_element(code: &[u8], at: usize) -> Element
    requires { at < length code.now }
    ensures { result ≡ field_element code.now at }
{
    match get_or(code, at + 2, 0) {
        T_GET_FIELD => get_element(get_or(code, at + 1, 0)),
        T_SET_FIELD => set_element(get_or(code, at + 1, 0)),
        _ => Element::Kinds(Exchange::Adds(Kind::Number)),
    }
}

// JUMP_IF_FALSE.
#[tactic(auto, unfolding(labels::specs::Elements::jump_element))]
fn jump_element(code: &[u8], at: usize) -> Element
    ensures { result ≡ jump_element (operand 4 code.now at) }
{
    prepare_u32_from_be_checked(code, at).map_or(
        Element::NoRule,
        |target| Element::JumpIfFalse(target as usize),
    )
}

// An opcode that moves kinds or loops about, or does nothing here.
#[tactic(auto, unfolding(labels::specs::Elements::moving_element))]
#[inline(always)]
fn moving_element(op: u8) -> Element
    ensures { result ≡ moving_element op }
{
    match op {
        DO => Element::Do,
        LOOP => Element::Loop,
        LOOP_INDEX => Element::LoopIndex,
        DUP => Element::Kinds(Exchange::Dup),
        SWAP => Element::Kinds(Exchange::Swap),
        DROP => Element::Kinds(Exchange::Drop),
        CALL | T_GET_FIELD | T_SET_FIELD => Element::NoRule,
        _ => Element::Kinds(Exchange::Unchanged),
    }
}

// An opcode without operands.
#[tactic(auto, unfolding(labels::specs::Elements::plain_element))]
#[inline(always)]
fn plain_element(op: u8) -> Element
    ensures { result ≡ plain_element op }
{
    match op {
        S_LEN => Element::Kinds(Exchange::Adds(Kind::Number)),
        MUL => Element::Kinds(Exchange::Joins(Kind::Number)),
        T_CREATE => Element::Kinds(Exchange::Creates),
        T_DELETE => Element::Kinds(Exchange::Takes(Kind::Number)),
        // an arm each: EQ | NEQ, or LT | GT, makes the sweep 10 percent slower (measured)
        EQ => Element::Kinds(Exchange::Compares),
        NEQ => Element::Kinds(Exchange::Compares),
        LT => Element::Kinds(Exchange::Joins(Kind::Boolean)),
        GT => Element::Kinds(Exchange::Joins(Kind::Boolean)),
        M_MUTA => Element::Kinds(Exchange::Changes),
        _ => moving_element(op),
    }
}

// The element at a place where it is whole.
#[tactic(auto, unfolding(labels::specs::Elements::whole_element))]
#[inline(always)]
fn whole_element(code: &[u8], at: usize, op: u8) -> Element
    requires { at < length code.now }
    ensures { result ≡ whole_element code.now at op }
{
    match op {
        PUSH_U32 | PUSH_STATE | PUSH_MAX_STATES => Element::Kinds(Exchange::Adds(Kind::Number)),
        PUSH_TASK_FIELD => field_element(code, at),
        PUSH_CALLDATA => Element::Kinds(Exchange::Adds(Kind::Calldata)),
        MULI => Element::Kinds(Exchange::Turns {
            taken: Kind::Number,
            given: Kind::Number,
        }),
        M_STI => m_sti_element(get_or(code, at + 3, 0)),
        M_ST => m_st_element(get_or(code, at + 1, 0)),
        JUMP_IF_FALSE => jump_element(code, at + 1),
        _ => plain_element(op),
    }
}

// Whether PUSH_TASK_FIELD stands at a place, directly followed by T_GET_FIELD or T_SET_FIELD.
#[tactic(auto, unfolding(labels::specs::Elements::joined))]
fn joined(code: &[u8], at: usize, op: u8) -> bool
    requires { (at < length code.now) × (op ≡ get_or code.now at 0) }
    ensures { result ≡ joined code.now at }
{
    op == PUSH_TASK_FIELD && matches!(get_or(code, at + 2, 0), T_GET_FIELD | T_SET_FIELD)
}

// The element at a place, by a table of operand sizes.
#[tactic(auto, unfolding(crate::specs::Found::found_by, crate::specs::Found::found_extent), using(crate::proofs::Reach::found_past))]
#[inline(always)]
fn find(sizes: &[u8; 256], code: &[u8], at: usize) -> Option<(Element, usize)>
    ensures { result ≡ found_by sizes.now code.now at }
{
    let op = *code.get(at)?;
    if joined(code, at, op) {
        return Some((whole_element(code, at, op), at + 3));
    }
    let next = extent_by(sizes, code, at)?;
    Some((whole_element(code, at, op), next))
}

// The element at a place. Inlined into the two loops, with what it calls: else it is handed on through memory, and the check takes 20 to 70 percent longer
// (measured).
#[tactic(auto, using(crate::proofs::Reach::found_is))]
#[inline(always)]
pub(crate) fn element_at(sizes: &Sizes, code: &[u8], at: usize) -> Option<(Element, usize)>
    ensures { result ≡ found code.now at }
{
    find(&sizes.table, code, at)
}
