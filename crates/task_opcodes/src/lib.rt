// The opcodes on a task: T_CREATE, T_DELETE, T_GET_FIELD, T_SET_FIELD, on the record of the slot that they name.
#![tactic(auto)]

pub mod t_create;
pub mod t_delete;
pub mod t_fields;
pub mod titles;
