//! The columns of tables, as a database has them: texts, whole numbers and null. Each is read exactly
//! where it shows a value, and written of a value.
#![tactic(auto)]

mod columns;
mod limits;

pub use columns::{
    address_text, flag_column, name_or_null, name_text, plain_text, print_member, read_address,
    read_at, read_count, read_decimal, read_fabric, read_flag, read_kind, read_name,
    read_name_or_null,
};
pub use limits::MOST_NUMBER;
