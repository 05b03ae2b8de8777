//! Why the program and the library refuse: one table of refusals, each with its text, its exit status and its code in C.
//!
//! What a refusal says is defined in `specs/Texts.antt`, its status in `specs/Statuses.antt` and its code in `specs/Codes.antt`. What a person is to make of
//! it stands in the docstrings of `Refusal` and in `refusals.toml`, from which `scripts/refusal_table.py` makes the tables of the pages,
//! of the library, of the window and of the page.
#![tactic(auto)]

mod codes;
mod refusal;
mod texts;

pub use refusal::Refusal;
