//! The syntax tree of a text, or its first fault.
//!
//! `parse` needs a text and its tokens, as `qm_lex` cuts them, and gives the one answer that they have (`Parsing`): the tree
//! of a text whose names are used right (`Symbols`, `Parts`, `Texts`, `Checks`); or the first fault of its grammar
//! (`Faults`), with the word that its unfinished part wants (`Wants`); or the first name that is used wrong
//! (`NameFaults`). `Ast` says what is written, in the order of the text.
//!
//! Tokens become symbols, where names are numbers of a list (`NameTables`, `Known`); a small automaton says which symbol
//! may follow a beginning (`Stages`), and a draft takes what each adds (`Reading`, `Drafts`); names are judged last, by
//! marks (`Marks`). The laws say that this reads all texts and nothing else, and that no text has two trees.
#![tactic(auto)]

mod ast;
mod automaton;
mod bound_checks;
mod checks;
mod draft;
mod fault;
mod judgement;
mod laws;
mod marks;
mod names;
mod note;
mod numbers;
mod offence;
mod parser;
mod reader;
mod sections;
mod signs;
mod stage;
mod steps;
mod survey;
mod symbols;
mod twice;
mod unread;
mod word;

pub use ast::{Ast, AstBound, AstRow, AstTerm, Named, Relation};
pub use fault::{ParseFault, What};
pub use laws::{
    a_text_is_read, each_row_takes_a_symbol, expected_is_what_the_part_wants,
    fault_is_the_first_offence, no_fault_where_names_are_right, one_answer, one_fault,
    one_tree_a_text, some_answer, symbols_know_their_colons,
};
pub use marks::Marks;
pub use names::Names;
pub use parser::parse;
