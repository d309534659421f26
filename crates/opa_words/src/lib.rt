//! The tokens of a text, phrases, texts that are written token by token, and the blocks that lines are laid out in: for
//! who reads or writes lines.
#![tactic(auto)]

mod characters;
mod cursor;
mod cutting;
mod fault;
mod fronts;
mod kinds;
mod laws;
pub mod layout;
mod names;
mod phrases;
mod piece_laws;
mod pieces;
mod positions;
mod quotes;
mod reserved;
mod scan;

pub use cutting::tokens;
pub use fault::WordFault;
pub use fronts::front_text;
pub use kinds::{Token, TokenKind};
pub use laws::{one_cut, quoted_tells_apart, quoted_texts_are_read};
pub use layout::{
    Block, BlockLine, Indent, LayoutFault, Line, blocks, first_line, indent_of, one_layout,
    text_of, without_mark,
};
pub use names::printed_name;
pub use phrases::Phrases;
pub use piece_laws::{ascii_is_token, one_cutting, quoted_is_token, written_is_cut};
pub use pieces::Pieces;
pub use quotes::{push_quoted, quoted, text_of_token, unquoted};
pub use reserved::{is_ending, is_phrase, is_reserved, phrase_text, token_text};
