//! Tokens of a text.
//!
//! `specs/Tokens.antt` says by cases what the tokens of a text are and where it is refused; `tokens_by_cases` ties the
//! lexer to it.
#![tactic(auto)]

mod class;
mod digit;
mod law;
mod lexer;
mod piece;
mod quote;
mod token;

pub use law::tokens_by_cases;
pub use lexer::Lexer;
pub use token::{LexFault, Lexed, Token, TokenKind};
