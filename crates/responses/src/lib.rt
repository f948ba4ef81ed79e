//! What is answered, and the bytes that it is written as: the lines that a replay writes, and the replies of a connection.
//!
//! A response is an answer, and whether the connection ends with it (`specs/Responses.antt`). A replay writes it as a line of
//! its output (`reply_line`), and serving as the bytes of a reply on the connection that asked: `write_response` writes either.
//! `console_line` gives the line of what the console wrote. `specs/Output.antt` has these lines, and the last ones, by which a
//! replay tells how it ended.
#![tactic(auto)]

mod form;
mod lines;

pub use form::{ResponseForm, write_response};
pub use lines::{console_line, reply_line};
