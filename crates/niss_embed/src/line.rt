//! Calls on one line, and on each line of a text: what they search and tell.
pub(crate) mod many_lines;
pub(crate) mod search;
pub(crate) mod search_answer;
