//! Tests of the words behind the program's name, beside a reader of command lines from elsewhere.

mod clap_words;
mod rows;
