//! Tests of the texts that players see, one file a subject: the texts of moves, board lines, holdings lines, the lines
//! of a game's beginning and end, and copies of items. There is nothing else here.

mod board_lines;
mod end_lines;
mod games;
mod holdings;
mod items;
mod match_lines;
mod move_texts;
mod times;
