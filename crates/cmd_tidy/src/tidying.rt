//! The command `tidy`.

ghost use Rattle.edge_traits.specs.Faults.{Rose};
ghost use Rattle.cmd_lines.specs.Ends.{OnReadFault, OnWriteFault};
ghost use Rattle.cmd_tidy.specs.TidyEnds.{TidyEnds};

use crate::putting::{put_games, put_last_games};
use cmd_lines::{End, Feeder, Stop, answer_pieces};
use edge_traits::{Sink, Source};
use memory::NoMemory;
use pgn_book::PgnReader;
use std::alloc::Global;
use std::marker::Model;

/// The reader of the bytes that came, of which contracts see where it stands.
#[derive(Drop)]
struct Tidier {
    alloc: Global,
    reader: PgnReader,
}

impl Model for Tidier {
    ghost use Rattle.pgn_book.specs.Reader.{Reader};

    ghost Value = { Reader };

    ghost view = { λ tidier. tidier.reader };
}

impl Feeder for Tidier {
    ghost use Rattle.cmd_tidy.specs.Tidying.{tidying};

    ghost feeding = { λ _. tidying };

    fn feed(&mut self, piece: &[u8], out: &mut Vec<u8>) -> Result<(), Stop> {
        self.reader.feed(piece)?;
        put_games(self.alloc, &mut self.reader, out)
    }

    fn finish(&mut self, out: &mut Vec<u8>) -> Result<(), Stop> {
        put_last_games(self.alloc, &mut self.reader, out)
    }

    fn close(&mut self, _out: &mut Vec<u8>) -> Result<(), NoMemory> {
        Ok(())
    }
}

/// Reads the source to its end, and writes the exports of the games of its bytes: one write a read.
#[tactic(auto, using(crate::proofs::Steps::cut_at_once))]
pub fn tidy<S: Source, K: Sink>(alloc: Global, source: &mut S, sink: &mut K) -> End
    ensures ends { TidyEnds (S.left source.old) (S.left source.new) (K.written sink.old) (K.written sink.new) result }
    ensures read_cause { OnReadFault result (Rose (S.faults source.old) (S.faults source.new)) }
    ensures write_cause { OnWriteFault result (Rose (K.faults sink.old) (K.faults sink.new)) }
{
    let Ok(reader) = PgnReader::new(alloc) else {
        return End::Memory;
    };
    answer_pieces(alloc, Tidier { alloc, reader }, source, sink)
}
