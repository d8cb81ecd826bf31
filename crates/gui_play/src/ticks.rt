//! Time.
ghost use Rattle.gui_edge.specs.Sink.{SinkState};
ghost use Rattle.run_defs.specs.Ticks.{tick};
ghost use Rattle.gui_board.specs.Boards.{Plays};

use crate::animating::animate_all;
use crate::devices::{feed_encoder, feed_keypad, feed_pointer};
use gui_board::Board;
use gui_edge::Sink;

/// Time passes for the pointer, the keypad, the encoder and the animations, in this order.
pub(crate) fn tick<S: Sink>(board: &mut Board, ms: u16, log: &mut S)
    ensures { Plays board.old board.new (S.state log.old) (S.state log.new) (tick ms) }
{
    board.pass(ms);
    feed_pointer(board, None, log);
    feed_keypad(board, None, log);
    feed_encoder(board, None, log);
    animate_all(board);
}
