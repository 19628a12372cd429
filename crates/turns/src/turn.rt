// The eight turns that act on a loom. A turn is what a run file's line asks for; its numbers
// may be out of the loom's bounds, and the console then refuses it.

use records::event::{Board, Word};

#[derive(Clone, Copy, PartialEq, Eq, Debug)]
pub enum Turn {
    // the board works a pick by the word
    Work { board: Board, word: Word },
    // a word leaves one board for another
    Send { from: Board, to: Board, word: Word },
    // the earliest message on the wire between the two boards reaches the second
    Deliver { from: Board, to: Board },
    // the board starts saving
    Checkpoint { board: Board },
    // the board starts going back
    Rollback { board: Board },
    // the board stops, and its record is lost
    Stop { board: Board },
    // a stopped board comes up again
    Restart { board: Board },
    // the board is willing (1) or not (0) to take part in rounds
    SetWilling { board: Board, willing: u32 },
}
