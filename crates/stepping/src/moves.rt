// The moves of a chain: how many, and then runs, all with a single space between. Of the moves that are written the first 64 are kept, and a
// move that is not written is of 255 to 255.
use holding::{Move, Moves};
use lines::pieces;
use lines::runs::Run;

// Puts one more move behind the last, where there is a place for it.
fn add(moves: &mut Moves, g: u8, t: u8) {
    let k = moves.count;
    if k < 64 {
        moves.list[k] = Move { item: g, to: t };
        moves.count = k + 1;
    }
}

// Puts the moves of a run behind the last.
fn join(moves: &mut Moves, run: Run) {
    for g in 0..=u8::MAX {
        if run.has(usize::from(g)) {
            add(moves, g, run.byte);
        }
    }
}

// The moves that a text of runs writes.
fn written(text: &[u8]) -> Moves {
    let mut moves = Moves {
        count: 0,
        list: [Move { item: 255, to: 255 }; 64],
    };
    for word in pieces::of(text, b' ') {
        join(&mut moves, Run::read(word));
    }
    moves
}

// The moves that a text writes. The count may be any number, whatever is written.
pub fn read(text: &[u8]) -> Moves {
    Moves {
        count: lines::number_or_max(text),
        ..written(lines::rest(text))
    }
}
