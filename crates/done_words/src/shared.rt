// Threads may share a board, and take seats with them.
use crate::board::Board;
use crate::work_seat::WorkSeat;

fn is_sent<T: Send>(value: &T) {
    let _ = value;
}

fn is_shared<T: Send + Sync>(value: &T) {
    let _ = value;
}

/// It has a proof only because a board may be shared by threads, and a worker's seat sent to one.
pub fn boards_are_shared(board: &Board, seat: &WorkSeat) {
    is_shared(board);
    is_sent(seat);
}
