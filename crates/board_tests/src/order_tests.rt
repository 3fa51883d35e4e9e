// What two sides see of each other where their steps follow one another on one thread.
use round_board::{Board, Opened};

#[test]
fn orders_on_one_thread(rt: HostRuntime) {
    let Opened {
        board,
        mut a,
        mut b,
        mut conductor,
    } = Board::open(rt.alloc()).expect(&rt, "memory");

    // Both publish before they look.
    let (pass_a, pass_b) = conductor.advance(&board);
    a.begin(&board, pass_a);
    b.begin(&board, pass_b);
    a.publish(&board, 5);
    b.publish(&board, 7);
    a.look(&board);
    b.look(&board);
    let of_a = a.end(&board);
    let of_b = b.end(&board);
    let first = conductor.collect(&board, of_a, of_b);

    // A's turn comes before B's.
    let (pass_a, pass_b) = conductor.advance(&board);
    a.begin(&board, pass_a);
    a.publish(&board, 6);
    a.look(&board);
    let of_a = a.end(&board);
    b.begin(&board, pass_b);
    b.publish(&board, 8);
    b.look(&board);
    let of_b = b.end(&board);
    let second = conductor.collect(&board, of_a, of_b);

    assert!(rt; first.a.seen == 7 && first.b.seen == 5);
    assert!(rt; second.a.seen == 7 && second.b.seen == 6);
}
