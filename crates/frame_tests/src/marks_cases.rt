// Epochs, headers and votes at their edges.
use marks::rows::{count_between, largest};
use marks::{Epoch, Header, Vote, is_epoch, is_header, is_vote, least_epoch};
use refusals::Refusal;

#[test]
fn what_is_a_mark(rt: HostRuntime) {
    let epochs: [(Epoch, bool); 7] = [
        ((0, 0), true),
        ((1, 0), false),
        ((0, 1), true),
        ((0, 7), true),
        ((0, 8), false),
        ((4294967295, 7), true),
        ((4294967295, 0), false),
    ];
    for (epoch, is) in epochs {
        assert_eq!(rt; is_epoch(epoch), is, "epoch");
    }
    let headers: [(Header, bool); 7] = [
        ((0, 0, 0), true),
        ((0, 0, 1), false),
        ((1, 0, 0), false),
        ((0, 1, 0), true),
        ((9, 7, 4294967294), true),
        ((9, 7, 4294967295), false),
        ((9, 8, 1), false),
    ];
    for (header, is) in headers {
        assert_eq!(rt; is_header(header), is, "header");
    }
    assert!(rt; is_vote(((0, 0), (0, 0, 0))));
    assert!(rt; is_vote(((2, 3), (1, 1, 9))));
    assert!(rt; !is_vote(((2, 8), (1, 1, 9))));
    assert!(rt; !is_vote(((2, 3), (0, 0, 9))));
}

#[test]
fn least_epochs(rt: HostRuntime) {
    let cases: [(u8, Epoch, Result<Epoch, Refusal>); 10] = [
        (1, (0, 0), Ok((0, 1))),
        (3, (0, 1), Ok((0, 3))),
        (2, (0, 3), Ok((1, 2))),
        (2, (0, 2), Ok((1, 2))),
        (7, (4, 6), Ok((4, 7))),
        (3, (4294967295, 3), Err(Refusal::UsedUp)),
        (4, (4294967295, 3), Ok((4294967295, 4))),
        (1, (4294967295, 255), Err(Refusal::UsedUp)),
        (0, (0, 0), Err(Refusal::NoSuchCard)),
        (8, (0, 0), Err(Refusal::NoSuchCard)),
    ];
    for (card, above, expected) in cases {
        assert_eq!(rt; least_epoch(card, above), expected, "least epoch");
    }
}

#[test]
fn rows_in_order(rt: HostRuntime) {
    let headers: [Header; 5] = [(0, 1, 3), (1, 1, 0), (0, 7, 9), (1, 1, 0), (0, 0, 0)];
    assert_eq!(rt; largest((0, 2, 2), &headers), (1, 1, 0));
    assert_eq!(rt; largest((2, 1, 0), &headers), (2, 1, 0));
    let none: [Header; 0] = [];
    assert_eq!(rt; largest((0, 0, 0), &none), (0, 0, 0));
    assert_eq!(rt; count_between((0, 1, 3), (1, 1, 0), &headers), 4);
    assert_eq!(rt; count_between((0, 1, 4), (1, 0, 9), &headers), 1);
    assert_eq!(rt; count_between((1, 1, 0), (0, 1, 3), &headers), 0);
    let votes: [Vote; 3] = [
        ((0, 2), (0, 1, 2)),
        ((0, 2), (0, 1, 3)),
        ((0, 1), (7, 7, 7)),
    ];
    assert_eq!(rt; largest(((0, 0), (0, 0, 0)), &votes), ((0, 2), (0, 1, 3)));
    assert_eq!(rt; count_between(votes[0], votes[0], &votes), 1);
    assert_eq!(rt; count_between(votes[2], votes[1], &votes), 3);
}
