// Watches of every kind, run: values at each rule's edge, and pairs at the widest.
use crate::wide::{doubled, wide};
use watches::band::Band;
use watches::examples::see_in_turn;
use watches::moving::Moving;
use watches::pair::Pair;
use watches::still::Still;
use watches::watch::Watch;

const GOOD: Option<bool> = Some(false);

const BAD: Option<bool> = Some(true);

#[test]
fn each_kind_by_its_rule(rt: HostRuntime) {
    assert_eq!(rt;
        see_in_turn(&mut Still::new(), 1, [5, 5, 6, 6, 7]),
        [GOOD, GOOD, BAD, GOOD, BAD]
    );
    assert_eq!(rt;
        see_in_turn(&mut Moving::new(), 1, [5, 5, 6, 6, 6]),
        [GOOD, BAD, GOOD, BAD, BAD]
    );
    assert_eq!(rt;
        see_in_turn(&mut Band::new(100, 200), 1, [100, 99, 150, 201, 200]),
        [GOOD, BAD, GOOD, BAD, GOOD]
    );
    assert_eq!(rt;
        see_in_turn(&mut Band::new(200, 100), 1, [100, 150, 200, 0, 99]),
        [BAD, BAD, BAD, BAD, BAD]
    );
    assert_eq!(rt;
        see_in_turn(&mut Still::new(), 2, [5, 6, 7, 8, 9]),
        [None, None, None, None, None]
    );
}

#[test]
fn pairs_at_the_widest(rt: HostRuntime) {
    let two = doubled(Still::new());
    let four = doubled(two);
    let eight = doubled(four);
    let sixteen = doubled(eight);
    let mut of_22 = Pair::new(sixteen, Pair::new(four, two));
    assert_eq!(rt; of_22.width(), 22);
    assert_eq!(rt;
        see_in_turn(&mut of_22, 22, [1, 2, 2, 3, 3]),
        [GOOD, BAD, GOOD, BAD, GOOD]
    );
    assert_eq!(rt;
        see_in_turn(&mut of_22, 23, [1, 2, 2, 3, 3]),
        [None, None, None, None, None]
    );
    let mut of_23 = wide();
    assert_eq!(rt; of_23.width(), 23);
    assert_eq!(rt;
        see_in_turn(&mut of_23, 23, [1, 2, 2, 3, 4]),
        [GOOD, BAD, GOOD, BAD, BAD]
    );
    assert_eq!(rt; of_23.in_trouble(23), true);
    assert_eq!(rt; of_23.in_trouble(22), false);
    assert_eq!(rt;
        see_in_turn(&mut of_23, 24, [1, 2, 2, 3, 3]),
        [None, None, None, None, None]
    );
    let mut cut = Pair::new(sixteen, eight);
    assert_eq!(rt; cut.width(), 23);
    assert_eq!(rt;
        see_in_turn(&mut cut, 24, [1, 2, 2, 3, 3]),
        [None, None, None, None, None]
    );
}
