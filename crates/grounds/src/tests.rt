// Powers of a ground, taken from any.

use super::Powers;

#[test]
fn takes_of_any_powers(rt: HostRuntime) {
    let few = Powers::take(2, [1, 0, 2, 3]);
    assert_eq!(rt; few.n, 2);
    assert_eq!(rt; few.powers, [1, 0, 0, 0]);
    let all = Powers::take(9, [1, 0, 2, 3]);
    assert_eq!(rt; all.n, 4);
    assert_eq!(rt; all.powers, [1, 0, 2, 3]);
}
