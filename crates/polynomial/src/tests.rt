// Tables of powers, with numbers worked out by hand.

use super::powers;
use paper::Vertex;

// Also where an axis is past the limit, which leaves the tables of the others as they are.
#[test]
fn powers_of_any_vertex(rt: HostRuntime) {
    let tables = powers(Vertex {
        coordinates: [3, -2, 256, i64::MIN],
    });
    assert_eq!(rt; tables[0], [1, 3, 9, 27, 81]);
    assert_eq!(rt; tables[1], [1, -2, 4, -8, 16]);
    assert_eq!(rt; tables[2], [1, 256, 65_536, 16_777_216, 4_294_967_296]);
}
