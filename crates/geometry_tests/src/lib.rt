// The geometry as compiled, on the worked examples and at the edges of the numbers.
#![tactic(auto)]

#[cfg(test)]
mod tests {
    use geometry::curves::{Cubic, Curve, Line, Quad, is_same_point, point_of};
    use geometry::numbers::{all_finite, number_at, same_number, same_numbers};
    use geometry::points::Point;

    const NAN: u32 = 0x7fc0_0000;

    const INFINITY: u32 = 0x7f80_0000;

    const ONE: u32 = 0x3f80_0000;

    const TWO: u32 = 0x4000_0000;

    const THREE: u32 = 0x4040_0000;

    const MAX: u32 = 0x7f7f_ffff;

    const MIN: u32 = 0xff7f_ffff;

    const EPSILON: u32 = 0x2b8c_bccc;

    // Along y = 0: the first x, the line's end and the tangent's end.
    const TANGENTS: [(u32, u32, u32); 3] = [
        (0, THREE, ONE),
        (MIN, MAX, 0xfeaa_aaaa),
        (0, 0x2c0c_bccc, 0x2b3b_a666),
    ];

    // The last x and y, the x and y of a line's end, and whether the line is too short.
    const LINES: [(u32, u32, u32, u32, bool); 6] = [
        (0, 0, EPSILON, 0, true),
        (0, 0, EPSILON + 1, 0, false),
        (0, 0, 0, 0xab8c_bccd, false),
        (NAN, 0, ONE, 0, true),
        (NAN, 0, ONE, ONE, false),
        (INFINITY, 0, ONE, 0, false),
    ];

    fn at(x: u32, y: u32) -> Point {
        Point { x, y }
    }

    #[test]
    fn tangents(rt: HostRuntime) {
        for (first, to, end) in TANGENTS {
            assert_eq!(rt; Line(at(to, 0)).tangent_end(at(first, 0)), Some(at(end, 0)));
        }
        let origin = at(0, 0);
        assert_eq!(rt;
            Quad(at(THREE, 0), at(0, ONE)).tangent_end(origin),
            Some(at(TWO, 0))
        );
        assert_eq!(rt;
            Quad(origin, at(0, THREE)).tangent_end(origin),
            Some(at(0, ONE))
        );
        let cubic = Cubic(origin, at(0, ONE), at(TWO, 0));
        assert_eq!(rt; cubic.tangent_end(origin), Some(at(0, ONE)));
        assert_eq!(rt; Cubic(origin, origin, origin).tangent_end(origin), None);
    }

    #[test]
    fn extents(rt: HostRuntime) {
        for (last_x, last_y, x, y, short) in LINES {
            assert_eq!(rt; Line(at(x, y)).is_short(at(last_x, last_y)), short);
        }
        let origin = at(0, 0);
        assert!(rt; !Quad(at(ONE, 0), origin).is_short(origin));
        assert!(rt; !Quad(at(EPSILON, 0), at(0xab8c_bccc, 0)).is_short(origin));
        assert!(rt; !Cubic(origin, at(0, ONE), origin).is_short(origin));
        assert!(rt; Cubic(origin, origin, at(EPSILON, EPSILON)).is_short(origin));
    }

    #[test]
    fn numbers(rt: HostRuntime) {
        assert!(rt; same_number(0.0, -0.0));
        assert!(rt; same_numbers(&[1.0, 0.0], &[1.0, -0.0]));
        assert!(rt; !same_numbers(&[1.0, 0.0], &[1.0]));
        assert!(rt; !all_finite(&[0.0, 1.0 / 0.0]));
        assert!(rt; number_at(INFINITY).is_some());
        assert!(rt; number_at(NAN).is_none());
        assert!(rt; is_same_point(point_of(-0.0, 1.0), at(0x8000_0000, ONE)));
    }
}
