use nz_scalar::Scalar;

// A number, what it is divided by, the floor of the quotient and the gcd of the two.
const CASES: [[i64; 4]; 5] = [
    [7, 2, 3, 1],
    [-7, 2, -4, 1],
    [6, -4, -2, 2],
    [-6, -4, 1, 2],
    [0, 5, 0, 5],
];

fn is_number<T: Scalar>(number: Option<T>, wanted: i64) -> bool {
    match number {
        Some(n) => n.to_i128() == i128::from(wanted),
        None => false,
    }
}

fn divides<T: Scalar>(case: [i64; 4]) -> bool {
    let [a, by, floor, gcd] = case;
    if by == 0 {
        return false;
    }
    is_number(T::of_i64(a).floor_div(T::of_i64(by)), floor)
        && is_number(T::of_i64(a).gcd(T::of_i64(by)), gcd)
}

#[test]
fn divisions(rt: HostRuntime) {
    for case in CASES {
        let [a, by, _, _] = case;
        assert!(rt;
            divides::<i64>(case) && divides::<i128>(case),
            "{a} and {by}"
        );
    }
}

// Two numbers, their sum, their difference and their product.
const SUMS: [[i64; 5]; 3] = [[3, 5, 8, -2, 15], [-7, 2, -5, -9, -14], [0, -4, -4, 4, 0]];

fn reckons<T: Scalar>(case: [i64; 5]) -> bool {
    let [a, b, sum, difference, product] = case;
    let left = T::of_i64(a);
    let right = T::of_i64(b);
    is_number(left.try_add(right), sum)
        && is_number(left.try_sub(right), difference)
        && is_number(left.try_mul(right), product)
        && is_number(T::of_i128(i128::from(a)), a)
}

#[test]
fn sums(rt: HostRuntime) {
    for case in SUMS {
        let [a, b, _, _, _] = case;
        assert!(rt;
            reckons::<i64>(case) && reckons::<i128>(case),
            "{a} and {b}"
        );
    }
}

#[test]
fn past_the_end(rt: HostRuntime) {
    let narrow = i64::of_i128(9223372036854775808);
    let wide = i128::of_i64(i64::MAX).try_mul(i128::of_i128(i128::MAX).unwrap_or(0));
    assert!(rt; narrow.is_none() && wide.is_none());
}
