// Expected winners: the value at 0 by Lagrange's formula with Python's pow(x, -1, 257), then its remainder modulo n, plus 1.
use crate::{Coin, DrawnList, ElectError, Polynomial, Share, dealt};

fn share((member, value): (u8, u16)) -> Share {
    Share { member, value }
}

// The answer to two shares among 4 members.
fn elected<C: Coin>(coin: &C, first: (u8, u16), second: (u8, u16)) -> Result<u8, ElectError> {
    coin.elect(4, &[share(first), share(second)])
}

// On the lines 100 + 3 x and 250 + 5 x; and what is refused.
#[test]
fn polynomials(rt: HostRuntime) {
    for (first, second, answer) in [
        ((1, 103), (2, 106), Ok(1)),
        ((2, 106), (4, 112), Ok(1)),
        ((1, 255), (3, 8), Ok(3)),
        ((4, 13), (2, 3), Ok(3)),
        ((0, 103), (2, 106), Err(ElectError::Unknown)),
        ((2, 106), (5, 115), Err(ElectError::Unknown)),
        ((2, 106), (2, 3), Err(ElectError::Repeated)),
        ((1, 103), (2, 257), Err(ElectError::Excess)),
    ] {
        assert_eq!(rt; elected(&Polynomial, first, second), answer);
    }
    assert_eq!(rt; Polynomial.elect(4, &[]), Err(ElectError::Count));
}

// 65535 mod 4 + 1 is 4, and 9 mod 4 + 1 is 2.
#[test]
fn drawn_lists(rt: HostRuntime) {
    for (first, second, answer) in [
        ((1, 65535), (4, 0), Ok(4)),
        ((3, 6), (2, 9), Ok(2)),
        ((3, 6), (3, 6), Err(ElectError::Repeated)),
    ] {
        assert_eq!(rt; elected(&DrawnList, first, second), answer);
    }
    assert_eq!(rt;
        (Polynomial.greatest_value(), DrawnList.greatest_value()),
        (256, 65535)
    );
}

// The parabola 256 + 200 x + 131 x x, whose value at 0 elects 256 mod 7 + 1; and what no dealer hands out.
#[test]
fn dealings(rt: HostRuntime) {
    for (member, value) in [
        (0, None),
        (1, Some(73)),
        (4, Some(68)),
        (7, Some(108)),
        (8, None),
    ] {
        assert_eq!(rt; dealt(7, &[256, 200, 131], member), value);
    }
    assert_eq!(rt; dealt(4, &[100, 257], 1), None);
    assert_eq!(rt;
        Polynomial.elect(7, &[share((7, 108)), share((1, 73)), share((4, 68))]),
        Ok(5)
    );
}
