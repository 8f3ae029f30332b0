// The fourth chapter: the dealer's shares, and whom they elect.
use crate::fault::Fault;
use crate::sample::MEMBERS;
use coin::{Coin, DrawnList, Polynomial, Share, dealt};
use std::alloc::{AllocError, Global};

// The line of the walk: 100 at 0, and 3 more at each member.
const LINE: [u16; 2] = [100, 3];

pub fn chapter(heap: Global) -> Result<String, Fault> {
    let mut text = String::new(heap);
    writeln!(
        text,
        "4. Two shares of a coin elect a member
  dealt are the values of 100 + 3 x modulo 257 at members 1 to 4"
    )?;
    for member in 1..=MEMBERS {
        let value = dealt(MEMBERS, &LINE, member).ok_or(Fault::Step)?;
        writeln!(text, "    member {member}: {value}")?;
    }
    for shown in [
        [(1, 103), (2, 106)],
        [(2, 106), (4, 112)],
        [(3, 109), (1, 103)],
    ] {
        write_election(&mut text, &Polynomial, shown)?;
    }
    writeln!(text, "  any two find 100 at 0, and 100 mod 4 + 1 is 1")?;
    for shown in [[(2, 106), (2, 106)], [(1, 257), (2, 106)]] {
        write_election(&mut text, &Polynomial, shown)?;
    }
    writeln!(
        text,
        "  a drawn list deals all members one number, here 9, and 9 mod 4 + 1 is 2"
    )?;
    write_election(&mut text, &DrawnList, [(1, 9), (3, 9)])?;
    Ok(text)
}

// What a coin answers to two shares, each of a member and a value.
fn write_election<C: Coin>(
    text: &mut String,
    coin: &C,
    shown: [(u8, u16); 2],
) -> Result<(), AllocError> {
    let shares = shown.map(|(member, value)| Share { member, value });
    let [(one, a), (other, b)] = shown;
    write!(text, "  members {one} and {other} show {a} and {b}: ")?;
    match coin.elect(MEMBERS, &shares) {
        Ok(winner) => writeln!(text, "member {winner} wins"),
        Err(error) => writeln!(text, "refusal {}", u8::from(error)),
    }
}
