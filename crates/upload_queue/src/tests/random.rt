//! Random calls, each answer compared with that of plain lists.

ghost use Rattle.std.specs.Prelude.{◌<◌};

use super::plain::Plain;
use crate::UploadBook;
use std::alloc::Global;
use std::process::Abort;
use std::test::Fail;

/// Numbers that look random, by the generator of Knuth's MMIX.
#[derive(Drop)]
struct Random(u64);

impl Random {
    fn below(&mut self, bound: u64) -> u64
        requires { 0 < bound }
        ensures { result < bound }
    {
        self.0 = self
            .0
            .wrapping_mul(6_364_136_223_846_793_005)
            .wrapping_add(1_442_695_040_888_963_407);
        (self.0 >> 33) % bound
    }
}

/// Both books, which get the same calls.
#[derive(Drop)]
struct Pair {
    book: UploadBook,
    plain: Plain,
}

impl Pair {
    fn counts(&mut self, random: &mut Random, user: u8) -> Result<(), Fail> {
        let bytes = random.below(2_000_000);
        if random.below(2) == 0 {
            self.plain.received(user, bytes);
            self.book.received([user; 16], bytes)?;
        } else {
            self.plain.count_bytes(user, bytes);
            self.book.count_bytes([user; 16], bytes)?;
        }
        Ok(())
    }

    /// A call by a random number or user, at a second.
    fn call(
        &mut self,
        rt: &impl Abort,
        alloc: Global,
        random: &mut Random,
        now: u64,
    ) -> Result<(), Fail> {
        let user = random.below(5) as u8;
        let number = random.below(14);
        match random.below(8) {
            0 => self.counts(random, user)?,
            1 => assert_eq!(rt;
                u64::from(self.book.credit(&[user; 16])),
                self.plain.credit(user)
            ),
            2 => assert_eq!(rt;
                self.book.rank(number, now),
                self.plain.rank(alloc, number, now)?
            ),
            3 => {
                self.plain.leave(number);
                self.book.leave(number);
            }
            _ => {
                let place = self.plain.ask(alloc, number, user, now)?;
                assert_eq!(rt; self.book.ask(number, [user; 16], now)?, place);
            }
        }
        Ok(())
    }
}

#[test]
fn ten_thousand_random_calls(rt: HostRuntime) -> Result<(), Fail> {
    let mut random = Random(1);
    let mut pair = Pair {
        book: UploadBook::new(rt.alloc()),
        plain: Plain::new(rt.alloc()),
    };
    for turn in 0..10_000_u64 {
        // A second passes every fourth call, and now and then the clock is 40 seconds behind.
        let now = (turn / 4).saturating_sub(random.below(3) / 2 * 40);
        pair.call(&rt, rt.alloc(), &mut random, now)?;
    }
    Ok(())
}
