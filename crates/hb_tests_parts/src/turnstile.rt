//! A turnstile round a sum: one order of replies, over several passes and over threads.

ghost use Rattle.std.specs.Prelude.{◌≡◌, ◌+◌, ◌%◌, ◌^◌};

use hb_turnstile::{Machine, Pass, Turnstile};
use std::process::Abort;
use std::sync::Wait;
use std::test::*;
use std::thread::{Threads, join};

// Adds each call to a sum, and answers the sum.
#[derive(Drop)]
struct Sum {
    total: u64,
}

impl Machine for Sum {
    type Call = u64;

    type Reply = u64;

    ghost turns = { λ before call reply after. (reply ≡ (before.total + call) % 2 ^ 64)
        × (after.total ≡ reply) };

    fn turn(&mut self, call: &u64) -> u64 {
        self.total = self.total.wrapping_add(*call);
        self.total
    }
}

// No test draws all tickets, so no call is refused.
fn called<R: Wait + Abort>(
    rt: &R,
    turnstile: &Turnstile<Sum>,
    pass: &mut Pass<Sum>,
    call: u64,
) -> u64
    requires { pass.old.table ≡ turnstile.now.table }
    ensures { pass.new.table ≡ turnstile.entry.now.table }
{
    turnstile
        .call(rt, pass, &call)
        .expect(rt, "a ticket is left")
}

#[test]
fn replies_follow_one_order_over_split_and_joined_passes(rt: HostRuntime) -> Result<(), Fail> {
    let (turnstile, mut first) = Turnstile::new(rt.alloc(), Sum { total: 0 })
        .ok()
        .ok_or("no memory for the turnstile")?;
    assert_eq!(rt; called(&rt, &turnstile, &mut first, 1), 1);
    assert_eq!(rt; called(&rt, &turnstile, &mut first, 2), 3);
    assert_eq!(rt; called(&rt, &turnstile, &mut first, 3), 6);
    let mut second = turnstile
        .split(&mut first)
        .ok()
        .ok_or("no memory for the pass")?;
    assert_eq!(rt; called(&rt, &turnstile, &mut second, 4), 10);
    turnstile.join(&mut first, second);
    assert_eq!(rt; called(&rt, &turnstile, &mut first, 0), 10);
    Ok(())
}

// Calls 1 a thousand times, and gives the pass back.
fn thousand_calls<R: Wait + Abort>(
    rt: &R,
    turnstile: &Turnstile<Sum>,
    mut pass: Pass<Sum>,
) -> Pass<Sum>
    requires { pass.table ≡ turnstile.now.table }
    ensures { result.table ≡ turnstile.entry.now.table }
{
    for _ in 0..1000 {
        called(rt, turnstile, &mut pass, 1);
    }
    pass
}

// Two threads call a thousand times each. Once both have ended, their passes are joined, and the
// sum is asked for.
fn sum_after_two_threads<R: Threads + Wait + Abort + Sync>(
    rt: &R,
    turnstile: &Turnstile<Sum>,
    one: Pass<Sum>,
    two: Pass<Sum>,
) -> u64
    requires { (one.table ≡ turnstile.now.table) × (two.table ≡ turnstile.now.table) }
{
    let (mut one, two) = join(
        rt,
        move || -> Pass<Sum>
            requires { one.table ≡ turnstile.now.table }
            ensures { result.table ≡ turnstile.entry.now.table }
        { thousand_calls(rt, turnstile, one) },
        move || -> Pass<Sum>
            requires { two.table ≡ turnstile.now.table }
            ensures { result.table ≡ turnstile.entry.now.table }
        { thousand_calls(rt, turnstile, two) },
    );
    turnstile.join(&mut one, two);
    called(rt, turnstile, &mut one, 0)
}

#[test]
fn calls_of_two_threads_are_all_served(rt: HostRuntime) -> Result<(), Fail> {
    let (turnstile, mut one) = Turnstile::new(rt.alloc(), Sum { total: 0 })
        .ok()
        .ok_or("no memory for the turnstile")?;
    let two = turnstile
        .split(&mut one)
        .ok()
        .ok_or("no memory for the pass")?;
    assert_eq!(rt; sum_after_two_threads(&rt, &turnstile, one, two), 2000);
    Ok(())
}
